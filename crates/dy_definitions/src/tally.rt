//! What the definitions of a name do to it together.

ghost use Rattle.std.specs.Prelude.{◌≡◌};
ghost use Rattle.dy_definitions.specs.Names.{is_generic, is_function, what_made};
ghost use Rattle.dy_definitions.specs.Names.{makes_generic, makes_other, is_method};
ghost use Rattle.dy_definitions.specs.Passes.{no_tally, counted, or_what};

use crate::definitions::{Definition, Role};
use dy_base::What;

/// What the definitions of a name do to it together.
#[derive(Clone, Copy, Debug, PartialEq, Eq)]
pub struct Tally {
    /// What the first makes it of those that stand where one may.
    pub what: Option<What>,
    /// What the first makes it of those that stand where one may or are methods.
    pub first: Option<What>,
    /// One of those makes it a generic function, and is no method.
    pub form: bool,
    /// One is a method.
    pub adds: bool,
    /// One makes it a generic function, and is no method.
    pub generic: bool,
    /// One makes it another thing.
    pub other: bool,
}

/// Whether this is a generic function.
pub fn is_generic(what: What) -> bool
    ensures { result ≡ is_generic what }
{
    match what {
        What::Generic => true,
        What::Class | What::Variable | What::Constant | What::Function | What::Macro => false,
    }
}

/// Whether a name that is this, or nothing, is a generic function.
pub fn is_function(what: Option<What>) -> bool
    ensures { result ≡ is_function what }
{
    match what {
        Some(what) => is_generic(what),
        None => false,
    }
}

/// What a definition makes its name.
pub fn what_made(role: Role) -> What
    ensures { result ≡ what_made role }
{
    match role {
        Role::Adds => What::Generic,
        Role::Makes(what) => what,
    }
}

fn makes_generic(role: Role) -> bool
    ensures { result ≡ makes_generic role }
{
    match role {
        Role::Adds => false,
        Role::Makes(what) => is_generic(what),
    }
}

fn makes_other(role: Role) -> bool
    ensures { result ≡ makes_other role }
{
    match role {
        Role::Adds => false,
        Role::Makes(what) => !is_generic(what),
    }
}

/// Whether a definition is a method.
pub fn is_method(role: Role) -> bool
    ensures { result ≡ is_method role }
{
    match role {
        Role::Adds => true,
        Role::Makes(_) => false,
    }
}

/// What a name is with one more definition, which makes it this where it counts.
fn or_what(earlier: Option<What>, counts: bool, made: What) -> Option<What>
    ensures { result ≡ or_what earlier counts made }
{
    match earlier {
        Some(what) => Some(what),
        None => { if counts { Some(made) } else { None } }
    }
}

impl Tally {
    /// The tally of no definition.
    pub fn none() -> Tally
        ensures { result ≡ no_tally }
    {
        Tally {
            what: None,
            first: None,
            form: false,
            adds: false,
            generic: false,
            other: false,
        }
    }

    /// The tally with one more definition.
    pub fn with(self, definition: &Definition) -> Tally
        ensures { result ≡ counted definition.now.role definition.now.is_open self }
    {
        let role = definition.role;
        let made = what_made(role);
        Tally {
            what: or_what(self.what, definition.is_open, made),
            first: or_what(self.first, definition.is_open || is_method(role), made),
            form: self.form || (definition.is_open && makes_generic(role)),
            adds: self.adds || is_method(role),
            generic: self.generic || makes_generic(role),
            other: self.other || makes_other(role),
        }
    }
}
