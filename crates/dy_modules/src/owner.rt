//! Who owns a name.

ghost use Rattle.std.specs.Prelude.{◌≡◌, IfOk};
ghost use Rattle.dy_modules.specs.Clauses.{what_number, is_same_binding, is_same_owner};
ghost use Rattle.dy_modules.specs.declared.owner.Owner.TheVariants.{Own};

use dy_base::{BindingId, Text, What};
use std::alloc::AllocError;

/// The owner of a name: a module and the name that it has there.
#[derive(Clone, Debug, Drop)]
pub enum Owner {
    /// What a used library exports.
    Outside(BindingId),
    /// A name of a module of this library, by the module's number. It may not be defined yet.
    Own(usize, Text),
}

fn what_number(what: What) -> u8
    ensures { result ≡ what_number what }
{
    match what {
        What::Class => 0,
        What::Generic => 1,
        What::Variable => 2,
        What::Constant => 3,
        What::Function => 4,
        What::Macro => 5,
    }
}

fn is_same_binding(left: BindingId, right: BindingId) -> bool
    ensures { result ≡ is_same_binding left right }
{
    what_number(left.what) == what_number(right.what)
        && left.at.library == right.at.library
        && left.at.row == right.at.row
}

impl Owner {
    /// The same owner, in memory of its own.
    pub fn copy(&self) -> Result<Owner, AllocError>
        ensures { IfOk result (λ copy. copy ≡ self.now) }
    {
        self.clone()
    }

    /// Whether it is this owner.
    pub fn is_same(&self, other: &Owner) -> bool
        ensures { result ≡ is_same_owner self.now other.now }
    {
        match (self, other) {
            (Owner::Outside(a), Owner::Outside(b)) => is_same_binding(*a, *b),
            (Owner::Own(m, a), Owner::Own(k, b)) => m == k && a.bytes() == b.bytes(),
            (Owner::Outside(_), Owner::Own(_, _)) => false,
            (Owner::Own(_, _), Owner::Outside(_)) => false,
        }
    }

    /// Whether it is this name of this module.
    pub fn is_own(&self, number: usize, name: &[u8]) -> bool
        ensures { result ≡ is_same_owner self.now (Own number name.now) }
    {
        match self {
            Owner::Outside(_) => false,
            Owner::Own(m, a) => *m == number && a.bytes() == name,
        }
    }
}
