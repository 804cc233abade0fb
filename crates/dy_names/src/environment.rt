//! What a program gives its bodies from outside.

ghost use Rattle.std.specs.Prelude.{◌≡◌, IfOk};
ghost use Rattle.dy_term.specs.Types.{seen_type};
ghost use Rattle.dy_names.specs.Outside.{Outside, IsRead};

use crate::scope::Scope;
use dy_base::{BindingId, Refusal};
use dy_term::{DraftType, DyType};
use dy_tree::Token;
use std::alloc::{AllocError, Global};

/// What names and types mean outside of bodies.
pub trait Environment {
    ghost use Rattle.dy_names.specs.Outside.{Outside};

    /// The owner of each name, and what each type stands for.
    ghost outside: { Self → Outside };

    /// The owner of a name in the module of its token, or `None` where it has none. The one error
    /// is want of memory.
    fn owner(&self, alloc: Global, name: &Token) -> Result<Option<BindingId>, AllocError>
        ensures { IfOk result (λ found. found ≡ (outside self.now).owner name.now) };

    /// What a type stands for where these locals are in force. A fault is what is wrong with the
    /// type.
    fn type_of(&self, alloc: Global, scope: &Scope, draft: &DraftType) -> Result<DyType, Refusal>
        ensures { IsRead ((outside self.now).type scope.now (seen_type draft.now)) result };
}
