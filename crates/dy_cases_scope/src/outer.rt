//! What the forms find outside.

use dy_base::{BindingId, Items, Ref, Refusal, What};
use dy_names::{Environment, OwnerTable, Scope};
use dy_term::{DraftType, DyType};
use dy_tree::Token;
use std::alloc::{AllocError, Global};

/// Owners of names. Every type is one without members.
#[derive(Drop)]
pub(crate) struct Outer {
    pub(crate) owners: OwnerTable,
}

impl Environment for Outer {
    ghost use Rattle.std.specs.Prelude.{[], Ok};
    ghost use Rattle.dy_names.specs.Tables.{owner_in};

    ghost outside = { λ o. record {
      owner = owner_in o.owners;
      type = λ locals declared. Ok (record { members = [] });
    } };

    fn owner(&self, alloc: Global, name: &Token) -> Result<Option<BindingId>, AllocError> {
        self.owners.get(alloc, name)
    }

    fn type_of(
        &self,
        alloc: Global,
        _scope: &Scope,
        _draft: &DraftType,
    ) -> Result<DyType, Refusal> {
        Ok(DyType {
            members: Items::new(alloc),
        })
    }
}

/// The names that are defined, and what they are.
const DEFINED: [(&str, What); 9] = [
    ("v", What::Variable),
    ("c", What::Constant),
    ("f", What::Function),
    ("k", What::Class),
    ("<object>", What::Class),
    ("g", What::Generic),
    ("+", What::Generic),
    ("g-setter", What::Generic),
    ("m", What::Macro),
];

pub(crate) fn outside(alloc: Global) -> Result<Outer, AllocError> {
    let mut owners = OwnerTable::new(alloc);
    let at = Ref { library: 2, row: 0 };
    for &(name, what) in &DEFINED {
        owners.set(alloc, 0, name.as_bytes(), BindingId { what, at })?;
    }
    Ok(Outer { owners })
}
