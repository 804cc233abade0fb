//! What names mean outside of bodies.

ghost use Rattle.std.specs.Prelude.{◌≡◌, ◌&&◌, nat_eq, IfOk, OnOk, cond, Some, None};
ghost use Rattle.std.specs.Str.{bytes_eq};
ghost use Rattle.dy_tree.specs.declared.token.Token.{Token};
ghost use Rattle.dy_names.specs.Tables.{owner_in};

use dy_base::BindingId;
use dy_tree::Token;
use std::alloc::{AllocError, Global};
use std::collections::BTreeMap;

/// A table of owners by module and text.
#[derive(Drop)]
pub struct OwnerTable {
    pub entries: BTreeMap<(u32, Vec<u8>), BindingId>,
}

impl OwnerTable {
    /// The table that has no name. It takes no memory.
    pub fn new(alloc: Global) -> OwnerTable
        ensures { (name : Token) → owner_in result name ≡ None }
    {
        OwnerTable {
            entries: BTreeMap::new(alloc),
        }
    }

    /// The owner of a name in the module of its token, or `None` where it has none. The one error
    /// is want of memory.
    pub fn get(&self, alloc: Global, name: &Token) -> Result<Option<BindingId>, AllocError>
        ensures { IfOk result (λ found. found ≡ owner_in self.now name.now) }
    {
        let key = (name.module, name.text.bytes().to_vec(alloc)?);
        Ok(self.entries.get(&key).copied())
    }

    /// Gives a name of a module an owner, in place of the one that it had. The one error is want of
    /// memory.
    pub fn set(
        &mut self,
        alloc: Global,
        module: u32,
        text: &[u8],
        owner: BindingId,
    ) -> Result<(), AllocError>
        ensures { OnOk result ((name : Token) → owner_in self.new name
            ≡ cond (nat_eq «module» name.module && bytes_eq text.now name.text) (Some owner)
            (owner_in self.old name)) }
    {
        let key = (module, text.to_vec(alloc)?);
        self.entries.insert(key, owner)?;
        Ok(())
    }
}
