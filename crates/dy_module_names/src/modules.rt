//! What modules say of the names of tokens.

ghost use Rattle.std.specs.Prelude.{◌≡◌, IfOk};
ghost use Rattle.dy_base.specs.Folding.{folded};
ghost use Rattle.dy_module_names.specs.Given.{modules_in};

use dy_base::fold;
use dy_module_tables::OpenTable;
use dy_modules::Owner;
use dy_tree::Token;
use std::alloc::{AllocError, Global};

/// Who owns what a name means in the module of its token. The one error is want of memory.
pub fn owner_of(
    alloc: Global,
    modules: &OpenTable,
    name: &Token,
) -> Result<Option<Owner>, AllocError>
    ensures { IfOk result (λ owner. owner
        ≡ (modules_in modules.now).owner name.now.«module» (folded name.now.text)) }
{
    let folded = fold(alloc, name.text.bytes())?;
    modules.owner(alloc, name.module, &folded)
}

/// Whether a definition of a name may stand in the module of its token. The one error is want of
/// memory.
pub fn is_open(alloc: Global, modules: &OpenTable, name: &Token) -> Result<bool, AllocError>
    ensures { IfOk result (λ stands. stands
        ≡ (modules_in modules.now).is_open name.now.«module» (folded name.now.text)) }
{
    let folded = fold(alloc, name.text.bytes())?;
    modules.is_open(alloc, name.module, &folded)
}
