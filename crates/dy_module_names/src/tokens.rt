//! The tokens of a module.

ghost use Rattle.std.specs.Prelude.{◌≡◌, map, IfOk};
ghost use Rattle.dy_module_names.specs.Tokens as specs;

use dy_base::Items;
use dy_tree::Token;
use std::alloc::{AllocError, Global};

/// These tokens as those of a module, by its number. The one error is want of memory.
pub fn in_module(
    alloc: Global,
    number: u32,
    tokens: Items<Token>,
) -> Result<Items<Token>, AllocError>
    ensures { IfOk result (λ list. list ≡ map (specs.in_module number) tokens) }
{
    let mut list = Items::new(alloc);
    for token in tokens.into_vec() {
        let mut token = token;
        token.module = number;
        list.push(token)?;
    }
    Ok(list)
}
