//! Source files as tokens.

ghost use Rattle.std.specs.Prelude.{◌<◌, ◌^◌, length};

use crate::failure::Failure;
use dy_lexer::lex;
use std::alloc::Global;

/// How many tokens a source file has.
pub(crate) fn count(alloc: Global, bytes: &[u8]) -> Result<usize, Failure>
    requires { length bytes.now < 2 ^ 32 }
{
    Ok(lex(alloc, 0, bytes)?.tokens.len())
}
