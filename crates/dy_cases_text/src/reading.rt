//! Texts as fragments.

ghost use Rattle.std.specs.Prelude.{◌<◌, ◌^◌, length};

use crate::words::words;
use dy_base::{Items, Refusal};
use dy_fragment::group;
use dy_lexer::lex;
use dy_tree::Fragment;
use std::alloc::Global;

/// The fragments of a source file of the module `m` in which this text stands behind the header: its tokens in
/// groups, by the words of the library `dylan` (DRM 2, "Lexical syntax"; 9, "Definitions").
///
/// A refusal has the first fault of the tokens, else that of the groups. Its offset counts the 11 bytes of the
/// header too. Or it says that memory did not suffice.
pub fn fragments_of(alloc: Global, text: &str) -> Result<Items<Fragment>, Refusal>
    requires { length text.now < 2 ^ 31 }
{
    let mut file = Vec::from_slice(alloc, b"module: m\n\n")?;
    file.extend_from_slice(text.as_bytes())?;
    let source = lex(alloc, 0, &file)?;
    group(alloc, &source.tokens, &words(alloc)?)
}
