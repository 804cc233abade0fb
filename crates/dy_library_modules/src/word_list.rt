//! The words that the library `dylan` knows.

ghost use Rattle.std.specs.Prelude.{◌≡◌, [], ◌∷◌, ◌++◌, IfOk, OnOk};
ghost use Rattle.dy_base.specs.Folding.{folded};
ghost use Rattle.dy_library_modules.specs.Words as spec;

use dy_base::{Items, fold};
use dy_tree::{MacroKind, Word, Words};
use std::alloc::{AllocError, Global};

/// Adds the built-in word that these bytes spell.
fn add(
    alloc: Global,
    words: &mut Items<Word>,
    kind: MacroKind,
    name: &[u8],
) -> Result<(), AllocError>
    ensures { OnOk result (words.new ≡ words.old ++ spec.word kind (folded name.now) ∷ []) }
{
    let name = fold(alloc, name)?;
    words.push(Word {
        module: 0,
        name,
        kind,
        at: None,
    })?;
    Ok(())
}

/// Adds the words that begin statements.
fn add_statements(alloc: Global, words: &mut Items<Word>) -> Result<(), AllocError>
    ensures { OnOk result (words.new ≡ words.old ++ spec.statements) }
{
    add(alloc, words, MacroKind::Statement, b"begin")?;
    add(alloc, words, MacroKind::Statement, b"block")?;
    add(alloc, words, MacroKind::Statement, b"case")?;
    add(alloc, words, MacroKind::Statement, b"for")?;
    add(alloc, words, MacroKind::Statement, b"if")?;
    add(alloc, words, MacroKind::Statement, b"method")?;
    add(alloc, words, MacroKind::Statement, b"select")?;
    add(alloc, words, MacroKind::Statement, b"unless")?;
    add(alloc, words, MacroKind::Statement, b"until")?;
    add(alloc, words, MacroKind::Statement, b"while")
}

/// Adds the words that say what is defined.
fn add_definitions(alloc: Global, words: &mut Items<Word>) -> Result<(), AllocError>
    ensures { OnOk result (words.new ≡ words.old ++ spec.definitions) }
{
    add(alloc, words, MacroKind::Definition, b"class")?;
    add(alloc, words, MacroKind::Definition, b"constant")?;
    add(alloc, words, MacroKind::Definition, b"domain")?;
    add(alloc, words, MacroKind::Definition, b"function")?;
    add(alloc, words, MacroKind::Definition, b"generic")?;
    add(alloc, words, MacroKind::Definition, b"library")?;
    add(alloc, words, MacroKind::Definition, b"macro")?;
    add(alloc, words, MacroKind::Definition, b"method")?;
    add(alloc, words, MacroKind::Definition, b"module")?;
    add(alloc, words, MacroKind::Definition, b"variable")
}

/// All words that are known.
pub fn words(alloc: Global) -> Result<Words, AllocError>
    ensures { IfOk result (λ words. words ≡ spec.words) }
{
    let mut items = Items::new(alloc);
    add_statements(alloc, &mut items)?;
    add_definitions(alloc, &mut items)?;
    Ok(Words { items })
}
