//! The complete forms of tokens.

ghost use Rattle.std.specs.Prelude.{◌≡◌, IfOk};
ghost use Rattle.dy_complete_forms.specs.Forms as spec;
ghost use Rattle.dy_complete_forms.specs.Forms.{AnswersFront, AnswersComplete};

use crate::ends::{end_before, last_end};
use dy_base::{Items, Refusal};
use dy_fragment::group;
use dy_tree::{Fragment, Token, Words};
use std::alloc::{AllocError, Global};

/// What tokens are that end where a form may end.
#[derive(Debug, Drop)]
pub(crate) enum Front {
    /// Complete forms, of these groups.
    Forms(Items<Fragment>),
    /// Not complete forms alone. Those that stand in front end here, or earlier.
    Faulty(usize),
}

/// Tokens in memory of their own.
fn copy_all(alloc: Global, tokens: &[Token]) -> Result<Vec<Token>, AllocError>
    ensures { IfOk result (λ copies. copies.items ≡ tokens.now) }
{
    let mut copies = Vec::new(alloc);
    for token in tokens {
        copies.push(token.copy()?)?;
    }
    Ok(copies)
}

fn front_of(alloc: Global, tokens: &[Token], words: &Words) -> Result<Front, Refusal>
    ensures { AnswersFront words.now tokens.now result }
{
    let copies = Items::from_vec(copy_all(alloc, tokens)?);
    match group(alloc, &copies, words) {
        Ok(forms) => Ok(Front::Forms(forms)),
        Err(Refusal::Fault(fault)) => Ok(Front::Faulty(end_before(tokens, fault.place))),
        Err(Refusal::Memory) => Err(Refusal::Memory),
    }
}

/// The groups of the forms that are complete among these tokens. Behind them no form is: either a
/// fault of the groups stands there, or no semicolon (own).
///
/// Tokens that have a fault are grouped again up to a semicolon in front of it. So they are grouped
/// once, once for the semicolon that is the last, and once for each group that is open at the fault
/// and has a semicolon inside.
pub fn complete_forms(
    alloc: Global,
    tokens: &Items<Token>,
    words: &Words,
) -> Result<Items<Fragment>, Refusal>
    ensures { AnswersComplete words.now tokens.now result }
{
    let tokens = tokens.as_slice();
    let mut end = last_end(tokens, tokens.len());
    loop {
        match front_of(alloc, &tokens[..end], words)? {
            Front::Forms(forms) => return Ok(forms),
            Front::Faulty(earlier) => end = earlier,
        }
    }
}
