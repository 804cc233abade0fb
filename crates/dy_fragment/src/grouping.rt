//! Groups of whole files.

ghost use Rattle.std.specs.Prelude.{◌≡◌, ◌≤◌, length, List};
ghost use Rattle.dy_base.specs.declared.fault.Fault.{Fault};
ghost use Rattle.dy_tree.specs.Fragments.{SeenFragment, seen_fragments};
ghost use Rattle.dy_fragment.specs.Answers.{IsGrouping, GivesTrees, Refuses};
ghost use Rattle.dy_fragment.specs.Faults.{Refused};
ghost use Rattle.dy_fragment.specs.Groups.{Grouped, depth};
ghost use Rattle.dy_fragment.specs.Steps as spec;
ghost use Rattle.dy_fragment.specs.Steps.{Gives, seen_state, group_of};

use crate::front::{Context, Local, Mode};
use crate::steps::{State, finish, step};
use dy_base::{Items, Refusal};
use dy_tree::{Fragment, Token, Words};
use std::alloc::Global;

fn at_start(alloc: Global) -> State
    ensures { seen_state result ≡ spec.at_start }
{
    State {
        at: 0,
        context: Context {
            mode: Mode::Words,
            local: Local::Off,
        },
        open_groups: Vec::new(alloc),
        row: Vec::new(alloc),
        deep: None,
    }
}

fn fragments(alloc: Global, tokens: &[Token], words: &Words) -> Result<Vec<Fragment>, Refusal>
    ensures { Gives (λ r. seen_fragments r.items) result (group_of words.now tokens.now) }
{
    let mut state = at_start(alloc);
    while state.at < tokens.len() {
        let token = &tokens[state.at];
        state = step(alloc, words, tokens, state, token)?;
    }
    finish(alloc, state)
}

fn grouped(alloc: Global, tokens: &Items<Token>, words: &Words) -> Result<Items<Fragment>, Refusal>
    ensures { Gives seen_fragments result (group_of words.now tokens.now) }
{
    let row = fragments(alloc, tokens.as_slice(), words)?;
    Ok(Items::from_vec(row))
}

/// The tokens, grouped by brackets and by the words that are known (DRM 2, "Special tokens"; 4, the
/// statements; 9, "Definitions"). Each token is read once.
///
/// A refusal has the earliest fault: `Unbalanced` at a closer that fits no opener, at an opener
/// that is left open, at a `define` without a definition word and at a foreign word after an `end`,
/// or `TooDeep` at the first opener with more than 199 groups around it. Or it says that memory did
/// not suffice.
pub fn group(
    alloc: Global,
    tokens: &Items<Token>,
    words: &Words,
) -> Result<Items<Fragment>, Refusal>
    // What is given are the trees of the tokens, and a fault is the first one.
    ensures grouping { IsGrouping words.now tokens.now result }
    // Trees of the tokens that are not too deep are given.
    ensures trees { (trees : List SeenFragment) → Grouped words.now tokens.now trees
        → depth trees ≤ 200 → GivesTrees result trees }
    // What has a first fault is refused with it.
    ensures fault { (fault : Fault) → Refused 200 words.now tokens.now fault
        → Refuses result fault }
{
    grouped(alloc, tokens, words)
}
