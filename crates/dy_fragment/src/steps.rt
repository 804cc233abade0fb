//! What a token does to the stack of open groups.

ghost use Rattle.std.specs.Prelude.{◌≡◌, ◌+◌, ◌^◌, ◌<◌, ◌≤◌, [], ◌∷◌, length, Ok, Err, IfOk};
ghost use Rattle.dy_tree.specs.Fragments.{SeenFragment, one, group, pack, seen_fragment};
ghost use Rattle.dy_tree.specs.Fragments.{seen_fragments};
ghost use Rattle.dy_fragment.specs.Steps as spec;
ghost use Rattle.dy_fragment.specs.Steps.{Gives, fault_at, seen_open, seen_opens, seen_state};

use crate::closing::{Closed, Closing, close};
use crate::front::{Closer, Context, Front, front_at};
use dy_base::{Fault, Items, Kind, Place, Refusal, Text};
use dy_tree::{Fragment, Token, Words};
use std::alloc::Global;

/// How many groups may stand in one another.
pub(crate) const LIMIT: usize = 200;

/// A group that is open.
#[derive(Debug, Drop)]
pub struct Open {
    pub opener: Token,
    pub closing: Closing,
    /// What stands before it in the group around it.
    pub before: Vec<Fragment>,
}

/// What was read so far.
#[derive(Debug, Drop)]
pub struct State {
    /// How many tokens were read.
    pub at: usize,
    pub context: Context,
    /// The open groups, the innermost last.
    pub open_groups: Vec<Open>,
    /// What is in the innermost one.
    pub row: Vec<Fragment>,
    /// The first opener that is too deep. After it no tree is made.
    pub deep: Option<Place>,
}

pub(crate) fn fault(alloc: Global, kind: Kind, place: Place) -> Refusal
    ensures { result ≡ Refusal.Fault (fault_at kind place) }
{
    Refusal::Fault(Fault {
        kind,
        library: Text::from_vec(Vec::new(alloc)),
        place: Some(place),
        shown: Items::new(alloc),
        numbers: Items::new(alloc),
    })
}

/// The earlier one of an opener that is too deep and of what is wrong.
pub(crate) fn earlier(alloc: Global, deep: Option<Place>, place: Place) -> Refusal
    ensures { result ≡ Refusal.Fault (spec.earlier deep place) }
{
    match deep {
        None => fault(alloc, Kind::Unbalanced, place),
        Some(deep) => {
            if deep.offset < place.offset {
                fault(alloc, Kind::TooDeep, deep)
            } else {
                fault(alloc, Kind::Unbalanced, place)
            }
        }
    }
}

/// A token after the trees before it.
fn with_leaf(
    deep: Option<Place>,
    row: Vec<Fragment>,
    token: &Token,
) -> Result<Vec<Fragment>, Refusal>
    ensures { Gives (λ r. seen_fragments r.items) result
        (Ok (spec.with_tree deep (seen_fragments row.items) (one token.now))) }
{
    let mut row = row;
    match deep {
        None => {
            row.push(Fragment::One(token.copy()?))?;
            Ok(row)
        }
        Some(_) => Ok(row),
    }
}

/// A group after the trees before it.
fn with_group(
    deep: Option<Place>,
    before: Vec<Fragment>,
    opener: Token,
    inner: Vec<Fragment>,
    closer: &Token,
) -> Result<Vec<Fragment>, Refusal>
    ensures { Gives (λ r. seen_fragments r.items) result
        (Ok (spec.with_tree deep (seen_fragments before.items)
        (group opener (pack (seen_fragments inner.items)) closer.now))) }
{
    let mut before = before;
    match deep {
        None => {
            let closer = closer.copy()?;
            before.push(Fragment::group(opener, inner, closer))?;
            Ok(before)
        }
        Some(_) => Ok(before),
    }
}

fn deeper(deep: Option<Place>, depth: usize, place: Place) -> Option<Place>
    ensures { result ≡ spec.deeper 200 deep depth place }
{
    match deep {
        Some(first) => Some(first),
        None => { if depth < LIMIT { None } else { Some(place) } }
    }
}

fn leaf_step(state: State, token: &Token, context: Context) -> Result<State, Refusal>
    requires { state.at + 1 < 2 ^ 64 }
    ensures value { Gives seen_state result (spec.leaf_step (seen_state state) token.now context) }
    ensures ahead { IfOk result (λ next. next.at ≡ state.at + 1) }
{
    let State {
        at,
        context: _,
        open_groups,
        row,
        deep,
    } = state;
    let row = with_leaf(deep, row, token)?;
    Ok(State {
        at: at + 1,
        context,
        open_groups,
        row,
        deep,
    })
}

#[tactic(auto, using(crate::proofs::Stack::opens_pushed))]
fn with_open(open_groups: Vec<Open>, innermost: Open) -> Result<Vec<Open>, Refusal>
    ensures { Gives (λ os. seen_opens os.items) result
        (Ok (seen_open innermost ∷ seen_opens open_groups.items)) }
{
    let mut open_groups = open_groups;
    open_groups.push(innermost)?;
    Ok(open_groups)
}

#[tactic(auto, using(crate::proofs::Stack::length_opens))]
fn open_step(
    alloc: Global,
    state: State,
    token: &Token,
    closing: Closing,
    context: Context,
) -> Result<State, Refusal>
    requires { state.at + 1 < 2 ^ 64 }
    ensures value { Gives seen_state result
        (spec.open_step 200 (seen_state state) token.now closing context) }
    ensures ahead { IfOk result (λ next. next.at ≡ state.at + 1) }
{
    let State {
        at,
        context: _,
        open_groups,
        row,
        deep,
    } = state;
    let deep = deeper(deep, open_groups.len(), token.place);
    let innermost = Open {
        opener: token.copy()?,
        closing,
        before: row,
    };
    let open_groups = with_open(open_groups, innermost)?;
    Ok(State {
        at: at + 1,
        context,
        open_groups,
        row: Vec::new(alloc),
        deep,
    })
}

/// The groups around one that is closed, and what is in the innermost.
fn closed_step(
    alloc: Global,
    deep: Option<Place>,
    row: Vec<Fragment>,
    token: &Token,
    innermost: Open,
    open_groups: Vec<Open>,
    closed: Closed,
) -> Result<State, Refusal>
    ensures value { Gives seen_state result
        (spec.closed_step deep (seen_fragments row.items) token.now (seen_open innermost)
        (seen_opens open_groups.items) closed) }
    ensures place { IfOk result (λ next. spec.IsAt next.at closed) }
{
    match closed {
        Closed::Wrong(place) => Err(earlier(alloc, deep, place)),
        Closed::At(at, context) => {
            let Open {
                opener,
                closing: _,
                before,
            } = innermost;
            let row = with_group(deep, before, opener, row, token)?;
            Ok(State {
                at,
                context,
                open_groups,
                row,
                deep,
            })
        }
    }
}

#[tactic(auto, using(crate::proofs::Stack::opens_popped, crate::proofs::Stack::opens_empty))]
fn close_step(
    alloc: Global,
    words: &Words,
    tokens: &[Token],
    state: State,
    token: &Token,
    closer: Closer,
) -> Result<State, Refusal>
    requires { state.at < length tokens.now }
    ensures value { Gives seen_state result
        (spec.close_step words.now tokens.now (seen_state state) token.now closer
        (seen_opens state.open_groups.items)) }
    ensures ahead { IfOk result (λ next. (state.at < next.at) × (next.at ≤ length tokens.now)) }
{
    let State {
        at,
        context,
        open_groups,
        row,
        deep,
    } = state;
    let mut open_groups = open_groups;
    match open_groups.pop() {
        None => Err(earlier(alloc, deep, token.place)),
        Some(innermost) => {
            let closed = close(
                words,
                tokens,
                innermost.closing,
                closer,
                token,
                at + 1,
                context,
            );
            closed_step(alloc, deep, row, token, innermost, open_groups, closed)
        }
    }
}

/// What a token does to what was read before it.
pub(crate) fn step(
    alloc: Global,
    words: &Words,
    tokens: &[Token],
    state: State,
    token: &Token,
) -> Result<State, Refusal>
    requires { state.at < length tokens.now }
    ensures value { Gives seen_state result
        (spec.step 200 words.now tokens.now (seen_state state) token.now) }
    ensures ahead { IfOk result (λ next. (state.at < next.at) × (next.at ≤ length tokens.now)) }
{
    match front_at(words, tokens, token, state.at, state.context) {
        Front::Leaf(context) => leaf_step(state, token, context),
        Front::Opens(closing, context) => open_step(alloc, state, token, closing, context),
        Front::Closes(closer) => close_step(alloc, words, tokens, state, token, closer),
        Front::Wrong => Err(earlier(alloc, state.deep, token.place)),
    }
}

/// At the end of the tokens no group may be open.
#[tactic(auto, using(crate::proofs::Stack::opens_popped, crate::proofs::Stack::opens_empty))]
pub(crate) fn finish(alloc: Global, state: State) -> Result<Vec<Fragment>, Refusal>
    ensures { Gives (λ r. seen_fragments r.items) result (spec.finish (seen_state state)) }
{
    let State {
        at: _,
        context: _,
        open_groups,
        row,
        deep,
    } = state;
    let mut open_groups = open_groups;
    match open_groups.pop() {
        Some(innermost) => Err(earlier(alloc, deep, innermost.opener.place)),
        None => match deep {
            None => Ok(row),
            Some(place) => Err(fault(alloc, Kind::TooDeep, place)),
        },
    }
}
