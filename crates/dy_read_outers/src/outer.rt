//! What an operand will be a part of.

ghost use Rattle.std.specs.Prelude.{◌≡◌, ◌<◌, IfOk, OnOk, OnSome};
ghost use Rattle.dy_rules.specs.Operators as operators;
ghost use Rattle.dy_rules.specs.Reading as reading;
ghost use Rattle.dy_rules_depth.specs.Capping.{capped, capping};
ghost use Rattle.dy_rules_depth.specs.ReaderChanges.{changed_part};
ghost use Rattle.dy_read_outers.specs.Grown.{read_grown};
ghost use Rattle.dy_read_outers.specs.Outers as spec;

use crate::grown::Grown;
use crate::nodes::{assignment, literal, operation, unary};
use dy_read_parts::literal::{negative, positive};
use dy_read_words::role::role_of;
use dy_tree::{LiteralForm, Precedence, Role, Token};
use std::alloc::{AllocError, Global};

/// What stands in front of an operand, and takes it in.
#[derive(Drop)]
pub enum Entry {
    /// An operator, and what stands in front of it.
    Operated {
        precedence: Precedence,
        left: Grown,
        sign: Token,
    },
    /// `-` or `~`
    Under {
        sign: Token,
    },
    /// What is assigned to, and its sign.
    Assigned {
        place: Grown,
        sign: Token,
    },
}

/// What an operand will be a part of, the innermost last.
#[derive(Drop)]
pub struct Outer {
    pub entries: Vec<Entry>,
}

/// How many levels bind tighter.
pub fn below(precedence: Precedence) -> usize
    ensures { result ≡ operators.below precedence }
{
    match precedence {
        Precedence::Power => 0,
        Precedence::Product => 1,
        Precedence::Sum => 2,
        Precedence::Comparison => 3,
        Precedence::Logical => 4,
    }
}

fn is_tighter(height: usize, entry: &Entry) -> bool
    ensures { result ≡ spec.is_tighter height entry.now }
{
    match entry {
        Entry::Operated { precedence, .. } => below(*precedence) < height,
        Entry::Under { .. } => true,
        Entry::Assigned { .. } => false,
    }
}

fn is_under_minus(entry: &Entry) -> bool
    ensures { result ≡ spec.is_under_minus entry.now }
{
    match entry {
        Entry::Under { sign } => matches!(role_of(sign), Role::Minus),
        Entry::Operated { .. } | Entry::Assigned { .. } => false,
    }
}

/// The sign that an entry is.
fn sign_in(entry: Option<Entry>) -> Option<Token>
    ensures { result ≡ spec.minus_in entry }
{
    match entry {
        Some(Entry::Under { sign }) => Some(sign),
        _ => None,
    }
}

impl Outer {
    /// The outside of a whole expression.
    pub fn new(alloc: Global) -> Outer
        ensures { spec.seen_outer result ≡ reading.whole }
    {
        Outer {
            entries: Vec::new(alloc),
        }
    }

    /// Puts an entry inside of all others.
    pub fn push(&mut self, entry: Entry) -> Result<(), AllocError>
        ensures { OnOk result (spec.seen_outer self.new
            ≡ spec.wrapped entry (spec.seen_outer self.old)) }
    {
        self.entries.push(entry)?;
        Ok(())
    }

    /// The innermost entry.
    fn pop(&mut self) -> Option<Entry>
        ensures entry { spec.Pops (spec.seen_outer self.old) result (spec.seen_outer self.new) }
        ensures shorter { OnSome result (spec.left self.new < spec.left self.old) }
    {
        self.entries.pop()
    }

    fn ends_tighter(&self, height: usize) -> bool
        ensures { result ≡ spec.holds_last (spec.is_tighter height) self.now.entries.items }
    {
        match self.entries.last() {
            Some(entry) => is_tighter(height, entry),
            None => false,
        }
    }

    fn ends_with_minus(&self) -> bool
        ensures { result ≡ spec.holds_last spec.is_under_minus self.now.entries.items }
    {
        match self.entries.last() {
            Some(entry) => is_under_minus(entry),
            None => false,
        }
    }

    /// The innermost entry, if it is whole before an operation of so many levels.
    fn pop_tighter(&mut self, height: usize) -> Option<Entry>
        ensures entry { spec.PopsTighter height (spec.seen_outer self.old) result
            (spec.seen_outer self.new) }
        ensures shorter { OnSome result (spec.left self.new < spec.left self.old) }
    {
        if self.ends_tighter(height) {
            self.entries.pop()
        } else {
            None
        }
    }

    /// The minus that an integer takes in.
    fn pop_minus(&mut self) -> Option<Token>
        ensures { spec.PopsMinus (spec.seen_outer self.old) result (spec.seen_outer self.new) }
    {
        if self.ends_with_minus() {
            sign_in(self.entries.pop())
        } else {
            None
        }
    }
}

/// The tree that an entry makes of what stands inside of it.
fn close(alloc: Global, entry: Entry, inner: Grown) -> Result<Grown, AllocError>
    ensures { IfOk result (λ grown. read_grown grown
        ≡ capped (spec.closed entry (read_grown inner))) }
{
    match entry {
        Entry::Operated {
            precedence,
            left,
            sign,
        } => operation(alloc, precedence, left, sign, inner),
        Entry::Under { sign } => unary(alloc, sign, inner),
        Entry::Assigned { place, sign } => assignment(alloc, place, &sign, inner),
    }
}

/// Puts together what is whole before an operation of so many levels.
pub fn reduce(
    alloc: Global,
    height: usize,
    tree: Grown,
    outer: &mut Outer,
) -> Result<Grown, AllocError>
    ensures { IfOk result (λ grown. (read_grown grown, spec.seen_outer outer.new)
        ≡ changed_part capping (reading.reduced height (read_grown tree)
        (spec.seen_outer outer.old))) }
{
    let mut grown = tree;
    while let Some(entry) = outer.pop_tighter(height) {
        grown = close(alloc, entry, grown)?;
    }
    Ok(grown)
}

/// Puts together the whole expression.
pub fn finish(alloc: Global, tree: Grown, outer: Outer) -> Result<Grown, AllocError>
    ensures { IfOk result (λ grown. read_grown grown
        ≡ capped (reading.finished (read_grown tree) (spec.seen_outer outer))) }
{
    let mut outer = outer;
    let mut grown = tree;
    while let Some(entry) = outer.pop() {
        grown = close(alloc, entry, grown)?;
    }
    Ok(grown)
}

fn signed(sign: Option<Token>, digits: &Token) -> Result<LiteralForm, AllocError>
    ensures { IfOk result (λ form. form ≡ spec.signed sign digits.now) }
{
    match sign {
        Some(sign) => negative(&sign, digits),
        None => positive(digits),
    }
}

/// An integer, with the minus in front of it if there is one.
pub fn integer_part(alloc: Global, digits: &Token, outer: &mut Outer) -> Result<Grown, AllocError>
    ensures { IfOk result (λ grown. (read_grown grown, spec.seen_outer outer.new)
        ≡ reading.integer_part digits.now (spec.seen_outer outer.old)) }
{
    let sign = outer.pop_minus();
    literal(alloc, signed(sign, digits)?)
}
