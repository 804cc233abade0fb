//! Terms and clauses, made of their parts.

ghost use Rattle.std.specs.Prelude.{◌≡◌, None, IfOk};
ghost use Rattle.dy_term.specs.declared.term.Term.{For, Block};
ghost use Rattle.dy_term.specs.declared.term.ForClause.{Then, In, From};
ghost use Rattle.dy_term.specs.declared.term.ForRow.{roll-ForRow};
ghost use Rattle.dy_term.specs.declared.term.BlockRow.{roll-BlockRow};
ghost use Rattle.dy_binding.specs.Reads.{told_some};
ghost use Rattle.dy_scope.specs.Parts.{call_of};

use dy_base::{Boxed, GenericId, Items};
use dy_binding::{Apart, Progress, tell_some};
use dy_term::{BlockRow, DyType, ForClause, ForRow, Term};
use std::alloc::{AllocError, Global};

/// The clauses of a `for`, its test and its body.
pub type Turns = (Items<ForClause>, Option<(bool, Term)>, Term);

/// The body of a `block`, what runs after it, what runs on every end, and the clauses.
pub type Bodies = (
    Term,
    Option<Term>,
    Option<Term>,
    Items<(Option<u32>, DyType, Term)>,
);

/// What a call calls.
#[derive(Drop)]
pub enum Called {
    /// A generic function by its name.
    Generic(GenericId),
    NextMethod,
    /// What this term gives.
    Value(Term),
}

/// A call.
pub fn call_of(alloc: Global, called: Called, arguments: Items<Term>) -> Result<Term, AllocError>
    ensures { IfOk result (λ found. found ≡ call_of called arguments) }
{
    match called {
        Called::Generic(generic) => Ok(Term::Site(generic, arguments)),
        Called::NextMethod => Ok(Term::Next(Some(arguments))),
        Called::Value(function) => Ok(Term::Call(Boxed::new(alloc, function)?, arguments)),
    }
}

/// Notes the fault of the first expressions of a clause, and leaves the rest.
pub fn tell_apart(read: Apart, progress: &mut Progress) -> Apart
    ensures read { result ≡ record read { fault = None } }
    ensures after { progress.new ≡ told_some read.fault progress.old }
{
    let Apart {
        declared,
        first,
        limit,
        step,
        fault,
    } = read;
    tell_some(progress, fault);
    Apart {
        declared,
        first,
        limit,
        step,
        fault: None,
    }
}

/// A clause with a first value and a next one.
pub fn then_clause(number: u32, read: Apart, next: Term) -> ForClause
    ensures { result ≡ Then number read.declared read.first next }
{
    let Apart {
        declared,
        first,
        limit: _,
        step: _,
        fault: _,
    } = read;
    ForClause::Then(number, declared, first, next)
}

/// A clause that walks a collection.
pub fn in_clause(number: u32, read: Apart) -> ForClause
    ensures { result ≡ In number read.declared read.first }
{
    let Apart {
        declared,
        first,
        limit: _,
        step: _,
        fault: _,
    } = read;
    ForClause::In(number, declared, first)
}

/// A clause that counts.
pub fn from_clause(number: u32, read: Apart) -> ForClause
    ensures { result ≡ From number read.declared read.first read.limit read.step }
{
    let Apart {
        declared,
        first,
        limit,
        step,
        fault: _,
    } = read;
    ForClause::From(number, declared, first, limit, step)
}

/// A `for`.
pub fn for_of(alloc: Global, turns: Turns, finally: Option<Term>) -> Result<Term, AllocError>
    ensures { IfOk result (λ found. found ≡ For (roll-ForRow (record
        { clauses = turns.0; test = turns.1; body = turns.2; finally = finally }))) }
{
    let (clauses, test, body) = turns;
    let row = ForRow {
        clauses,
        test,
        body,
        finally,
    };
    Ok(Term::For(Boxed::new(alloc, row)?))
}

/// A `block`.
pub fn block_of(alloc: Global, exit: Option<u32>, bodies: Bodies) -> Result<Term, AllocError>
    ensures { IfOk result (λ found. found ≡ Block (roll-BlockRow (record {
      exit = exit;
      body = bodies.0;
      afterwards = bodies.1;
      cleanup = bodies.2;
      clauses = bodies.3;
    }))) }
{
    let (body, afterwards, cleanup, clauses) = bodies;
    let row = BlockRow {
        exit,
        body,
        afterwards,
        cleanup,
        clauses,
    };
    Ok(Term::Block(Boxed::new(alloc, row)?))
}
