//! How far a translation has come.

ghost use Rattle.std.specs.Prelude.{◌≡◌, ◌+◌, ◌<◌, ◌^◌, [], ◌∷◌, IfOk, OnOk};
ghost use Rattle.dy_binding.specs.Faults.{is_earlier, comes_before, first_of_two, fault_at};
ghost use Rattle.dy_binding.specs.Reads.{numbered, told, told_some};

use dy_base::{Fault, Items, Kind, Place, Text};
use dy_term::{DyType, Limit, Term};
use dy_tree::Token;
use std::alloc::{AllocError, Global};
use std::mem;

/// How far a translation has come.
#[derive(Debug, Drop)]
pub struct Progress {
    /// The number of the next local.
    pub next: u32,
    /// The first fault so far: the one at the earliest place, then of the smaller kind, then in
    /// front.
    pub first: Option<Fault>,
}

/// The type and the first expressions of a clause of a `for`, and the first of their faults.
#[derive(Drop)]
pub struct Apart {
    pub declared: DyType,
    /// The first value, the collection or the first number.
    pub first: Term,
    /// Where the numbers end.
    pub limit: Option<(Limit, Term)>,
    pub step: Option<Term>,
    pub fault: Option<Fault>,
}

/// Gives numbers to so many locals, and says the first. The one error is want of memory: the
/// numbers are used up where 2^32 locals are there.
pub fn take_numbers(progress: &mut Progress, count: usize) -> Result<u32, AllocError>
    ensures first { IfOk result (λ first. first ≡ progress.old.next) }
    ensures after { OnOk result (progress.new ≡ numbered count progress.old) }
    ensures room { IfOk result (λ first. first + count < 2 ^ 32) }
{
    let first = progress.next;
    if count < (u32::MAX - first) as usize {
        progress.next = first + count as u32;
        Ok(first)
    } else {
        Err(AllocError)
    }
}

fn is_earlier(a: Option<Place>, b: Option<Place>) -> bool
    ensures { result ≡ is_earlier a b }
{
    match (a, b) {
        (None, None) => false,
        (None, Some(_)) => true,
        (Some(_), None) => false,
        (Some(a), Some(b)) => a.file < b.file || (a.file == b.file && a.offset < b.offset),
    }
}

fn comes_before(a: &Fault, b: &Fault) -> bool
    ensures { result ≡ comes_before a.now b.now }
{
    if is_earlier(a.place, b.place) {
        true
    } else if is_earlier(b.place, a.place) {
        false
    } else {
        a.kind.code() < b.kind.code()
    }
}

fn first_of_two(first: Option<Fault>, fault: Fault) -> Fault
    ensures { result ≡ first_of_two first fault }
{
    match first {
        None => fault,
        Some(first) => {
            if comes_before(&fault, &first) {
                fault
            } else {
                first
            }
        }
    }
}

/// Notes a fault behind those so far. No memory is taken.
pub fn tell(progress: &mut Progress, fault: Fault)
    ensures { progress.new ≡ told fault progress.old }
{
    let first = mem::replace(&mut progress.first, None);
    progress.first = Some(first_of_two(first, fault));
}

/// Notes a fault, where there is one, behind those so far. No memory is taken.
pub fn tell_some(progress: &mut Progress, fault: Option<Fault>)
    ensures { progress.new ≡ told_some fault progress.old }
{
    match fault {
        None => {}
        Some(fault) => tell(progress, fault),
    }
}

/// A fault at a token, which shows these texts.
pub fn fault_at(
    alloc: Global,
    kind: Kind,
    token: &Token,
    shown: Items<Text>,
) -> Result<Fault, AllocError>
    ensures { IfOk result (λ fault. fault ≡ fault_at kind token.now shown) }
{
    Ok(Fault {
        kind,
        library: Text::of(alloc, b"")?,
        place: Some(token.place),
        shown,
        numbers: Items::new(alloc),
    })
}

/// Notes a fault at a name, which it shows.
pub fn tell_name(
    alloc: Global,
    progress: &mut Progress,
    kind: Kind,
    name: &Token,
) -> Result<(), AllocError>
    ensures { OnOk result (progress.new
        ≡ told (fault_at kind name.now (name.now.text ∷ [])) progress.old) }
{
    let mut shown = Items::new(alloc);
    shown.push(Text::of(alloc, name.text.bytes())?)?;
    let fault = fault_at(alloc, kind, name, shown)?;
    tell(progress, fault);
    Ok(())
}

/// Notes a fault at a token, which shows nothing.
pub fn tell_place(
    alloc: Global,
    progress: &mut Progress,
    kind: Kind,
    token: &Token,
) -> Result<(), AllocError>
    ensures { OnOk result (progress.new ≡ told (fault_at kind token.now []) progress.old) }
{
    let fault = fault_at(alloc, kind, token, Items::new(alloc))?;
    tell(progress, fault);
    Ok(())
}
