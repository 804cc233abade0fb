//! Where methods, functions and init expressions begin, and the forms that run.

ghost use Rattle.std.specs.Prelude.{◌≡◌, ◌∷◌, ◌++◌, [], IfOk, OnOk};
ghost use Rattle.dy_meaning.specs.Layouts.{from};
ghost use Rattle.dy_lowered.specs.Bodies as flat;

use crate::bodies::next;
use crate::library::start_count;
use dy_base::Items;
use dy_code::TopCode;
use dy_lower_parts::Refusal;
use dy_term::{LibraryRow, TopTerm};
use std::alloc::Global;

/// The number of a body as it is written.
fn written(number: usize) -> Result<u32, Refusal>
    ensures { IfOk result (λ written. written ≡ number) }
{
    match u32::try_from(number) {
        Ok(written) => Ok(written),
        Err(_) => Err(Refusal::Memory),
    }
}

/// The bodies of methods, functions and init expressions, which stand first.
pub fn starts_of(alloc: Global, library: &LibraryRow) -> Result<Items<u32>, Refusal>
    ensures { IfOk result (λ starts. starts ≡ from 0 (flat.start_count library.now)) }
{
    let mut starts = Vec::new(alloc);
    for number in 0..start_count(library)? {
        starts.push(written(number)?)?;
    }
    Ok(Items::from_vec(starts))
}

/// A form that runs, by the number of its body.
fn top_code(alloc: Global, top: &TopTerm, number: usize) -> Result<TopCode, Refusal>
    ensures { IfOk result (λ code. code ≡ flat.top_code top.now number) }
{
    let body = written(number)?;
    match top {
        TopTerm::Init(names, _) => {
            let names = Items::from_vec(names.as_slice().to_vec(alloc)?);
            Ok(TopCode::Init(names, body))
        }
        TopTerm::Run(_) => Ok(TopCode::Run(body)),
    }
}

/// The forms that run, by the numbers of their bodies.
pub fn tops_of(alloc: Global, library: &LibraryRow) -> Result<Items<TopCode>, Refusal>
    ensures { IfOk result (λ tops. tops
        ≡ flat.tops_from library.now.tops (flat.start_count library.now)) }
{
    let mut tops = Vec::new(alloc);
    let mut number = start_count(library)?;
    for top in library.tops.as_slice() {
        tops.push(top_code(alloc, top, number)?)?;
        number = next(number)?;
    }
    Ok(Items::from_vec(tops))
}
