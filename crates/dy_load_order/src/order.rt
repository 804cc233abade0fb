//! The libraries of a program, each behind all that it uses.

ghost use Rattle.std.specs.Prelude.{◌≡◌, ◌<◌, ◌≤◌, ◌+◌, ◌^◌, [], ◌∷◌, ◌++◌, length, map, reverse};
ghost use Rattle.std.specs.Prelude.{slice_index_or, IfOk, OnOk};
ghost use Rattle.dy_load_order.specs.LoadOrder as spec;

use dy_base::Items;
use std::alloc::{AllocError, Global};

/// The number of `dylan`.
const DYLAN: u32 = 0;

/// What is left to do with a library.
#[derive(Clone, Copy, Debug)]
enum Task {
    /// Unless it is placed already, all that it uses is visited, and then it is placed.
    Visit(u32),
    /// It is put behind those that are placed.
    Place(u32),
}

/// The numbers that the use clauses of a library name, where the one behind the others names these.
fn named<'a>(uses: &'a [Items<u32>], used: &'a [u32], library: usize) -> &'a [u32]
    requires { library ≤ length uses.now }
    ensures { result.now ≡ slice_index_or (uses.now ++ used.now ∷ []) library [] }
{
    match uses.get(library) {
        Some(named) => named.as_slice(),
        None => used,
    }
}

/// Puts the tasks of a library that is not placed yet upon all others. The last task is the next.
fn plan(
    todo: &mut Vec<Task>,
    uses: &[Items<u32>],
    used: &[u32],
    library: u32,
) -> Result<(), AllocError>
    requires { library ≤ length uses.now }
    ensures { OnOk result (todo.new.items ≡ todo.old.items ++ Task.Place library
        ∷ map Task.Visit (reverse (spec.used_by (uses.now ++ used.now ∷ []) library))) }
{
    todo.push(Task::Place(library))?;
    if library == DYLAN {
        return Ok(());
    }
    for number in named(uses, used, library as usize).iter().rev() {
        todo.push(Task::Visit(*number))?;
    }
    todo.push(Task::Visit(DYLAN))?;
    Ok(())
}

/// The libraries of the program of the library that is compiled next, in the order in which they
/// are loaded (DRM 4, "Libraries"): that library and all that it uses, directly or not, each once
/// and behind all that it uses. `uses` has for each library that was compiled the numbers that its
/// use clauses name, in their order, and `used` those of the next one, whose number comes behind
/// theirs. Each library but `dylan`, which is number 0, uses `dylan` first, whether a clause says
/// so or not. The order is the depth-first postorder of the uses. The only error is want of memory.
/// The time grows with the number of libraries and of use clauses.
pub fn load_order(
    alloc: Global,
    uses: &[Items<u32>],
    used: &[u32],
) -> Result<Items<u32>, AllocError>
    requires count { length uses.now < 2 ^ 32 }
    requires earlier { spec.AreEarlier (uses.now ++ used.now ∷ []) }
    ensures order { IfOk result (λ order.
        order ≡ spec.load_order (uses.now ++ used.now ∷ []) (length uses.now)) }
    ensures few { IfOk result (λ order. length order ≤ length uses.now + 1) }
{
    let mut placed = vec![in alloc; false; uses.len() + 1]?;
    let mut order = Vec::new(alloc);
    let mut todo = Vec::new(alloc);
    todo.push(Task::Visit(uses.len() as u32))?;
    while let Some(task) = todo.pop() {
        match task {
            Task::Visit(library) if placed[library as usize] => {}
            Task::Visit(library) => plan(&mut todo, uses, used, library)?,
            Task::Place(library) => {
                order.push(library)?;
                placed[library as usize] = true;
            }
        }
    }
    Ok(Items::from_vec(order))
}
