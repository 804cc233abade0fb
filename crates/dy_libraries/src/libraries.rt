//! The libraries of a command.

ghost use Rattle.std.specs.Prelude.{◌≡◌, ◌<◌, ◌+◌, ◌^◌, ℕ, Some, length, IfOk, OnOk};
ghost use Rattle.dy_views.specs.Views.{AreCompiled};
ghost use Rattle.dy_views.specs.Views as views;
ghost use Rattle.dy_libraries.specs.Commands as spec;
ghost use Rattle.dy_libraries.specs.Commands.{AreLibraries, IsNext};

use dy_base::{Exports, Items, Name};
use dy_built_in_exports::{dylan_exports, io_exports};
use dy_prims::{dylan, io};
use dy_term::LibraryRow;
use dy_views::Compiled;
use std::alloc::{AllocError, Global};

/// The libraries of a command that were compiled so far, by their numbers: `dylan` is 0 and `io` is
/// 1, and then come those of the command in the order in which it names them.
#[derive(Drop)]
pub struct Libraries {
    /// What each exports, uses and sees.
    pub compiled: Compiled,
    /// The rows of each, which name other libraries by their places in its own view.
    pub rows: Items<LibraryRow>,
}

impl Libraries {
    /// Puts the library that was compiled next behind the others: its rows, what it exports by the
    /// places of its view, the numbers of those that it uses, and its view. None of the others has
    /// its name. The one error is want of memory, and then the libraries are of no more use.
    pub fn add(
        &mut self,
        row: LibraryRow,
        exports: Exports,
        uses: Items<u32>,
        order: Items<u32>,
    ) -> Result<(), AllocError>
        requires libraries { AreLibraries self.old }
        requires fits { length self.old.rows + 1 < 2 ^ 32 }
        requires next { IsNext self.old exports uses order }
        ensures added { OnOk result
            (self.new ≡ spec.with_compiled self.old row exports uses order) }
        ensures libraries { OnOk result (AreLibraries self.new) }
    {
        self.compiled.add(exports, uses, order)?;
        self.rows.push(row)?;
        Ok(())
    }

    /// The number of the library of a name.
    pub fn number_of(&self, name: &Name) -> Option<usize>
        ensures is { result ≡ views.number_of self.now.compiled.exports name.now }
        ensures there { (number : ℕ) → result ≡ Some number
            → number < length self.now.compiled.exports }
    {
        self.compiled
            .exports
            .as_slice()
            .iter()
            .position(|library| library.library.bytes() == name.bytes())
    }
}

/// A list of these numbers.
fn numbers(alloc: Global, numbers: &[u32]) -> Result<Items<u32>, AllocError>
    ensures { IfOk result (λ list. list ≡ numbers.now) }
{
    Ok(Items::from_vec(Vec::from_slice(alloc, numbers)?))
}

/// What the libraries that are built in export, use and see.
fn built_in_compiled(alloc: Global) -> Result<Compiled, AllocError>
    ensures is { IfOk result (λ compiled. compiled ≡ spec.built_in.compiled) }
    ensures compiled { IfOk result AreCompiled }
{
    let mut compiled = Compiled::new(alloc);
    let dylan_order = numbers(alloc, &[0])?;
    compiled.add(dylan_exports(alloc)?, Items::new(alloc), dylan_order)?;
    let io_uses = numbers(alloc, &[0])?;
    let io_order = numbers(alloc, &[0, 1])?;
    compiled.add(io_exports(alloc)?, io_uses, io_order)?;
    Ok(compiled)
}

/// The libraries that are built in, `dylan` and `io`. The one error is want of memory.
pub fn built_in_libraries(alloc: Global) -> Result<Libraries, AllocError>
    ensures is { IfOk result (λ libraries. libraries ≡ spec.built_in) }
    ensures libraries { IfOk result AreLibraries }
{
    let compiled = built_in_compiled(alloc)?;
    let mut rows = Items::new(alloc);
    rows.push(dylan(alloc)?)?;
    rows.push(io(alloc)?)?;
    Ok(Libraries { compiled, rows })
}
