//! What answers a call of a generic function.

ghost use Rattle.std.specs.Prelude.{◌≡◌, OnOk, OnErr};
ghost use Rattle.dy_term.specs.declared.rows.Program.{Program};
ghost use Rattle.dy_order.specs.Sorting.{IsSorted};

use crate::answer::Sorted;
use crate::sorting::sorted;
use dy_base::GenericId;
use dy_term::{Program, Shape1};
use std::alloc::{AllocError, Global};

/// A way to find the sorted applicable methods of a call.
pub trait Dispatch {
    /// The program whose methods are sorted.
    ghost program: { Self → Program };

    /// Puts the methods of a generic function that are applicable to the arguments, sorted, in
    /// place of what `into` held. The one error is want of memory, and `into` is as before then.
    fn answer(
        &self,
        alloc: Global,
        generic: GenericId,
        args: &[Shape1],
        into: &mut Sorted,
    ) -> Result<(), AllocError>
        ensures ok { OnOk result
            (IsSorted (program self.now) generic args.now into.new.first into.new.rest) }
        ensures err { OnErr result (into.new ≡ into.old) };
}

/// The plain way: the methods of the program are sorted at each call.
#[derive(Clone, Copy)]
pub struct Plain<'a> {
    pub program: &'a Program,
}

impl<'a> Dispatch for Plain<'a> {
    ghost program = { λ plain. plain.program.now };

    fn answer(
        &self,
        alloc: Global,
        generic: GenericId,
        args: &[Shape1],
        into: &mut Sorted,
    ) -> Result<(), AllocError> {
        *into = sorted(alloc, self.program, generic, args)?;
        Ok(())
    }
}
