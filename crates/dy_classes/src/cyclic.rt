//! Whether a class is its own superclass.

ghost use Rattle.std.specs.Prelude.{◌≡◌, ◌↔◌, IfOk, OnOk, IsTrue};
ghost use Rattle.dy_classes.specs.Orders.{IsCyclic};
ghost use Rattle.dy_classes.specs.Rows.{supers_at};
ghost use Rattle.dy_classes.specs.Merge.{added};
ghost use Rattle.dy_classes.specs.Counters.{AreMarked};

use crate::counts::ClassCounts;
use crate::rows::supers_of;
use dy_base::ClassId;
use dy_term::Program;
use std::alloc::{AllocError, Global};

/// Classes, each once, and the number 1 for each of them.
#[derive(Drop)]
struct Found {
    classes: Vec<ClassId>,
    marks: ClassCounts,
}

impl Found {
    /// Adds those of the classes that are not there.
    fn add(&mut self, classes: &[ClassId]) -> Result<(), AllocError>
        requires { AreMarked self.old.classes.items self.old.marks.rows.items }
        ensures added { OnOk result
            (self.new.classes.items ≡ added self.old.classes.items classes.now) }
        ensures marked { OnOk result (AreMarked self.new.classes.items self.new.marks.rows.items) }
    {
        for class in classes {
            if self.marks.get(*class) == 0 {
                self.marks.raise(*class)?;
                self.classes.push(*class)?;
            }
        }
        Ok(())
    }
}

/// Whether a class is its own superclass: it looks at each superclass once.
pub(crate) fn is_cyclic(
    alloc: Global,
    program: &Program,
    class: ClassId,
) -> Result<bool, AllocError>
    ensures { IfOk result (λ answer. IsTrue answer ↔ IsCyclic (supers_at program.now) class) }
{
    let mut found = Found {
        classes: Vec::new(alloc),
        marks: ClassCounts::new(alloc, program)?,
    };
    found.add(supers_of(program, class))?;
    let mut place = 0;
    while place < found.classes.len() {
        let above = found.classes[place];
        found.add(supers_of(program, above))?;
        place += 1;
    }
    Ok(found.marks.get(class) != 0)
}
