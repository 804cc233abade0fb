//! A number for each class of a program.

ghost use Rattle.std.specs.Prelude.{◌≡◌, ◌+◌, ◌≤◌, ◌↔◌, IsTrue, IfOk, OnOk};
ghost use Rattle.dy_base.specs.declared.ids.ClassId.{ClassId};
ghost use Rattle.dy_base.specs.Orders.{is_class};
ghost use Rattle.dy_classes.specs.Merge.{find};
ghost use Rattle.dy_classes.specs.Counters.{count_at, HasCount, one_if, occurs, tail, free};

use dy_base::ClassId;
use dy_term::Program;
use std::alloc::{AllocError, Global};

/// A number for each class, in a row for each library.
#[derive(Drop)]
pub(crate) struct ClassCounts {
    rows: Vec<Vec<usize>>,
}

fn tail_of(classes: &[ClassId]) -> &[ClassId]
    ensures { result.now ≡ tail classes.now }
{
    match classes.split_first() {
        Some((_, rest)) => rest,
        None => &[],
    }
}

impl ClassCounts {
    /// The number 0 for each class of the program.
    pub(crate) fn new(alloc: Global, program: &Program) -> Result<Self, AllocError>
        ensures { IfOk result (λ counts. (class : ClassId) → count_at counts.rows.items class ≡ 0) }
    {
        let mut rows = Vec::new(alloc);
        for library in program.libraries.as_slice() {
            let count = library.classes.len();
            rows.push(vec![in alloc; 0; count]?)?;
        }
        Ok(ClassCounts { rows })
    }

    /// Whether the class has a number of its own.
    fn has(&self, class: ClassId) -> bool
        ensures { IsTrue result ↔ HasCount self.now.rows.items class }
    {
        match self.rows.get(class.0.library as usize) {
            Some(row) => (class.0.row as usize) < row.len(),
            None => false,
        }
    }

    /// The number of a class, and 0 where it has none.
    pub(crate) fn get(&self, class: ClassId) -> usize
        ensures { result ≡ count_at self.now.rows.items class }
    {
        match self.rows.get(class.0.library as usize) {
            Some(row) => match row.get(class.0.row as usize) {
                Some(count) => *count,
                None => 0,
            },
            None => 0,
        }
    }

    /// One more at a class. There is no place for the number of a class without a row, nor for one
    /// past `usize`.
    pub(crate) fn raise(&mut self, class: ClassId) -> Result<(), AllocError>
        ensures { OnOk result ((other : ClassId)
            → count_at self.new.rows.items other ≡ one_if
            (is_class other class) + count_at self.old.rows.items other) }
    {
        if !self.has(class) {
            return Err(AllocError);
        }
        let library = class.0.library as usize;
        let row = class.0.row as usize;
        let Some(count) = self.rows[library][row].checked_add(1) else {
            return Err(AllocError);
        };
        self.rows[library][row] = count;
        Ok(())
    }

    /// One less at a class.
    pub(crate) fn lower(&mut self, class: ClassId)
        requires there { HasCount self.old.rows.items class }
        requires enough { 1 ≤ count_at self.old.rows.items class }
        ensures { (other : ClassId)
            → one_if (is_class other class) + count_at self.new.rows.items other ≡ count_at
            self.old.rows.items other }
    {
        self.rows[class.0.library as usize][class.0.row as usize] -= 1;
    }

    /// One more for each place of a list but the first.
    pub(crate) fn raise_tail(&mut self, classes: &[ClassId]) -> Result<(), AllocError>
        ensures { OnOk result ((other : ClassId)
            → count_at self.new.rows.items other ≡ occurs other
            (tail classes.now) + count_at self.old.rows.items other) }
    {
        let rest = tail_of(classes);
        for class in rest {
            self.raise(*class)?;
        }
        Ok(())
    }

    /// The first of the classes whose number is 0.
    pub(crate) fn first_free(&self, classes: &[ClassId]) -> Option<ClassId>
        ensures { result ≡ find (free self.now.rows.items) classes.now }
    {
        for class in classes {
            if self.get(*class) == 0 {
                return Some(*class);
            }
        }
        None
    }
}
