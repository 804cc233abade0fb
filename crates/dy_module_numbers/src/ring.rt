//! Modules that use each other in a ring.

ghost use Rattle.std.specs.Prelude.{◌≡◌, ◌↔◌, true, false, replicate, slice_get, IfOk, OnOk};
ghost use Rattle.dy_module_numbers.specs.Rings as spec;

use dy_modules::ModuleForm;
use std::alloc::{AllocError, Global};

fn marks(alloc: Global, count: usize) -> Result<Vec<bool>, AllocError>
    ensures { IfOk result (λ marks. marks.items ≡ replicate count false) }
{
    let mut marks = Vec::new(alloc);
    for _number in 0..count {
        marks.push(false)?;
    }
    Ok(marks)
}

fn is_unmarked(marks: &[bool], number: usize) -> bool
    ensures { result ≡ spec.is_unmarked (slice_get marks.now number) }
{
    match marks.get(number) {
        Some(mark) => !*mark,
        None => false,
    }
}

fn is_marked(marks: &[bool], number: usize) -> bool
    ensures { result ≡ spec.is_marked (slice_get marks.now number) }
{
    match marks.get(number) {
        Some(mark) => *mark,
        None => false,
    }
}

/// Marks a module that is not marked yet, and adds it to those that are to be looked at.
fn mark(marks: &mut Vec<bool>, todo: &mut Vec<usize>, number: usize) -> Result<(), AllocError>
    ensures { OnOk result (record { marks = marks.new.items; todo = todo.new.items }
        ≡ spec.marked (record { marks = marks.old.items; todo = todo.old.items }) number) }
{
    if is_unmarked(marks, number) {
        marks[number] = true;
        todo.push(number)?;
    }
    Ok(())
}

fn mark_sources(
    form: &ModuleForm,
    marks: &mut Vec<bool>,
    todo: &mut Vec<usize>,
) -> Result<(), AllocError>
    ensures { OnOk result (record { marks = marks.new.items; todo = todo.new.items }
        ≡ spec.marked_all (record { marks = marks.old.items; todo = todo.old.items })
        form.now.uses) }
{
    for u in form.uses.as_slice() {
        mark(marks, todo, u.source)?;
    }
    Ok(())
}

fn mark_sources_of(
    modules: &[ModuleForm],
    number: usize,
    marks: &mut Vec<bool>,
    todo: &mut Vec<usize>,
) -> Result<(), AllocError>
    ensures { OnOk result (record { marks = marks.new.items; todo = todo.new.items }
        ≡ spec.marked_by (record { marks = marks.old.items; todo = todo.old.items })
        (slice_get modules.now number)) }
{
    match modules.get(number) {
        Some(form) => mark_sources(form, marks, todo),
        None => Ok(()),
    }
}

/// Whether a chain of use clauses leads from a module to itself.
pub fn is_on_ring(alloc: Global, modules: &[ModuleForm], number: usize) -> Result<bool, AllocError>
    ensures { IfOk result (λ ring. (ring ≡ true) ↔ spec.Leads modules.now number number) }
{
    let mut marks = marks(alloc, modules.len())?;
    let mut todo = Vec::new(alloc);
    todo.push(number)?;
    while let Some(next) = todo.pop() {
        mark_sources_of(modules, next, &mut marks, &mut todo)?;
    }
    Ok(is_marked(&marks, number))
}
