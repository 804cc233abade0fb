//! The orders of the classes of a graph, one after another.

use crate::failure::Failure;
use crate::rows::{class, class_row, program};
use dy_base::{ClassId, ClassOrder};
use dy_classes::class_order;
use dy_term::{ClassRow, Program};
use std::alloc::{AllocError, Global};

/// The most classes that a graph may have.
const MOST_CLASSES: u32 = 65_536;

/// How many classes a layer of a lattice has.
const WIDTH: u32 = 8;

/// A graph of classes. Each class stands behind its superclasses.
#[derive(Clone, Copy)]
pub(crate) enum Graph {
    /// Each class has the one before it as its superclass.
    Chain,
    /// Below one class, layers of eight, each of whose classes has the eight of the layer above as
    /// its superclasses.
    Lattice,
}

fn read_count(word: &str) -> Result<u32, Failure> {
    match word.parse::<u32>() {
        Ok(count) if count <= MOST_CLASSES => Ok(count),
        _ => Err(Failure::Words),
    }
}

/// The direct superclasses of a class.
fn supers(alloc: Global, graph: Graph, row: u32) -> Result<Vec<ClassId>, AllocError> {
    let mut supers = Vec::new(alloc);
    if row == 0 {
        return Ok(supers);
    }
    match graph {
        Graph::Chain => supers.push(class(row - 1))?,
        Graph::Lattice if row <= WIDTH => supers.push(class(0))?,
        Graph::Lattice => {
            let above = ((row - 1) / WIDTH).saturating_sub(1);
            let first = above.saturating_mul(WIDTH).saturating_add(1);
            for place in 0..WIDTH {
                supers.push(class(first.saturating_add(place)))?;
            }
        }
    }
    Ok(supers)
}

fn take_classes(alloc: Global, program: Program) -> Vec<ClassRow> {
    match program.libraries.into_vec().pop() {
        Some(library) => library.classes.into_vec(),
        None => Vec::new(alloc),
    }
}

/// The rows with one more, which stores no order yet.
fn with_row(
    alloc: Global,
    classes: Vec<ClassRow>,
    supers: Vec<ClassId>,
) -> Result<Vec<ClassRow>, AllocError> {
    let mut classes = classes;
    classes.push(class_row(alloc, supers, ClassOrder::new(alloc))?)?;
    Ok(classes)
}

/// The rows, of which the last one stores this order.
fn with_order(classes: Vec<ClassRow>, order: ClassOrder) -> Result<Vec<ClassRow>, AllocError> {
    let mut classes = classes;
    if let Some(mut last) = classes.pop() {
        last.order = order;
        classes.push(last)?;
    }
    Ok(classes)
}

/// The rows with one more, which stores its order.
fn with_class(
    alloc: Global,
    classes: Vec<ClassRow>,
    row: u32,
    supers: Vec<ClassId>,
) -> Result<Vec<ClassRow>, Failure> {
    let program = program(alloc, with_row(alloc, classes, supers)?, Vec::new(alloc))?;
    let order = ClassOrder::from_vec(alloc, class_order(alloc, &program, class(row))?)?;
    Ok(with_order(take_classes(alloc, program), order)?)
}

/// The sum of the lengths of the orders of all classes of a graph that has so many.
pub(crate) fn total(alloc: Global, graph: Graph, count: &str) -> Result<usize, Failure> {
    let mut classes = Vec::new(alloc);
    let mut total = 0usize;
    for row in 0..read_count(count)? {
        let supers = supers(alloc, graph, row)?;
        classes = with_class(alloc, classes, row, supers)?;
        if let Some(last) = classes.last() {
            total = total.saturating_add(last.order.as_slice().len());
        }
    }
    Ok(total)
}
