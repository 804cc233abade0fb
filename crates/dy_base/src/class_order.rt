//! The order of a class and its superclasses.

ghost use Rattle.std.specs.Prelude.{◌≡◌, ◌↔◌, [], position, Contains, IsTrue, IfOk};
ghost use Rattle.std.specs.Ordering.{is_lt};
ghost use Rattle.dy_base.specs.Orders.{class_cmp, is_class, placed};

use crate::ids::ClassId;
use std::alloc::{AllocError, Global};
use std::marker::Model;

/// A class and its superclasses, in the order of the class precedence list (DRM 5, "Computing the
/// Class Precedence List"). A class is found in it in logarithmic time.
#[derive(Debug, Drop)]
pub struct ClassOrder {
    classes: Vec<ClassId>,
    sorted: Vec<(ClassId, usize)>,
}

impl Model for ClassOrder {
    ghost use Rattle.std.specs.Prelude.{List};
    ghost use Rattle.dy_base.specs.declared.ids.ClassId.{ClassId};
    ghost use Rattle.dy_base.specs.Orders.{IsSortedCopy};

    ghost Value = { List ClassId };

    ghost view = { λ order. order.classes.items };

    ghost invariant = { λ order. IsSortedCopy order.classes.items order.sorted.items };
}

fn with_places(alloc: Global, classes: &[ClassId]) -> Result<Vec<(ClassId, usize)>, AllocError>
    ensures { IfOk result (λ pairs. pairs.items ≡ placed 0 classes.now) }
{
    let mut pairs = Vec::new(alloc);
    for place in 0..classes.len() {
        pairs.push((classes[place], place))?;
    }
    Ok(pairs)
}

impl ClassOrder {
    /// The order of a class for which none is known yet: no classes. It takes no memory.
    pub fn new(alloc: Global) -> Self
        ensures { result ≡ [] }
    {
        ClassOrder {
            classes: Vec::new(alloc),
            sorted: Vec::new(alloc),
        }
    }

    /// The order of these classes.
    pub fn from_vec(alloc: Global, classes: Vec<ClassId>) -> Result<Self, AllocError>
        ensures { IfOk result (λ order. order ≡ classes.items) }
    {
        let mut sorted = with_places(alloc, classes.as_slice())?;
        sorted.sort()?;
        Ok(ClassOrder { classes, sorted })
    }

    /// The classes, in their order.
    pub fn as_slice(&self) -> &[ClassId]
        ensures { result.now ≡ self.now }
    {
        self.classes.as_slice()
    }

    /// The first place of a class, from 0, or `None` where it is not there.
    pub fn place_of(&self, class: ClassId) -> Option<usize>
        ensures { result ≡ position (is_class class) self.now }
    {
        let at = self.sorted.partition_point(
            |entry: &(ClassId, usize)| -> bool
                ensures { result ≡ is_lt (class_cmp entry.now.0 class) }
            { entry.0 < class },
        );
        let entry = self.sorted.get(at)?;
        if entry.0 == class {
            Some(entry.1)
        } else {
            None
        }
    }

    /// Whether a class is there.
    pub fn holds(&self, class: ClassId) -> bool
        ensures { IsTrue result ↔ Contains self.now class }
    {
        self.place_of(class).is_some()
    }
}
