//! The class precedence list.

ghost use Rattle.std.specs.Prelude.{◌≡◌, List, MatchResult};
ghost use Rattle.dy_base.specs.declared.ids.ClassId.{ClassId};
ghost use Rattle.dy_classes.specs.Lists.{Sub};
ghost use Rattle.dy_classes.specs.Orders.{Above, Order};
ghost use Rattle.dy_classes.specs.Rows.{AreStored, IsOrderOf};
ghost use Rattle.dy_classes.specs.Faults.{OrderRefused};

use crate::cyclic::is_cyclic;
use crate::faults::refused;
use crate::merge::merge_orders;
use dy_base::{ClassId, Kind, Refusal};
use dy_term::Program;
use std::alloc::Global;

/// The class precedence list of a class: the class and its superclasses, in their order (DRM 5,
/// "Computing the Class Precedence List").
///
/// The list keeps the order that is stored for each direct superclass, and the order of the direct
/// superclasses. Where several classes can be next, it takes the one that has a direct subclass
/// latest in the list so far. So there is at most one such list.
///
/// The call may be made for classes that have rows, as all do that the rows name. Where the class
/// is not its own superclass, no superclass may be its own superclass, and each of them must store
/// its order. The refusals are `CyclicClass` where the class is its own superclass, and else
/// `Inconsistent` where there is no such list. Both show the name of the class; the library and the
/// place are left to the caller.
pub fn class_order(
    alloc: Global,
    program: &Program,
    class: ClassId,
) -> Result<Vec<ClassId>, Refusal>
    ensures { AreStored program.now class → MatchResult result
        (λ order. IsOrderOf program.now class order.items)
        (λ refusal. OrderRefused program.now class refusal) }
{
    if is_cyclic(alloc, program, class)? {
        return Err(refused(alloc, program, &[class], Kind::CyclicClass));
    }
    match merge_orders(alloc, program, class)? {
        Some(order) => Ok(order),
        None => Err(refused(alloc, program, &[class], Kind::Inconsistent)),
    }
}

/// What holds of every class precedence list.
pub fn order_laws()
    // A class has at most one, whatever is stored.
    ensures one { (supers order : ClassId → List ClassId) (class : ClassId)
        (list other : List ClassId) → Order supers order class list → Order supers order class other
        → list ≡ other }
    // Where the classes above store their orders, the list of a superclass is a subsequence.
    ensures kept { (supers order : ClassId → List ClassId) (class upper : ClassId)
        → ((above : ClassId) → Above supers class above → Order supers order above (order above))
        → Above supers class upper → Sub (order upper) (order class) }
{}
