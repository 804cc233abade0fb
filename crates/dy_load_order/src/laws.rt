//! Laws of load orders.

ghost use Rattle.dy_load_order.specs.Laws.{VisitsAreSo, VisitsAreOne, DylanIsFirst, MainIsLast};
ghost use Rattle.dy_load_order.specs.Laws.{NoneIsTwice, UsedAreInFront, ReachedAreLoaded};
ghost use Rattle.dy_load_order.specs.Laws.{OrdersStay};

/// What holds of the load order of a main library (DRM 4, "Libraries"), where each use clause names
/// a library of a smaller number.
pub fn load_order_laws()
    // To visit a library is to visit what it uses and then to put it behind, unless it is there.
    ensures visits { VisitsAreSo }
    // All that visit so come to the same order.
    ensures one { VisitsAreOne }
    // Dylan stands first, and the main library last.
    ensures first { DylanIsFirst }
    ensures last { MainIsLast }
    // No library stands twice.
    ensures once { NoneIsTwice }
    // All that a library uses stands in front of it.
    ensures in_front { UsedAreInFront }
    // The libraries of the order are those that the main library uses, directly or not, and itself.
    ensures reached { ReachedAreLoaded }
    // One more library behind others leaves their load orders as they are.
    ensures stay { OrdersStay }
{}
