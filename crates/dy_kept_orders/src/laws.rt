//! The law of orders under other names.

ghost use Rattle.dy_kept_orders.specs.Kept.{AboveIsKept, OrdersAreKept, RingsAreKept};

/// Where classes get other names, and no two superclasses of a class become one, the class keeps
/// what stands above it and its order, and comes onto no ring.
pub fn kept_orders()
    ensures above { AboveIsKept }
    ensures orders { OrdersAreKept }
    ensures rings { RingsAreKept }
{}
