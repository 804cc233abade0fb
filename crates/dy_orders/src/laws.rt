//! The law of the orders of a command's words.

ghost use Rattle.dy_orders.specs.Orders.{OrdersAreAlike, NoneIsRefused, WordsAreAdmissible};

/// What holds of two orders of LID files, in each of which each library stands behind all that it
/// uses.
pub fn order_laws()
    // The order of the words is such an order.
    ensures words { WordsAreAdmissible }
    // Where the libraries of one are read, so are those of the other, and they are the same.
    ensures alike { OrdersAreAlike }
    // So where no library of one is refused, none of the other is.
    ensures none_refused { NoneIsRefused }
{}
