//! The law of orders of the words of a command.

ghost use Rattle.dy_command_orders.specs.Commands.{BuildsAreAlike, ChecksAreAlike};

/// What holds of a command whose libraries are all accepted, in each order of its LID files in
/// which each library stands behind those that it uses.
pub fn command_order_laws()
    // It comes to the same status and bytes, where the main library is named.
    ensures builds { BuildsAreAlike }
    // And so it does where the libraries are checked alone.
    ensures checks { ChecksAreAlike }
{}
