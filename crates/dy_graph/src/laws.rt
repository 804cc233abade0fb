//! Forms have one answer.

ghost use Rattle.dy_graph.specs.Judged.{AnswersAreOne};

/// Of two answers that `graph` may give for the same forms one says that memory did not suffice, or
/// they are the same: one table, or one fault.
pub fn graph_laws()
    ensures { AnswersAreOne }
{}
