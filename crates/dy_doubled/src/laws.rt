//! Forms have one answer.

ghost use Rattle.dy_doubled.specs.Doubled.{AnswersAreOne};

/// Of two answers that `redefined` may give for the same forms one says that memory did not
/// suffice, or they are the same.
pub fn doubled_laws()
    ensures { AnswersAreOne }
{}
