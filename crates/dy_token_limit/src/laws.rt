//! The law of the limit on tokens.

ghost use Rattle.dy_token_limit.specs.Limit.{OverIsOne};

/// Forms have one first form with which they have too many tokens, or none.
pub fn token_limit_laws()
    ensures { OverIsOne }
{}
