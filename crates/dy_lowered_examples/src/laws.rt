//! Code worked out by hand.

ghost use Rattle.std.specs.Prelude.{◌≡◌, ℕ};
ghost use Rattle.dy_term.specs.declared.types.DyType.{DyType};
ghost use Rattle.dy_lowered.specs.Bodies.{lambda_body};
ghost use Rattle.dy_lowered_examples.specs.Loop as loops;
ghost use Rattle.dy_lowered_examples.specs.Closures as closures;

/// The bodies of four methods, whatever the number of the first closure inside of them is.
pub fn example_laws()
    // One prints numbers in a loop.
    ensures loop_body { (any : DyType) (number : ℕ)
        → lambda_body (loops.main any) number ≡ loops.main_body }
    // One makes a closure that counts.
    ensures counter_body { (any : DyType) (number : ℕ)
        → lambda_body (closures.counter any) number ≡ closures.counter_body any number }
    // This is the closure.
    ensures closure_body { (any : DyType) (number : ℕ)
        → lambda_body (closures.closure any) number ≡ closures.closure_body any }
    // One calls it, and binds several values.
    ensures main_body { (any : DyType) (number : ℕ)
        → lambda_body (closures.main any) number ≡ closures.main_body any }
{}
