//! Laws of resolution.

ghost use Rattle.dy_term.specs.Drafts.{Core, CoreLambda};
ghost use Rattle.dy_names.specs.declared.denotation.Denotation.{Denotation};
ghost use Rattle.dy_names.specs.Naming.{Locals};
ghost use Rattle.dy_names.specs.Outside.{Outside};
ghost use Rattle.dy_resolution.specs.Numbers.{AreNumbered, IsNumberedLambda};

/// The locals of a draft have the numbers from 0 on, each one, in order, and those of each lambda
/// inside of it the numbers from its `first` to below its `locals`, whatever is outside.
pub fn numbering_law()
    // A term that stands by itself.
    ensures terms { (out : Outside) (draft : Core) → AreNumbered out draft }
    // The lambda of a row.
    ensures lambdas { (out : Outside) (draft : CoreLambda) (denotation : Denotation)
        (locals : Locals)
        → IsNumberedLambda out draft denotation locals }
{}
