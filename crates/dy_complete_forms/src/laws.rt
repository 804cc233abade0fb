//! Laws of complete forms.

ghost use Rattle.std.specs.Prelude.{◌≡◌, List};
ghost use Rattle.dy_base.specs.declared.fault.Fault.{Fault};
ghost use Rattle.dy_tree.specs.declared.token.Token.{Token};
ghost use Rattle.dy_tree.specs.declared.words.Words.{Words};
ghost use Rattle.dy_tree.specs.Fragments.{SeenFragment};
ghost use Rattle.dy_fragment.specs.Faults.{Refused};
ghost use Rattle.dy_complete_forms.specs.Forms.{AreComplete, StandsBehind};

/// What holds of the complete forms of all tokens.
pub fn complete_laws()
    // No tokens have two lists of them.
    ensures one { (words : Words) (tokens : List Token) (one other : List SeenFragment)
        → AreComplete words tokens one → AreComplete words tokens other → one ≡ other }
    // The first fault of the groups stands behind them.
    ensures behind { (words : Words) (tokens : List Token) (forms : List SeenFragment)
        (fault : Fault) (complete : AreComplete words tokens forms) → Refused 200 words tokens fault
        → StandsBehind tokens complete.count fault }
{}
