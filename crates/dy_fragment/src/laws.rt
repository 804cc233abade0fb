//! Laws of groups.

ghost use Rattle.std.specs.Prelude.{◌≡◌, ◌<◌, ◌≤◌, List, Ok, Err};
ghost use Rattle.dy_base.specs.declared.kind.Kind.TheVariants.{Unbalanced, TooDeep};
ghost use Rattle.dy_base.specs.declared.fault.Place.{Place};
ghost use Rattle.dy_tree.specs.declared.token.Token.{Token};
ghost use Rattle.dy_tree.specs.declared.words.Words.{Words};
ghost use Rattle.dy_tree.specs.Fragments.{SeenFragment};
ghost use Rattle.dy_base.specs.declared.fault.Fault.{Fault};
ghost use Rattle.dy_fragment.specs.Faults.{Refused};
ghost use Rattle.dy_fragment.specs.Groups.{Grouped, depth};
ghost use Rattle.dy_fragment.specs.Leaves.{StandFor};
ghost use Rattle.dy_fragment.specs.Steps.{fault_at, group_of};

/// What holds of the groups of all tokens.
pub fn group_laws()
    // What is given are trees of the tokens, and they are not too deep.
    ensures given { (words : Words) (tokens : List Token) (fs : List SeenFragment)
        → group_of words tokens ≡ Ok fs → Grouped words tokens fs × (depth fs ≤ 200) }
    // Trees of the tokens that are not too deep are given.
    ensures all { (words : Words) (tokens : List Token) (fs : List SeenFragment)
        → Grouped words tokens fs → depth fs ≤ 200 → group_of words tokens ≡ Ok fs }
    // No tokens have two lists of trees.
    ensures one { (words : Words) (tokens : List Token) (fs gs : List SeenFragment)
        → Grouped words tokens fs → Grouped words tokens gs → fs ≡ gs }
    // The tokens are those of the trees, in order. In no tree stands only what an `end` absorbs.
    ensures absorbed { (words : Words) (tokens : List Token) (fs : List SeenFragment)
        → Grouped words tokens fs → StandFor words fs tokens }
    // Trees that are too deep are refused so.
    ensures deep { (words : Words) (tokens : List Token) (fs : List SeenFragment)
        → Grouped words tokens fs → 200 < depth fs → (place : Place)
        × (group_of words tokens ≡ Err (fault_at TooDeep place)) }
    // What is refused as unbalanced has no trees.
    ensures none { (words : Words) (tokens : List Token) (place : Place) (fs : List SeenFragment)
        → group_of words tokens ≡ Err (fault_at Unbalanced place) → Grouped words tokens fs → ⊥ }
    // What is refused has this fault, and it is the first.
    ensures refused { (words : Words) (tokens : List Token) (fault : Fault)
        → group_of words tokens ≡ Err fault → Refused 200 words tokens fault }
    // What has a first fault is refused with it.
    ensures fault { (words : Words) (tokens : List Token) (fault : Fault)
        → Refused 200 words tokens fault → group_of words tokens ≡ Err fault }
{}
