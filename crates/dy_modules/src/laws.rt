//! The owners are the least set of triples that the clauses make.

ghost use Rattle.std.specs.Prelude.{◌≡◌, ℕ, Bool, true, List};
ghost use Rattle.dy_modules.specs.declared.owner.Owner.{Owner};
ghost use Rattle.dy_modules.specs.declared.clause.ModuleForm.{ModuleForm};
ghost use Rattle.dy_modules.specs.Clauses.{Name};
ghost use Rattle.dy_modules.specs.Sees.{Side, Named, HasNames, Owned, IsClosed};

/// The names and their owners are the least sets that the clauses make: each is closed, and lies in
/// every set that is.
pub fn least_set()
    ensures names { (ms : List ModuleForm) → HasNames ms (Named ms) }
    ensures least_names { (ms : List ModuleForm) (P : Side → ℕ → Name → Bool)
        → HasNames ms (λ s m n. P s m n ≡ true)
        → (s : Side) (m : ℕ) (n : Name) → Named ms s m n → P s m n ≡ true }
    ensures owners { (ms : List ModuleForm) → IsClosed ms (Owned ms) }
    ensures least_owners { (ms : List ModuleForm) (P : Side → ℕ → Name → Owner → Bool)
        → IsClosed ms (λ s m n k. P s m n k ≡ true)
        → (s : Side) (m : ℕ) (n : Name) (k : Owner) → Owned ms s m n k → P s m n k ≡ true }
{}
