//! Whether the clauses of a block suit it.

ghost use Rattle.std.specs.Prelude.{◌≡◌, map};
ghost use Rattle.dy_rules.specs.Productions as spec;
ghost use Rattle.dy_rules.specs.SeenForms.{seen_clause};

use dy_tree::BlockClause;

fn is_afterwards(clause: &BlockClause) -> bool
    ensures { result ≡ spec.is_afterwards (seen_clause clause.now) }
{
    matches!(clause, BlockClause::Afterwards { .. })
}

fn is_cleanup(clause: &BlockClause) -> bool
    ensures { result ≡ spec.is_cleanup (seen_clause clause.now) }
{
    matches!(clause, BlockClause::Cleanup { .. })
}

/// Whether `afterwards` and `cleanup` stand once at most.
pub fn suit_block(clauses: &[BlockClause]) -> bool
    ensures { result ≡ spec.suit_block (map seen_clause clauses.now) }
{
    let mut has_afterwards = false;
    let mut has_cleanup = false;
    for clause in clauses {
        if is_afterwards(clause) {
            if has_afterwards {
                return false;
            }
            has_afterwards = true;
        }
        if is_cleanup(clause) {
            if has_cleanup {
                return false;
            }
            has_cleanup = true;
        }
    }
    true
}
