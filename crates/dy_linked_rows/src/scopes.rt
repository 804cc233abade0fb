//! The law of what stays known of linked rows.

ghost use Rattle.dy_linked_rows.specs.Kept.{ScopeStays, KindsStay};

/// What is known of a library in its view is known of it in a program.
pub fn linked_scopes_laws()
    // Its terms are in scope as they were.
    ensures scopes { ScopeStays }
    // They are of kinds that are lowered yet as they were.
    ensures kinds { KindsStay }
{}
