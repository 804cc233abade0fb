//! Laws of the tests of what is the same.

ghost use Rattle.std.specs.Prelude.{◌≡◌, true};
ghost use Rattle.dy_base.specs.declared.ids.BindingId.{BindingId};
ghost use Rattle.dy_term.specs.declared.literal.Literal.{Literal};
ghost use Rattle.dy_term.specs.declared.types.Params.{Params};
ghost use Rattle.dy_term.specs.declared.types.Results.{Results};
ghost use Rattle.dy_values.specs.Identity.{is_same_binding};
ghost use Rattle.dy_lowered.specs.Sameness.{is_same_literal, is_same_params, is_same_results};

/// Two items that are the same are equal, and each is the same as itself.
pub fn sameness_laws()
    ensures literal { (x y : Literal) → is_same_literal x y ≡ true → x ≡ y }
    ensures literal_itself { (x : Literal) → is_same_literal x x ≡ true }
    ensures name { (x y : BindingId) → is_same_binding x y ≡ true → x ≡ y }
    ensures name_itself { (x : BindingId) → is_same_binding x x ≡ true }
    ensures list { (x y : Params) → is_same_params x y ≡ true → x ≡ y }
    ensures list_itself { (x : Params) → is_same_params x x ≡ true }
    ensures results { (x y : Results) → is_same_results x y ≡ true → x ≡ y }
    ensures results_itself { (x : Results) → is_same_results x x ≡ true }
{}
