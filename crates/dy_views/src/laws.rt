//! Laws of views.

ghost use Rattle.dy_views.specs.Laws.{UsedAreOnce, ViewsAreParts, PlacesAreKept};
ghost use Rattle.dy_views.specs.Laws.{PlacesStayApart, DylanStaysFirst, ExportsStay};

/// What holds of the view of the library that is compiled next, and of the places that it has for
/// those of a library that it uses (DRM 4, "Libraries").
pub fn view_laws()
    // No library is used twice.
    ensures once { UsedAreOnce }
    // All that a used library sees is seen by its user too.
    ensures parts { ViewsAreParts }
    // At the new place of a place stands the same library.
    ensures kept { PlacesAreKept }
    // No two places become one.
    ensures apart { PlacesStayApart }
    // Dylan stays first.
    ensures dylan { DylanStaysFirst }
    // By the numbers of libraries, in place of places, it sees what a used library exports.
    ensures exports { ExportsStay }
{}
