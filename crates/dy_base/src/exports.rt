//! What a library exports.

use crate::ids::BindingId;
use crate::items::Items;
use crate::name::Name;

/// The names that a library's modules offer to other libraries (DRM 4, "Modules" and
/// "Libraries").
#[derive(Debug, Drop)]
pub struct Exports {
    /// The library.
    pub library: Name,
    /// Its exported modules with their exported names and the owners of these, both sorted by
    /// bytes.
    pub modules: Items<(Name, Items<(Name, BindingId)>)>,
    /// For each module with an exported macro, or one that the template of such a macro reaches,
    /// the names in these templates that the module sees, with their owners.
    pub seen: Items<(Name, Items<(Name, BindingId)>)>,
}
