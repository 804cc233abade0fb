//! The constructs of types (DRM 4, "Types").

ghost use Rattle.std.specs.Prelude.{◌≡◌, flat_map, map};
ghost use Rattle.dy_rules.specs.SeenTypes.{seen_type};
ghost use Rattle.dy_construct_parts.specs.Table.{first_absent};
ghost use Rattle.dy_construct_parts.specs.Parts as parts;

use crate::construct::{Construct, absent};
use crate::parts::in_single;
use dy_tree::TypeForm;

#[cycle(types)]
pub fn in_type(form: &TypeForm) -> Option<Construct>
    ensures { result ≡ first_absent (parts.in_type (seen_type form.now)) }
{
    match form {
        TypeForm::Name(_) => absent(Construct::NamedType),
        TypeForm::Singleton { single, .. } => {
            absent(Construct::SingletonType).or(in_single(single))
        }
        TypeForm::Union { types, .. } => absent(Construct::UnionType).or(in_types(types)),
        TypeForm::Limited { .. } => absent(Construct::LimitedType),
    }
}

#[cycle(types)]
pub fn in_types(forms: &Vec<TypeForm>) -> Option<Construct>
    ensures { result ≡ first_absent (flat_map parts.in_type (map seen_type forms.now.items)) }
{
    let mut found = None;
    for form in forms {
        found = found.or(in_type(form));
    }
    found
}
