//! Types (DRM 4, "Types").

ghost use Rattle.std.specs.Prelude.{◌≡◌, map, option_map, IfOk};
ghost use Rattle.dy_term.specs.Types.{seen_type as seen_draft};
ghost use Rattle.dy_rules.specs.SeenTypes.{seen_bound, seen_single, seen_type};
ghost use Rattle.dy_drafts.specs.Shapes.{single_of, only_of, bound_of, type_of, declared_or};

use crate::literal::{integer_of, literal_of};
use dy_term::{DraftType, Literal, union_draft};
use dy_tree::{BoundForm, SingleForm, Token, TypeForm};
use std::alloc::{AllocError, Global};

/// The type of one value. A fault of a class's name is told at the given token.
pub fn single_of(alloc: Global, told: &Token, form: &SingleForm) -> Result<DraftType, AllocError>
    ensures { IfOk result (λ found. seen_draft found ≡ single_of told.now (seen_single form.now)) }
{
    match form {
        SingleForm::Literal(literal) => Ok(DraftType::Single(literal_of(alloc, literal)?)),
        SingleForm::Empty { .. } => Ok(DraftType::Single(Literal::Nil)),
        SingleForm::Name(token) => Ok(DraftType::SingleName(told.copy()?, token.copy()?)),
    }
}

/// The type of the parameter in `name == value`. A fault of a class's name is told at that name.
pub fn only_of(alloc: Global, form: &SingleForm) -> Result<DraftType, AllocError>
    ensures { IfOk result (λ found. seen_draft found ≡ only_of (seen_single form.now)) }
{
    match form {
        SingleForm::Literal(literal) => Ok(DraftType::Single(literal_of(alloc, literal)?)),
        SingleForm::Empty { .. } => Ok(DraftType::Single(Literal::Nil)),
        SingleForm::Name(class) => single_of(alloc, class, form),
    }
}

/// The number of the first bound with this keyword, or the one that is the limit without it.
fn bound_of(text: &[u8], other: i64, bounds: &[BoundForm]) -> i64
    ensures { result ≡ bound_of text.now other (map seen_bound bounds.now) }
{
    for bound in bounds {
        if bound.keyword.is_spelled(text) {
            return integer_of(&bound.number);
        }
    }
    other
}

/// A type.
#[cycle(types)]
pub fn type_of(alloc: Global, form: &TypeForm) -> Result<DraftType, AllocError>
    ensures { IfOk result (λ found. seen_draft found ≡ type_of (seen_type form.now)) }
{
    match form {
        TypeForm::Name(token) => Ok(DraftType::Name(token.copy()?)),
        TypeForm::Singleton { word, single } => single_of(alloc, word, single),
        TypeForm::Union { word, types } => {
            let types = types_of(alloc, types)?;
            Ok(union_draft(word.copy()?, types))
        }
        TypeForm::Limited { word, bounds, .. } => {
            let least = bound_of(b"min", i64::MIN, bounds);
            let greatest = bound_of(b"max", i64::MAX, bounds);
            Ok(DraftType::Range(word.copy()?, least, greatest))
        }
    }
}

/// The parts of a union.
#[cycle(types)]
fn types_of(alloc: Global, forms: &Vec<TypeForm>) -> Result<Vec<DraftType>, AllocError>
    ensures { IfOk result (λ types. map seen_draft types.items
        ≡ map (λ form. type_of (seen_type form)) forms.now.items) }
{
    let mut types = Vec::new(alloc);
    for form in forms {
        types.push(type_of(alloc, form)?)?;
    }
    Ok(types)
}

/// A type that may be left out.
pub fn declared_or(
    alloc: Global,
    other: DraftType,
    form: &Option<TypeForm>,
) -> Result<DraftType, AllocError>
    ensures { IfOk result (λ found. seen_draft found
        ≡ declared_or (seen_draft other) (option_map seen_type form.now)) }
{
    match form {
        None => Ok(other),
        Some(form) => type_of(alloc, form),
    }
}
