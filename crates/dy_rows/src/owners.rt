//! Names of rows.

ghost use Rattle.std.specs.Prelude.{◌≡◌, IfOk, OnOk};
ghost use Rattle.dy_rows.specs.Rows.{no_row, has, bound_to, generic_of, class_of, classes_of};
ghost use Rattle.dy_rows.specs.Rows.{setter_of};

use dy_base::{BindingId, ClassId, GenericId, Items, Kind, Ref, What};
use dy_binding::{Progress, tell_name, tell_place};
use dy_names::Environment;
use dy_tree::Token;
use std::alloc::{AllocError, Global};

fn no_row() -> Ref
    ensures { result ≡ no_row }
{
    Ref { library: 0, row: 0 }
}

/// Whether an adjective stands among these.
pub fn has(text: &[u8], adjectives: &Vec<Token>) -> bool
    ensures { result ≡ has text.now adjectives.now.items }
{
    for adjective in adjectives {
        if adjective.is_spelled(text) {
            return true;
        }
    }
    false
}

/// What a name is bound to.
pub fn bound_to<E: Environment>(
    alloc: Global,
    environment: &E,
    name: &Token,
    progress: &mut Progress,
) -> Result<BindingId, AllocError>
    ensures binding { IfOk result
        (λ found. found ≡ (bound_to name.now
        ((E.outside environment.now).owner name.now) progress.old).0) }
    ensures after { OnOk result
        (progress.new ≡ (bound_to name.now
        ((E.outside environment.now).owner name.now) progress.old).1) }
{
    match environment.owner(alloc, name)? {
        Some(binding) => Ok(binding),
        None => {
            tell_name(alloc, progress, Kind::Unbound, name)?;
            Ok(BindingId {
                what: What::Variable,
                at: no_row(),
            })
        }
    }
}

/// The generic function of a name.
pub fn generic_of<E: Environment>(
    alloc: Global,
    environment: &E,
    name: &Token,
    progress: &mut Progress,
) -> Result<GenericId, AllocError>
    ensures generic { IfOk result
        (λ found. found ≡ (generic_of name.now
        ((E.outside environment.now).owner name.now) progress.old).0) }
    ensures after { OnOk result
        (progress.new ≡ (generic_of name.now
        ((E.outside environment.now).owner name.now) progress.old).1) }
{
    match environment.owner(alloc, name)? {
        None => {
            tell_name(alloc, progress, Kind::Unbound, name)?;
            Ok(GenericId(no_row()))
        }
        Some(binding) => match binding.what {
            What::Generic => Ok(GenericId(binding.at)),
            What::Class | What::Variable | What::Constant | What::Function | What::Macro => {
                tell_name(alloc, progress, Kind::Unbound, name)?;
                Ok(GenericId(no_row()))
            }
        },
    }
}

fn class_of<E: Environment>(
    alloc: Global,
    environment: &E,
    name: &Token,
    progress: &mut Progress,
) -> Result<ClassId, AllocError>
    ensures class { IfOk result
        (λ found. found ≡ (class_of name.now
        ((E.outside environment.now).owner name.now) progress.old).0) }
    ensures after { OnOk result
        (progress.new ≡ (class_of name.now
        ((E.outside environment.now).owner name.now) progress.old).1) }
{
    match environment.owner(alloc, name)? {
        None => {
            tell_name(alloc, progress, Kind::Unbound, name)?;
            Ok(ClassId(no_row()))
        }
        Some(binding) => match binding.what {
            What::Class => Ok(ClassId(binding.at)),
            What::Generic | What::Variable | What::Constant | What::Function | What::Macro => {
                tell_place(alloc, progress, Kind::NotAType, name)?;
                Ok(ClassId(no_row()))
            }
        },
    }
}

/// The classes of names.
pub fn classes_of<E: Environment>(
    alloc: Global,
    environment: &E,
    names: &Vec<Token>,
    progress: &mut Progress,
) -> Result<Items<ClassId>, AllocError>
    ensures classes { IfOk result
        (λ found. found ≡ (classes_of (E.outside environment.now) names.now.items progress.old).0) }
    ensures after { OnOk result
        (progress.new ≡ (classes_of (E.outside environment.now) names.now.items progress.old).1) }
{
    let mut classes = Items::new(alloc);
    for name in names {
        classes.push(class_of(alloc, environment, name, progress)?)?;
    }
    Ok(classes)
}

/// The generic function of a setter's name.
pub fn setter_of<E: Environment>(
    alloc: Global,
    environment: &E,
    name: &Option<Token>,
    progress: &mut Progress,
) -> Result<Option<GenericId>, AllocError>
    ensures setter { IfOk result
        (λ found. found ≡ (setter_of (E.outside environment.now) name.now progress.old).0) }
    ensures after { OnOk result
        (progress.new ≡ (setter_of (E.outside environment.now) name.now progress.old).1) }
{
    match name {
        None => Ok(None),
        Some(name) => Ok(Some(generic_of(alloc, environment, name, progress)?)),
    }
}
