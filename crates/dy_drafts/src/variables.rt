//! Variables as they are bound (DRM 4, "Local binding").

ghost use Rattle.std.specs.Prelude.{◌≡◌, map, IfOk};
ghost use Rattle.dy_term.specs.Types.{seen_type, seen_typed};
ghost use Rattle.dy_rules.specs.SeenTypes.{seen_variable, seen_target};
ghost use Rattle.dy_drafts.specs.Shapes.{declared_of, typed_of, local_of, locals_of, rest_of};

use crate::types::declared_or;
use dy_term::{DraftType, Local};
use dy_tree::{Target, Token, Variable};
use std::alloc::{AllocError, Global};

/// The type of a variable.
pub fn declared_of(alloc: Global, variable: &Variable) -> Result<DraftType, AllocError>
    ensures { IfOk result (λ found. seen_type found ≡ declared_of (seen_variable variable.now)) }
{
    declared_or(alloc, DraftType::Object, &variable.declared)
}

/// A variable with its type.
pub fn typed_of(alloc: Global, variable: &Variable) -> Result<(Token, DraftType), AllocError>
    ensures { IfOk result (λ typed. seen_typed typed ≡ typed_of (seen_variable variable.now)) }
{
    let name = variable.name.copy()?;
    let declared = declared_of(alloc, variable)?;
    Ok((name, declared))
}

/// A local with its type.
fn local_of(alloc: Global, variable: &Variable) -> Result<(Local, DraftType), AllocError>
    ensures { IfOk result (λ typed. seen_typed typed ≡ local_of (seen_variable variable.now)) }
{
    let name = variable.name.copy()?;
    let declared = declared_of(alloc, variable)?;
    Ok((Local::Named(name), declared))
}

/// Locals with their types.
fn locals_in(
    alloc: Global,
    variables: &Vec<Variable>,
) -> Result<Vec<(Local, DraftType)>, AllocError>
    ensures { IfOk result (λ locals. map seen_typed locals.items
        ≡ map local_of (map seen_variable variables.now.items)) }
{
    let mut locals = Vec::new(alloc);
    for variable in variables {
        locals.push(local_of(alloc, variable)?)?;
    }
    Ok(locals)
}

/// What a `let` binds.
pub fn locals_of(alloc: Global, target: &Target) -> Result<Vec<(Local, DraftType)>, AllocError>
    ensures { IfOk result (λ locals. map seen_typed locals.items
        ≡ locals_of (seen_target target.now)) }
{
    match target {
        Target::One(variable) => {
            let local = local_of(alloc, variable)?;
            Ok(vec![in alloc; local]?)
        }
        Target::Several(found) => locals_in(alloc, &found.variables),
    }
}

/// The local of the values that are left, if there is one.
pub fn rest_of(target: &Target) -> Result<Option<Local>, AllocError>
    ensures { IfOk result (λ rest. rest ≡ rest_of (seen_target target.now)) }
{
    match target {
        Target::One(_) => Ok(None),
        Target::Several(found) => match &found.rest {
            None => Ok(None),
            Some(token) => Ok(Some(Local::Named(token.copy()?))),
        },
    }
}
