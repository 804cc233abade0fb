//! Types, parameters and results.

ghost use Rattle.std.specs.Prelude.{◌≡◌, ◌+◌, ◌<◌, ◌^◌, map, length, option_map, IfOk, OnOk};
ghost use Rattle.dy_base.specs.Folding.{folded};
ghost use Rattle.dy_term.specs.Types.{seen_type, seen_typed, seen_key, seen_params, seen_results};
ghost use Rattle.dy_binding.specs.Types.{type_or, told_of, read_type, read_types, read_some};
ghost use Rattle.dy_binding.specs.Types.{read_numbered, read_results, key_types, key_list};
ghost use Rattle.dy_binding.specs.Types.{shape_of};

use crate::progress::{Progress, tell};
use dy_base::{Fault, Items, Name, Refusal, fold};
use dy_names::{Environment, Scope};
use dy_term::{DraftKey, DraftParams, DraftResults, DraftType, DyType, Local, Params, Results};
use dy_tree::Token;
use std::alloc::{AllocError, Global};
use std::collections::VecDeque;

/// A keyword parameter: its local, and its type or what is wrong with it.
pub type KeyRead = (Token, Result<DyType, Fault>);

fn declared_of<E: Environment>(
    alloc: Global,
    environment: &E,
    draft: &DraftType,
    scope: &Scope,
) -> Result<Result<DyType, Fault>, AllocError>
    ensures { IfOk result (λ read. read
        ≡ (E.outside environment.now).type scope.now (seen_type draft.now)) }
{
    match environment.type_of(alloc, scope, draft) {
        Ok(declared) => Ok(Ok(declared)),
        Err(Refusal::Fault(fault)) => Ok(Err(fault)),
        Err(Refusal::Memory) => Err(AllocError),
    }
}

/// The type, where nothing is wrong with it, and else the fault is noted.
pub fn type_or(alloc: Global, declared: Result<DyType, Fault>, progress: &mut Progress) -> DyType
    ensures type_or { result ≡ type_or declared }
    ensures after { progress.new ≡ told_of declared progress.old }
{
    match declared {
        Ok(declared) => declared,
        Err(fault) => {
            tell(progress, fault);
            DyType {
                members: Items::new(alloc),
            }
        }
    }
}

/// What a type stands for.
pub fn read_type<E: Environment>(
    alloc: Global,
    environment: &E,
    draft: &DraftType,
    scope: &Scope,
    progress: &mut Progress,
) -> Result<DyType, AllocError>
    ensures read { IfOk result
        (λ t. t ≡ (read_type (E.outside environment.now)
        (seen_type draft.now) scope.now progress.old).0) }
    ensures after { OnOk result
        (progress.new ≡ (read_type (E.outside environment.now)
        (seen_type draft.now) scope.now progress.old).1) }
{
    let declared = declared_of(alloc, environment, draft, scope)?;
    Ok(type_or(alloc, declared, progress))
}

/// The types of required parameters.
pub fn read_required<E: Environment>(
    alloc: Global,
    environment: &E,
    required: &Vec<(Token, DraftType)>,
    scope: &Scope,
    progress: &mut Progress,
) -> Result<Items<DyType>, AllocError>
    ensures read { IfOk result
        (λ ts. ts ≡ (read_types (E.outside environment.now)
        (map (λ r. r.1) (map seen_typed required.now.items)) scope.now progress.old).0) }
    ensures after { OnOk result
        (progress.new ≡ (read_types (E.outside environment.now)
        (map (λ r. r.1) (map seen_typed required.now.items)) scope.now progress.old).1) }
{
    let mut types = Items::new(alloc);
    for (_name, declared) in required {
        types.push(read_type(alloc, environment, declared, scope, progress)?)?;
    }
    Ok(types)
}

pub fn read_list<E: Environment>(
    alloc: Global,
    environment: &E,
    drafts: &Vec<DraftType>,
    scope: &Scope,
    progress: &mut Progress,
) -> Result<Items<DyType>, AllocError>
    ensures read { IfOk result
        (λ ts. ts ≡ (read_types (E.outside environment.now)
        (map seen_type drafts.now.items) scope.now progress.old).0) }
    ensures after { OnOk result
        (progress.new ≡ (read_types (E.outside environment.now)
        (map seen_type drafts.now.items) scope.now progress.old).1) }
{
    let mut types = Items::new(alloc);
    for draft in drafts {
        types.push(read_type(alloc, environment, draft, scope, progress)?)?;
    }
    Ok(types)
}

fn read_some<E: Environment>(
    alloc: Global,
    environment: &E,
    draft: &Option<DraftType>,
    scope: &Scope,
    progress: &mut Progress,
) -> Result<Option<DyType>, AllocError>
    ensures read { IfOk result
        (λ t. t ≡ (read_some (E.outside environment.now)
        (option_map seen_type draft.now) scope.now progress.old).0) }
    ensures after { OnOk result
        (progress.new ≡ (read_some (E.outside environment.now)
        (option_map seen_type draft.now) scope.now progress.old).1) }
{
    match draft {
        None => Ok(None),
        Some(declared) => Ok(Some(read_type(alloc, environment, declared, scope, progress)?)),
    }
}

/// The types of locals, which have the numbers from one on.
pub fn read_numbered<E: Environment>(
    alloc: Global,
    environment: &E,
    typed: &Vec<(Local, DraftType)>,
    first: u32,
    scope: &Scope,
    progress: &mut Progress,
) -> Result<Items<(u32, DyType)>, AllocError>
    requires { first + length typed.now.items < 2 ^ 32 }
    ensures read { IfOk result
        (λ ts. ts ≡ (read_numbered (E.outside environment.now)
        (map seen_typed typed.now.items) first scope.now progress.old).0) }
    ensures after { OnOk result
        (progress.new ≡ (read_numbered (E.outside environment.now)
        (map seen_typed typed.now.items) first scope.now progress.old).1) }
{
    let mut types = Items::new(alloc);
    let mut number = first;
    for (_local, declared) in typed {
        let declared = read_type(alloc, environment, declared, scope, progress)?;
        types.push((number, declared))?;
        number += 1;
    }
    Ok(types)
}

/// The types of results.
pub fn read_results<E: Environment>(
    alloc: Global,
    environment: &E,
    draft: &DraftResults,
    scope: &Scope,
    progress: &mut Progress,
) -> Result<Results, AllocError>
    ensures read { IfOk result
        (λ r. r ≡ (read_results (E.outside environment.now)
        (seen_results draft.now) scope.now progress.old).0) }
    ensures after { OnOk result
        (progress.new ≡ (read_results (E.outside environment.now)
        (seen_results draft.now) scope.now progress.old).1) }
{
    let required = read_list(alloc, environment, &draft.required, scope, progress)?;
    let rest = read_some(alloc, environment, &draft.rest, scope, progress)?;
    Ok(Results { required, rest })
}

fn types_of_keys<E: Environment>(
    alloc: Global,
    environment: &E,
    keys: &Vec<DraftKey>,
    scope: &Scope,
) -> Result<VecDeque<KeyRead>, AllocError>
    ensures { IfOk result (λ read. read.items
        ≡ key_types (E.outside environment.now) scope.now (map seen_key keys.now.items)) }
{
    let mut read = VecDeque::new(alloc);
    for key in keys {
        let declared = declared_of(alloc, environment, &key.declared, scope)?;
        read.push_back((key.variable.copy()?, declared))?;
    }
    Ok(read)
}

/// The locals and the types of keyword parameters.
pub fn key_types<E: Environment>(
    alloc: Global,
    environment: &E,
    keys: &Option<Vec<DraftKey>>,
    scope: &Scope,
) -> Result<VecDeque<KeyRead>, AllocError>
    ensures { IfOk result (λ read. read.items
        ≡ key_types (E.outside environment.now) scope.now
        (key_list (option_map (λ keys. map seen_key keys.items) keys.now))) }
{
    match keys {
        None => Ok(VecDeque::new(alloc)),
        Some(keys) => types_of_keys(alloc, environment, keys, scope),
    }
}

fn key_names(alloc: Global, keys: &Vec<DraftKey>) -> Result<Items<Name>, AllocError>
    ensures { IfOk result (λ names. names
        ≡ map (λ k. folded k.keyword.text) (map seen_key keys.now.items)) }
{
    let mut names = Items::new(alloc);
    for key in keys {
        names.push(fold(alloc, key.keyword.text.bytes())?)?;
    }
    Ok(names)
}

fn some_names(
    alloc: Global,
    keys: &Option<Vec<DraftKey>>,
) -> Result<Option<Items<Name>>, AllocError>
    ensures { IfOk result (λ names. names
        ≡ option_map (λ keys. map (λ k. folded k.keyword.text) keys)
        (option_map (λ keys. map seen_key keys.items) keys.now)) }
{
    match keys {
        None => Ok(None),
        Some(keys) => Ok(Some(key_names(alloc, keys)?)),
    }
}

/// The shape of a parameter list with these types of its required parameters.
pub fn shape_of(
    alloc: Global,
    params: &DraftParams,
    required: Items<DyType>,
) -> Result<Params, AllocError>
    ensures { IfOk result (λ shape. shape ≡ shape_of (seen_params params.now) required) }
{
    let keys = some_names(alloc, &params.keys)?;
    Ok(Params {
        required,
        rest: params.rest.is_some(),
        keys,
        all_keys: params.all_keys,
    })
}
