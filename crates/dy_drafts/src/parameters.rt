//! Parameters and results (DRM 6, "Parameter lists").

ghost use Rattle.std.specs.Prelude.{◌≡◌, map, option_map, IfOk};
ghost use Rattle.dy_term.specs.Types.{seen_type, seen_typed, seen_key, seen_results as seen_draft};
ghost use Rattle.dy_rules.specs.SeenTypes.{seen_variable, seen_required, seen_results};
ghost use Rattle.dy_drafts.specs.Shapes.{declared_of, required_of, results_of, keyword_of, key_of};

use crate::types::only_of;
use crate::variables::{declared_of, typed_of};
use dy_term::{DraftKey, DraftResults, DraftType};
use dy_tree::{Required, Results, Token, Variable};
use std::alloc::{AllocError, Global};

/// A required parameter.
pub fn required_of(alloc: Global, required: &Required) -> Result<(Token, DraftType), AllocError>
    ensures { IfOk result (λ typed. seen_typed typed ≡ required_of (seen_required required.now)) }
{
    match required {
        Required::Variable(variable) => typed_of(alloc, variable),
        Required::Single { name, single } => {
            let declared = only_of(alloc, single)?;
            Ok((name.copy()?, declared))
        }
    }
}

/// The keyword of a keyword parameter.
fn keyword_of(keyword: &Option<Token>, variable: &Variable) -> Result<Token, AllocError>
    ensures { IfOk result (λ name. name ≡ keyword_of keyword.now (seen_variable variable.now)) }
{
    match keyword {
        None => variable.name.copy(),
        Some(keyword) => keyword.copy(),
    }
}

/// A keyword parameter.
pub fn key_of(
    alloc: Global,
    keyword: &Option<Token>,
    variable: &Variable,
) -> Result<DraftKey, AllocError>
    ensures { IfOk result (λ key. seen_key key ≡ key_of keyword.now (seen_variable variable.now)) }
{
    let keyword = keyword_of(keyword, variable)?;
    let name = variable.name.copy()?;
    let declared = declared_of(alloc, variable)?;
    Ok(DraftKey {
        keyword,
        variable: name,
        declared,
    })
}

/// The types of variables.
fn declared_in(alloc: Global, variables: &Vec<Variable>) -> Result<Vec<DraftType>, AllocError>
    ensures { IfOk result (λ types. map seen_type types.items
        ≡ map declared_of (map seen_variable variables.now.items)) }
{
    let mut types = Vec::new(alloc);
    for variable in variables {
        types.push(declared_of(alloc, variable)?)?;
    }
    Ok(types)
}

/// The type of further results, if there may be some.
fn further(alloc: Global, rest: &Option<Variable>) -> Result<Option<DraftType>, AllocError>
    ensures { IfOk result (λ found. option_map seen_type found
        ≡ option_map declared_of (option_map seen_variable rest.now)) }
{
    match rest {
        None => Ok(None),
        Some(variable) => Ok(Some(declared_of(alloc, variable)?)),
    }
}

/// Results. Without a list of them there may be any.
pub fn results_of(alloc: Global, results: &Option<Results>) -> Result<DraftResults, AllocError>
    ensures { IfOk result (λ found. seen_draft found
        ≡ results_of (option_map seen_results results.now)) }
{
    match results {
        None => Ok(DraftResults {
            required: Vec::new(alloc),
            rest: Some(DraftType::Object),
        }),
        Some(Results::One(variable)) => {
            let declared = declared_of(alloc, variable)?;
            Ok(DraftResults {
                required: vec![in alloc; declared]?,
                rest: None,
            })
        }
        Some(Results::Several { variables, rest }) => Ok(DraftResults {
            required: declared_in(alloc, variables)?,
            rest: further(alloc, rest)?,
        }),
    }
}
