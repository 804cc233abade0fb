//! What bindings bind, and the results of methods.

ghost use Rattle.std.specs.Prelude.{◌≡◌, ◌++◌, map, option_map, OnOk};
ghost use Rattle.dy_tree.specs.Fragments.{one, seen_fragments};
ghost use Rattle.dy_tree.specs.declared.token.TokenKind.TheVariants as kinds;
ghost use Rattle.dy_rules.specs.Marks.{made, comma_mark};
ghost use Rattle.dy_rules.specs.TypeWriting.{written_variable, written_bound, written_target};
ghost use Rattle.dy_rules.specs.TypeWriting.{written_given, written_results};
ghost use Rattle.dy_rules.specs.SeenTypes.{seen_variable, seen_target, seen_results};
ghost use Rattle.dy_write_parts.specs.Parts.{marked_name, rest_variable};
ghost use Rattle.dy_write_parts.specs.Separated.{separated, joined_last};

use crate::mark::{push_hash_word, push_mark, push_round, push_token};
use crate::types::{push_comma, push_variable};
use dy_tree::{Fragment, Results, Target, Token, Variable, Variables};
use std::alloc::{AllocError, Global};

/// Adds variables with commas between them.
fn push_variables(
    alloc: Global,
    variables: &Vec<Variable>,
    out: &mut Vec<Fragment>,
) -> Result<(), AllocError>
    ensures { OnOk result (seen_fragments out.new.items
        ≡ seen_fragments out.old.items
        ++ separated comma_mark written_variable (map seen_variable variables.now.items)) }
{
    let mut first = true;
    for variable in variables {
        push_comma(alloc, out, first)?;
        push_variable(alloc, variable, out)?;
        first = false;
    }
    Ok(())
}

/// Adds a name behind `#next` or `#rest`, if there is one.
pub fn push_marked_name(
    alloc: Global,
    out: &mut Vec<Fragment>,
    first: bool,
    mark: &[u8],
    name: &Option<Token>,
) -> Result<(), AllocError>
    ensures { OnOk result (seen_fragments out.new.items
        ≡ seen_fragments out.old.items
        ++ joined_last first (marked_name (one (made kinds.Mark mark.now)) name.now)) }
{
    match name {
        Some(token) => {
            push_comma(alloc, out, first)?;
            push_hash_word(alloc, out, mark)?;
            push_token(out, token.copy()?)
        }
        None => Ok(()),
    }
}

/// Adds the variable that the rest is bound to, if there is one.
fn push_rest_variable(
    alloc: Global,
    out: &mut Vec<Fragment>,
    first: bool,
    rest: &Option<Variable>,
) -> Result<(), AllocError>
    ensures { OnOk result (seen_fragments out.new.items
        ≡ seen_fragments out.old.items
        ++ joined_last first (rest_variable (option_map seen_variable rest.now))) }
{
    match rest {
        Some(variable) => {
            push_comma(alloc, out, first)?;
            push_hash_word(alloc, out, b"#rest")?;
            push_variable(alloc, variable, out)
        }
        None => Ok(()),
    }
}

/// Adds what stands between the brackets of a target.
fn push_bound(alloc: Global, bound: &Variables, out: &mut Vec<Fragment>) -> Result<(), AllocError>
    ensures { OnOk result (seen_fragments out.new.items
        ≡ seen_fragments out.old.items
        ++ written_bound (map seen_variable bound.now.variables.items) bound.now.rest) }
{
    push_variables(alloc, &bound.variables, out)?;
    push_marked_name(
        alloc,
        out,
        bound.variables.is_empty(),
        b"#rest",
        &bound.rest,
    )
}

/// Adds what a binding binds.
pub fn push_target(
    alloc: Global,
    target: &Target,
    out: &mut Vec<Fragment>,
) -> Result<(), AllocError>
    ensures { OnOk result (seen_fragments out.new.items
        ≡ seen_fragments out.old.items ++ written_target (seen_target target.now)) }
{
    match target {
        Target::One(variable) => push_variable(alloc, variable, out),
        Target::Several(bound) => {
            let mut inner = Vec::new(alloc);
            push_bound(alloc, bound, &mut inner)?;
            push_round(alloc, out, inner)
        }
    }
}

/// Adds what stands between the brackets of results.
fn push_given(
    alloc: Global,
    variables: &Vec<Variable>,
    rest: &Option<Variable>,
    out: &mut Vec<Fragment>,
) -> Result<(), AllocError>
    ensures { OnOk result (seen_fragments out.new.items
        ≡ seen_fragments out.old.items
        ++ written_given (map seen_variable variables.now.items)
        (option_map seen_variable rest.now)) }
{
    push_variables(alloc, variables, out)?;
    push_rest_variable(alloc, out, variables.is_empty(), rest)
}

/// Adds the results of a method behind their arrow, if there are any.
pub fn push_results(
    alloc: Global,
    results: &Option<Results>,
    out: &mut Vec<Fragment>,
) -> Result<(), AllocError>
    ensures { OnOk result (seen_fragments out.new.items
        ≡ seen_fragments out.old.items ++ written_results (option_map seen_results results.now)) }
{
    match results {
        Some(Results::Several { variables, rest }) => {
            push_mark(alloc, out, b"=>")?;
            let mut inner = Vec::new(alloc);
            push_given(alloc, variables, rest, &mut inner)?;
            push_round(alloc, out, inner)
        }
        Some(Results::One(variable)) => {
            push_mark(alloc, out, b"=>")?;
            push_variable(alloc, variable, out)
        }
        None => Ok(()),
    }
}
