//! The constructs of statements (DRM 7, "Statements").

ghost use Rattle.std.specs.Prelude.{◌≡◌};
ghost use Rattle.dy_rules.specs.SeenForms.{seen_statement};
ghost use Rattle.dy_construct_parts.specs.Table.{first_absent};
ghost use Rattle.dy_constructs.specs.Bodies as bodies;

use crate::bodies::{in_body, in_else, in_last};
use crate::choices::{in_alternatives, in_arms, in_selector};
use crate::expressions::{in_test, in_value};
use crate::parameters::in_parameters;
use crate::scopes::{in_clauses, in_loop, in_stop};
use dy_construct_parts::construct::{Construct, absent};
use dy_construct_parts::parts::where_given;
use dy_construct_parts::words::guarded;
use dy_tree::Statement;

#[cycle(trees)]
pub(crate) fn in_statement(statement: &Statement) -> Option<Construct>
    ensures { result ≡ first_absent (bodies.in_tree (seen_statement statement.now)) }
{
    match statement {
        Statement::Begin { body, .. } => absent(Construct::Begin).or(in_body(body)),
        Statement::Method {
            parameters,
            body,
            ..
        } => absent(Construct::AnonymousMethod)
            .or(in_parameters(parameters))
            .or(in_body(body)),
        Statement::If {
            test,
            body,
            alternatives,
            otherwise,
            ..
        } => absent(Construct::If)
            .or(in_test(test))
            .or(in_body(body))
            .or(in_alternatives(alternatives))
            .or(in_else(otherwise)),
        Statement::Guarded {
            guard,
            test,
            body,
            ..
        } => absent(guarded(*guard)).or(in_test(test)).or(in_body(body)),
        Statement::Case {
            arms,
            otherwise,
            ..
        } => absent(Construct::Case)
            .or(in_arms(arms))
            .or(in_last(Construct::Otherwise, otherwise)),
        Statement::Select {
            value,
            test,
            arms,
            otherwise,
            ..
        } => absent(Construct::Select)
            .or(in_value(value))
            .or(in_selector(test))
            .or(in_arms(arms))
            .or(in_last(Construct::Otherwise, otherwise)),
        Statement::Block {
            exit,
            body,
            clauses,
            ..
        } => absent(Construct::Block)
            .or(where_given(Construct::BlockExit, exit))
            .or(in_body(body))
            .or(in_clauses(clauses)),
        Statement::For {
            clauses,
            stop,
            body,
            finally,
            ..
        } => absent(Construct::For)
            .or(in_loop(clauses))
            .or(in_stop(stop))
            .or(in_body(body))
            .or(in_last(Construct::Finally, finally)),
    }
}
