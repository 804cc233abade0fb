//! Parameters with their results.

ghost use Rattle.std.specs.Prelude.{◌≡◌, map, option_map};
ghost use Rattle.dy_rules.specs.SeenForms.{seen_keys, seen_parameters};
ghost use Rattle.dy_rules.specs.SeenTypes.{seen_required, seen_results};
ghost use Rattle.dy_rules.specs.Trees as trees;
ghost use Rattle.dy_rules.specs.Held.{held_key, held_keys};
ghost use Rattle.dy_read_bodies.specs.Listed.{read_listed};
ghost use Rattle.dy_read_bodies.specs.Parameters.{kept_keys};
ghost use Rattle.dy_read_arms.specs.ReadBodies.{read_parameters};
ghost use Rattle.dy_read_types.specs.Results.{read_results};

use dy_read_shapes::keys_read::KeysRead;
use dy_read_statements::listed_read::ListedRead;
use dy_tree::{Keys, Parameters, Required, Results, Token};

fn keys_form(read: KeysRead) -> Keys
    ensures { seen_keys result
        ≡ trees.some_keys (trees.keys_of (map held_key read.keys.items)) read.takes_all }
{
    Keys {
        keys: read.keys,
        takes_all: read.takes_all,
    }
}

fn maybe_keys(read: Option<KeysRead>) -> Option<Keys>
    ensures { held_keys result ≡ kept_keys read }
{
    match read {
        Some(read) => Some(keys_form(read)),
        None => None,
    }
}

fn parameters_form(
    required: Vec<Required>,
    next: Option<Token>,
    rest: Option<Token>,
    keys: Option<Keys>,
    results: Option<Results>,
) -> Parameters
    ensures { seen_parameters result
        ≡ trees.parameters (map seen_required required.items) next rest (held_keys keys)
        (option_map seen_results results) }
{
    Parameters {
        required,
        next,
        rest,
        keys,
        results,
    }
}

/// The parameters that were read, with their results.
pub fn parameters_of(listed: ListedRead, results: Option<Results>) -> Parameters
    ensures { read_parameters result
        ≡ trees.parameters_of (read_listed listed) (option_map read_results results) }
{
    parameters_form(
        listed.required,
        listed.next,
        listed.rest,
        maybe_keys(listed.keys),
        results,
    )
}
