//! The line of an error that nothing handles.

ghost use Rattle.std.specs.Prelude.{◌≡◌, ◌++◌, IfOk, OnOk};
ghost use Rattle.dy_values.specs.Errors as errors;
ghost use Rattle.dy_printing.specs.Printing.{Prints};
ghost use Rattle.dy_printing.specs.Unhandled as unhandled;

use crate::printing::{MOST_LEVELS, write_class_value, write_value};
use dy_base::{ClassId, Fuel, Text};
use dy_term::{Member, Program};
use dy_values::{ErrorRow, Store, built_in, class_name};
use std::alloc::{AllocError, Global};

/// The class of the condition that is signalled.
pub fn error_class(error: &ErrorRow) -> ClassId
    ensures { result ≡ errors.error_class error.now }
{
    match error {
        ErrorRow::Simple(_) => built_in(29),
        ErrorRow::WrongType(_, _) => built_in(30),
    }
}

fn write_type(program: &Program, members: &[Member], into: &mut Vec<u8>) -> Result<(), AllocError>
    ensures { OnOk result (into.new.items
        ≡ into.old.items ++ unhandled.type_text program.now members.now) }
{
    match members {
        [Member::Class(class)] => write_class_value(program, *class, into),
        _ => into.extend_from_slice(b"{type}"),
    }
}

/// What is printed of an error's condition. It is false where the units end first.
#[tactic(auto, using(crate::proofs::Printed::prints))]
fn write_error(
    program: &Program,
    store: &Store,
    error: &ErrorRow,
    fuel: &mut Fuel,
    into: &mut Vec<u8>,
) -> Result<bool, AllocError>
    ensures { IfOk result (λ done. Prints
        (unhandled.error_printed program.now store.now error.now fuel.old.left)
        done into.old.items into.new.items fuel.new.left) }
{
    if !fuel.take() {
        return Ok(false);
    }
    match error {
        ErrorRow::Simple(text) => into.extend_from_slice(text.bytes())?,
        ErrorRow::WrongType(value, expected) => {
            if !write_value(program, store, MOST_LEVELS - 1, true, *value, fuel, into)? {
                return Ok(false);
            }
            into.extend_from_slice(b" is not of type ")?;
            if !fuel.take() {
                return Ok(false);
            }
            write_type(program, expected.members.as_slice(), into)?;
        }
    }
    Ok(true)
}

/// How many units the text of an unhandled error has.
const UNITS: u64 = 65_536;

#[tactic(auto, using(crate::proofs::Cuts::cuts))]
fn write_cut(
    program: &Program,
    store: &Store,
    error: &ErrorRow,
    into: &mut Vec<u8>,
) -> Result<(), AllocError>
    ensures { OnOk result (into.new.items
        ≡ into.old.items ++ unhandled.error_text program.now store.now error.now) }
{
    let mut fuel = Fuel { left: UNITS };
    if !write_error(program, store, error, &mut fuel, into)? {
        into.extend_from_slice(b"...")?;
    }
    Ok(())
}

/// The line that tells of an error which nothing handles (DRM 7, "Conditions"): the class of its
/// condition, and the text, which is cut where it prints more than 65,536 values. It costs the run
/// nothing.
pub fn unhandled_line(
    alloc: Global,
    p: &Program,
    s: &Store,
    error: &ErrorRow,
) -> Result<Text, AllocError>
    ensures { IfOk result (λ line. line ≡ unhandled.unhandled_line p.now s.now error.now) }
{
    let mut line = Vec::from_slice(alloc, b"unhandled ")?;
    line.extend_from_slice(class_name(p, error_class(error)))?;
    line.extend_from_slice(b": ")?;
    write_cut(p, s, error, &mut line)?;
    Ok(Text::from_vec(line))
}
