//! Whether all terms of a library are of kinds that have code.
#![tactic(auto, using(crate::proofs::Both::and_assoc, crate::proofs::Both::and_all))]

ghost use Rattle.std.specs.Prelude.{◌≡◌, true};
ghost use Rattle.std.specs.List.{list_all};
ghost use Rattle.dy_lowering_whole.specs.Lowered.{is_library_lowered};
ghost use Rattle.dy_lower_kinds.specs.Kinds.{method_has_code, function_has_code, init_has_code};
ghost use Rattle.dy_lower_kinds.specs.Kinds.{class_has_code, top_has_code, library_has_code};

use crate::terms::{both, has_code, lambda_has_code};
use dy_base::Items;
use dy_term::{
    ClassRow, Init, Lambda, LibraryRow, MethodCode, MethodRow, SlotRow, TopTerm, VariableRow,
};

fn method_has_code(code: &MethodCode) -> bool
    ensures { result ≡ method_has_code code.now }
{
    match code {
        MethodCode::Dylan(lambda) => lambda_has_code(lambda),
        _ => true,
    }
}

fn methods_have_code(rows: &Items<MethodRow>) -> bool
    ensures { result ≡ list_all (λ method. method_has_code method.code) rows.now }
{
    let mut all = true;
    for row in rows.as_slice() {
        all = both(all, method_has_code(&row.code));
    }
    all
}

fn function_has_code(function: &Option<Lambda>) -> bool
    ensures { result ≡ function_has_code function.now }
{
    match function {
        None => true,
        Some(lambda) => lambda_has_code(lambda),
    }
}

fn functions_have_code(rows: &Items<VariableRow>) -> bool
    ensures { result ≡ list_all (λ variable. function_has_code variable.function) rows.now }
{
    let mut all = true;
    for row in rows.as_slice() {
        all = both(all, function_has_code(&row.function));
    }
    all
}

fn init_has_code(init: &Option<Init>) -> bool
    ensures { result ≡ init_has_code init.now }
{
    match init {
        None => true,
        Some(Init::Each(term)) => has_code(term),
        Some(Init::Calling(term)) => has_code(term),
    }
}

fn slots_have_code(rows: &Items<SlotRow>) -> bool
    ensures { result ≡ list_all (λ slot. init_has_code slot.init) rows.now }
{
    let mut all = true;
    for row in rows.as_slice() {
        all = both(all, init_has_code(&row.init));
    }
    all
}

fn classes_have_code(rows: &Items<ClassRow>) -> bool
    ensures { result ≡ list_all class_has_code rows.now }
{
    let mut all = true;
    for row in rows.as_slice() {
        all = both(all, slots_have_code(&row.slots));
    }
    all
}

fn top_has_code(top: &TopTerm) -> bool
    ensures { result ≡ top_has_code top.now }
{
    match top {
        TopTerm::Init(_, term) => has_code(term),
        TopTerm::Run(term) => has_code(term),
    }
}

fn tops_have_code(rows: &Items<TopTerm>) -> bool
    ensures { result ≡ list_all top_has_code rows.now }
{
    let mut all = true;
    for row in rows.as_slice() {
        all = both(all, top_has_code(row));
    }
    all
}

fn all_have_code(library: &LibraryRow) -> bool
    ensures { result ≡ library_has_code library.now }
{
    let tops = both(
        functions_have_code(&library.variables),
        tops_have_code(&library.tops),
    );
    let methods = both(methods_have_code(&library.methods), tops);
    both(classes_have_code(&library.classes), methods)
}

/// Whether each term of a library is of a kind that has code, and each part of it. It is linear in
/// the library.
pub fn library_has_code(library: &LibraryRow) -> bool
    ensures kinds { result ≡ library_has_code library.now }
    // Each library that is lowered yet is of such kinds.
    ensures lowered { is_library_lowered library.now ≡ true → result ≡ true }
{
    all_have_code(library)
}
