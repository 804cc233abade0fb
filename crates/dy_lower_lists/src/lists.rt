//! Lists in which each item stands once, in the order of first use.

ghost use Rattle.std.specs.Prelude.{◌≡◌, ◌++◌, ℕ, List, [], IfOk, OnOk, map};
ghost use Rattle.indexmap.specs.IndexSet.{insert_key};
ghost use Rattle.dy_values.specs.Identity.{is_same_binding};
ghost use Rattle.dy_code.specs.Fetching.{Instruction};
ghost use Rattle.dy_lowered.specs.Flat.{placed, placed_from};
ghost use Rattle.dy_lowered.specs.Sameness.{is_same_literal, is_same_params, is_same_type};
ghost use Rattle.dy_lowered.specs.Sameness.{is_same_results};
ghost use Rattle.dy_lowered.specs.Tables.{tables_of, written};
ghost use Rattle.dy_lowered.specs.Terms as lowered;
ghost use Rattle.dy_lower_parts.specs.Seen.{seen, seen_code};
ghost use Rattle.dy_keys.specs.Keys.{literal_of, name_of, params_of, type_of, results_of};
ghost use Rattle.dy_lower_lists.specs.Listed.{tables, noted};

use crate::copies::{copy_declared, copy_literals, copy_names, copy_params, copy_results};
use crate::writing::write;
use dy_base::{BindingId, GenericId, Items, What};
use dy_code::Instr;
use dy_keys::{LiteralKey, NameKey, ParamsKey, ResultsKey, TypeKey};
use dy_lower_parts::{Buffer, Flat, Refusal};
use dy_term::{DyType, Literal, Params, Results};
use indexmap::IndexSet;
use std::alloc::Global;

/// The items that code names.
#[derive(Drop)]
pub struct Lists<'a> {
    pub(crate) constants: IndexSet<LiteralKey<'a>>,
    pub(crate) names: IndexSet<NameKey>,
    pub(crate) lists: IndexSet<ParamsKey<'a>>,
    pub(crate) types: IndexSet<TypeKey<'a>>,
    pub(crate) results: IndexSet<ResultsKey<'a>>,
}

/// The name of a generic function.
pub(crate) fn generic_named(generic: GenericId) -> BindingId
    ensures { result ≡ lowered.generic_named generic }
{
    BindingId {
        what: What::Generic,
        at: generic.0,
    }
}

fn add_literal<'a>(
    constants: &mut IndexSet<LiteralKey<'a>>,
    key: LiteralKey<'a>,
) -> Result<(), Refusal>
    ensures { OnOk result (map literal_of constants.new.keys
        ≡ insert_key is_same_literal (map literal_of constants.old.keys) (literal_of key.entry)) }
{
    constants.insert(key)?;
    Ok(())
}

fn add_name(names: &mut IndexSet<NameKey>, name: BindingId) -> Result<(), Refusal>
    ensures { OnOk result (map name_of names.new.keys
        ≡ insert_key is_same_binding (map name_of names.old.keys) name) }
{
    names.insert(NameKey(name))?;
    Ok(())
}

fn add_params<'a>(lists: &mut IndexSet<ParamsKey<'a>>, params: &'a Params) -> Result<(), Refusal>
    ensures { OnOk result (map params_of lists.new.keys
        ≡ insert_key is_same_params (map params_of lists.old.keys) params.now) }
{
    lists.insert(ParamsKey(params))?;
    Ok(())
}

fn add_type<'a>(types: &mut IndexSet<TypeKey<'a>>, declared: &'a DyType) -> Result<(), Refusal>
    ensures { OnOk result (map type_of types.new.keys
        ≡ insert_key is_same_type (map type_of types.old.keys) declared.now) }
{
    types.insert(TypeKey(declared))?;
    Ok(())
}

fn add_results<'a>(all: &mut IndexSet<ResultsKey<'a>>, results: &'a Results) -> Result<(), Refusal>
    ensures { OnOk result (map results_of all.new.keys
        ≡ insert_key is_same_results (map results_of all.old.keys) results.now) }
{
    all.insert(ResultsKey(results))?;
    Ok(())
}

impl<'a> Lists<'a> {
    /// No items.
    pub fn new(alloc: Global) -> Lists<'a>
        ensures { tables result ≡ tables_of [] }
    {
        let constants = IndexSet::new(alloc);
        let names = IndexSet::new(alloc);
        let lists = IndexSet::new(alloc);
        let types = IndexSet::new(alloc);
        let results = IndexSet::new(alloc);
        Lists {
            constants,
            names,
            lists,
            types,
            results,
        }
    }

    /// Adds the items that an instruction names.
    fn note(&mut self, flat: Flat<'a>) -> Result<(), Refusal>
        ensures { OnOk result ((place : ℕ)
            → tables self.new ≡ noted (tables self.old) (placed place (seen flat.entry))) }
    {
        match flat {
            Flat::Const(literal) => add_literal(&mut self.constants, LiteralKey::Written(literal)),
            Flat::Truth(value) => add_literal(&mut self.constants, LiteralKey::Truth(value)),
            Flat::Number(value) => add_literal(&mut self.constants, LiteralKey::Number(value)),
            Flat::Global(name) => add_name(&mut self.names, name),
            Flat::SetGlobal(name) => add_name(&mut self.names, name),
            Flat::CallKnown(name, _) => add_name(&mut self.names, name),
            Flat::Search(generic, _) => add_name(&mut self.names, generic_named(generic)),
            Flat::CheckResults(results) => add_results(&mut self.results, results),
            Flat::Args(params) => add_params(&mut self.lists, params),
            Flat::Handle(condition) => add_type(&mut self.types, condition),
            Flat::Local(_) | Flat::SetLocal(_) | Flat::NewCell(_) | Flat::CellGet(_) => Ok(()),
            Flat::CellSet(_) | Flat::Free(_) | Flat::FreeGet(_) | Flat::FreeSet(_) => Ok(()),
            Flat::Push | Flat::Jump(_) | Flat::JumpFalse(_) | Flat::Tick => Ok(()),
            Flat::Closure(_, _) | Flat::CallValue(_) | Flat::Return | Flat::Values(_) => Ok(()),
            Flat::Spread(_, _) | Flat::Op(_, _) | Flat::Save | Flat::Restore => Ok(()),
            Flat::Unhandle(_) | Flat::NoMatch => Ok(()),
        }
    }

    /// Adds the items that some code names.
    pub fn note_code(&mut self, code: &Buffer<'a>) -> Result<(), Refusal>
        ensures { OnOk result ((before : List Instruction) → tables self.old ≡ tables_of before
            → tables self.new ≡ tables_of (before ++ placed_from 0 (seen_code code.now))) }
    {
        let flats = code.flats();
        for index in 0..flats.len() {
            self.note(flats[index])?;
        }
        Ok(())
    }

    /// The code with its items by their places in the lists. All of them are noted before.
    pub fn written(&self, alloc: Global, code: &Buffer<'a>) -> Result<Items<Instr>, Refusal>
        ensures { IfOk result (λ instructions. instructions
            ≡ map (written (tables self.now)) (placed_from 0 (seen_code code.now))) }
    {
        let flats = code.flats();
        let mut instructions = Vec::new(alloc);
        for place in 0..flats.len() {
            let instruction = write(self, place, flats[place])?;
            instructions.push(instruction)?;
        }
        Ok(Items::from_vec(instructions))
    }

    /// The literals.
    pub fn constants(&self, alloc: Global) -> Result<Items<Literal>, Refusal>
        ensures { IfOk result (λ constants. constants ≡ (tables self.now).constants) }
    {
        let constants = copy_literals(alloc, self.constants.as_slice())?;
        Ok(constants)
    }

    /// The names.
    pub fn names(&self, alloc: Global) -> Result<Items<BindingId>, Refusal>
        ensures { IfOk result (λ names. names ≡ (tables self.now).names) }
    {
        let names = copy_names(alloc, self.names.as_slice())?;
        Ok(names)
    }

    /// The parameter lists.
    pub fn lists(&self, alloc: Global) -> Result<Items<Params>, Refusal>
        ensures { IfOk result (λ lists. lists ≡ (tables self.now).lists) }
    {
        let lists = copy_params(alloc, self.lists.as_slice())?;
        Ok(lists)
    }

    /// The types.
    pub fn types(&self, alloc: Global) -> Result<Items<DyType>, Refusal>
        ensures { IfOk result (λ types. types ≡ (tables self.now).types) }
    {
        let types = copy_declared(alloc, self.types.as_slice())?;
        Ok(types)
    }

    /// The lists of results.
    pub fn results(&self, alloc: Global) -> Result<Items<Results>, Refusal>
        ensures { IfOk result (λ results. results ≡ (tables self.now).results) }
    {
        let results = copy_results(alloc, self.results.as_slice())?;
        Ok(results)
    }
}
