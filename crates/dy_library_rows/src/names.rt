//! What names mean outside of bodies.

ghost use Rattle.std.specs.Prelude.{◌≡◌, ◌+◌, map, IfOk, OnOk};
ghost use Rattle.dy_term.specs.Types.{seen_typed};
ghost use Rattle.dy_term.specs.Rows.{seen_slot, seen_draft};
ghost use Rattle.dy_library_rows.specs.Names.{next_row, counted, what_of, slots_names};
ghost use Rattle.dy_library_rows.specs.Names.{defined, with_name, with_names, names_of};
ghost use Rattle.dy_names.specs.Tables.{owner_in};
ghost use Rattle.dy_library_rows.specs.Seen.{seen_names};

use crate::exports::{exports, take_row};
use crate::types::plain_type;
use dy_base::{BindingId, Place, Ref, Refusal, What};
use dy_names::{Environment, OwnerTable, Scope};
use dy_term::{Draft, DraftSlot, DraftTop, DraftType, DraftVariable, DyType};
use dy_tree::Token;
use std::alloc::{AllocError, Global};

/// How many rows of each kind a library has. Constants and functions are rows of the variables.
#[derive(Clone, Copy, Debug, PartialEq, Eq)]
pub struct RowCounts {
    pub classes: u32,
    pub generics: u32,
    pub variables: u32,
}

/// The number of the program's own library, which stands behind `dylan` and `io`.
const OWN: u32 = 2;

impl RowCounts {
    fn take(&mut self, what: What) -> Result<u32, AllocError>
        ensures row { IfOk result (λ row. row ≡ next_row what self.old) }
        ensures after { OnOk result (self.new ≡ counted what self.old) }
    {
        match what {
            What::Class => take_row(&mut self.classes),
            What::Generic => take_row(&mut self.generics),
            What::Variable | What::Constant | What::Function | What::Macro => {
                take_row(&mut self.variables)
            }
        }
    }
}

/// What names mean at this stage: those that a program defines, and those that `dylan` and `io`
/// export. No name means a type.
#[derive(Drop)]
pub struct Names {
    pub owners: OwnerTable,
    /// The rows of the program's own library so far.
    pub rows: RowCounts,
}

impl Environment for Names {
    ghost use Rattle.dy_names.specs.Tables.{owner_in};
    ghost use Rattle.dy_library_rows.specs.Names.{outside_with};

    ghost outside = { λ n. outside_with (owner_in n.owners) };

    fn owner(&self, alloc: Global, name: &Token) -> Result<Option<BindingId>, AllocError> {
        self.owners.get(alloc, name)
    }

    fn type_of(&self, alloc: Global, _scope: &Scope, draft: &DraftType) -> Result<DyType, Refusal> {
        plain_type(alloc, draft)
    }
}

impl Names {
    /// Gives a name the next row of what it is, where it means nothing yet.
    fn define(&mut self, alloc: Global, name: &Token, what: What) -> Result<(), AllocError>
        ensures { OnOk result (seen_names self.new
            ≡ with_name (name.now, what) (seen_names self.old)) }
    {
        if self.owner(alloc, name)?.is_some() {
            return Ok(());
        }
        let row = self.rows.take(what)?;
        let at = Ref { library: OWN, row };
        self.owners.set(
            alloc,
            name.module,
            name.text.bytes(),
            BindingId { what, at },
        )
    }

    fn define_slots(&mut self, alloc: Global, slots: &Vec<DraftSlot>) -> Result<(), AllocError>
        ensures { OnOk result (seen_names self.new
            ≡ with_names (slots_names (map seen_slot slots.now.items)) (seen_names self.old)) }
    {
        for slot in slots {
            self.define(alloc, &slot.getter, What::Generic)?;
            if let Some(setter) = &slot.setter {
                self.define(alloc, setter, What::Generic)?;
            }
        }
        Ok(())
    }

    fn define_variables(
        &mut self,
        alloc: Global,
        is_constant: bool,
        variables: &Vec<(Token, DraftType)>,
    ) -> Result<(), AllocError>
        ensures { OnOk result (seen_names self.new
            ≡ with_names (map (λ v. (v.0, what_of is_constant)) (map seen_typed variables.now.items))
            (seen_names self.old)) }
    {
        let what = if is_constant {
            What::Constant
        } else {
            What::Variable
        };
        for (name, _declared) in variables {
            self.define(alloc, name, what)?;
        }
        Ok(())
    }

    fn define_draft(&mut self, alloc: Global, draft: &Draft) -> Result<(), AllocError>
        ensures { OnOk result (seen_names self.new
            ≡ with_names (defined (seen_draft draft.now)) (seen_names self.old)) }
    {
        match draft {
            Draft::Class(class) => {
                self.define(alloc, &class.name, What::Class)?;
                self.define_slots(alloc, &class.slots)
            }
            Draft::Generic(generic) => self.define(alloc, &generic.name, What::Generic),
            Draft::Method(method) => self.define(alloc, &method.generic, What::Generic),
            Draft::Domain(_) => Ok(()),
            Draft::Variable(DraftVariable::Function(_, name, _)) => {
                self.define(alloc, name, What::Function)
            }
            Draft::Variable(DraftVariable::Type(name, _, _)) => {
                self.define(alloc, name, What::Constant)
            }
            Draft::Top(
                DraftTop::Init {
                    is_constant,
                    variables,
                    term: _,
                },
            ) => self.define_variables(alloc, *is_constant, variables),
            Draft::Top(DraftTop::Run(_)) => Ok(()),
        }
    }
}

/// What the names of a program with these forms mean. A name that two forms define is the first
/// form's. The one error is want of memory, or of numbers for rows.
pub fn names_of(alloc: Global, forms: &[(Place, Draft)]) -> Result<Names, AllocError>
    ensures { IfOk result
        (λ names. owner_in names.owners ≡ names_of (map (λ f. seen_draft f.1) forms.now)) }
{
    let mut names = Names {
        owners: exports(alloc)?,
        rows: RowCounts {
            classes: 0,
            generics: 0,
            variables: 0,
        },
    };
    for (_place, draft) in forms {
        names.define_draft(alloc, draft)?;
    }
    Ok(names)
}
