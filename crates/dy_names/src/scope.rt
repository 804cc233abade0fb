//! The locals in force.

ghost use Rattle.std.specs.Prelude.{◌≡◌, ◌∷◌, ◌-◌, [], IfOk, OnOk, length, drop};
ghost use Rattle.dy_term.specs.declared.draft.Local.TheVariants.{Named, Hidden};
ghost use Rattle.dy_names.specs.Naming.{innermost};
ghost use Rattle.dy_names.specs.Tables.{flat};

use crate::denotation::Denotation;
use dy_term::Local;
use dy_tree::Token;
use std::alloc::{AllocError, Global};
use std::collections::BTreeMap;
use std::marker::Model;

/// A local in force, what it stands for, and what the one that it hides stands for.
#[derive(Debug, Drop)]
pub struct Bound {
    pub local: Local,
    pub denotation: Denotation,
    pub outer: Option<Denotation>,
}

/// The locals in force, each with what it stands for. Contracts see them as a list, the innermost
/// first. The innermost one of each name is found in logarithmic time.
#[derive(Drop)]
pub struct Scope {
    bound: Vec<Bound>,
    named: BTreeMap<(u32, Vec<u8>), Option<Denotation>>,
    hidden: BTreeMap<usize, Option<Denotation>>,
}

impl Model for Scope {
    ghost use Rattle.std.specs.Prelude.{reverse};
    ghost use Rattle.dy_names.specs.Naming.{Locals};
    ghost use Rattle.dy_names.specs.Tables.{locals_of, IsKept};

    ghost Value = { Locals };

    ghost view = { λ s. locals_of s.bound.items };

    ghost invariant = { λ s. IsKept (reverse s.bound.items) s.named.entries s.hidden.entries };
}

impl Scope {
    /// No local is in force. It takes no memory.
    pub fn new(alloc: Global) -> Scope
        ensures { result ≡ [] }
    {
        Scope {
            bound: Vec::new(alloc),
            named: BTreeMap::new(alloc),
            hidden: BTreeMap::new(alloc),
        }
    }

    /// How many locals are in force.
    pub fn len(&self) -> usize
        ensures { result ≡ length self.now }
    {
        self.bound.len()
    }

    /// What the innermost local of this text and this origin stands for. The one error is want of
    /// memory.
    pub fn find(&self, alloc: Global, name: &Token) -> Result<Option<Denotation>, AllocError>
        ensures { IfOk result (λ found. found ≡ innermost self.now (Named name.now)) }
    {
        let key = (name.origin, name.text.bytes().to_vec(alloc)?);
        Ok(flat(self.named.get(&key).copied()))
    }

    /// What the innermost hidden local of this number stands for.
    pub fn find_hidden(&self, number: usize) -> Option<Denotation>
        ensures { result ≡ innermost self.now (Hidden number) }
    {
        flat(self.hidden.get(&number).copied())
    }

    /// Puts a name in force, inside of all others. An `Err` is want of memory, and nothing is said
    /// of what is in force then.
    pub fn bind(
        &mut self,
        alloc: Global,
        name: &Token,
        denotation: Denotation,
    ) -> Result<(), AllocError>
        ensures { OnOk result (self.new ≡ (Named name.now, denotation) ∷ self.old) }
    {
        let key = (name.origin, name.text.bytes().to_vec(alloc)?);
        let local = Local::Named(name.copy()?);
        let outer = flat(self.named.get(&key).copied());
        self.bound.push(Bound {
            local,
            denotation,
            outer,
        })?;
        match self.named.insert(key, Some(denotation)) {
            Ok(_) => Ok(()),
            Err(_) => {
                self.bound.pop();
                Err(AllocError)
            }
        }
    }

    /// Puts a hidden local in force, inside of all others. An `Err` is want of memory, and nothing
    /// is said of what is in force then.
    pub fn bind_hidden(&mut self, number: usize, denotation: Denotation) -> Result<(), AllocError>
        ensures { OnOk result (self.new ≡ (Hidden number, denotation) ∷ self.old) }
    {
        let outer = flat(self.hidden.get(&number).copied());
        self.bound.push(Bound {
            local: Local::Hidden(number),
            denotation,
            outer,
        })?;
        match self.hidden.insert(number, Some(denotation)) {
            Ok(_) => Ok(()),
            Err(_) => {
                self.bound.pop();
                Err(AllocError)
            }
        }
    }

    /// Puts a local in force, inside of all others. An `Err` is want of memory, and nothing is said
    /// of what is in force then.
    pub fn bind_local(
        &mut self,
        alloc: Global,
        local: &Local,
        denotation: Denotation,
    ) -> Result<(), AllocError>
        ensures { OnOk result (self.new ≡ (local.now, denotation) ∷ self.old) }
    {
        match local {
            Local::Named(name) => self.bind(alloc, name, denotation),
            Local::Hidden(number) => self.bind_hidden(*number, denotation),
        }
    }

    /// Takes the innermost local out of force. It takes no memory.
    pub fn leave(&mut self)
        ensures { self.new ≡ drop 1 self.old }
    {
        match self.bound.pop() {
            None => {}
            Some(
                Bound {
                    local,
                    denotation: _,
                    outer,
                },
            ) => match local {
                Local::Named(name) => {
                    let key = (name.origin, name.text.into_vec());
                    let _put = self.named.insert(key, outer);
                }
                Local::Hidden(number) => {
                    let _put = self.hidden.insert(number, outer);
                }
            },
        }
    }

    /// Takes locals out of force until there are so many.
    pub fn leave_to(&mut self, len: usize)
        ensures { self.new ≡ drop (length self.old - len) self.old }
    {
        while self.len() > len {
            self.leave();
        }
    }
}

fn flat(entry: Option<Option<Denotation>>) -> Option<Denotation>
    ensures { result ≡ flat entry }
{
    match entry {
        Some(denotation) => denotation,
        None => None,
    }
}
