//! Names, assignments to them and calls of them, by what they mean.

ghost use Rattle.std.specs.Prelude.{◌≡◌, IfOk, OnOk};
ghost use Rattle.dy_term.specs.Drafts.{seen_term};
ghost use Rattle.dy_binding.specs.Names.{denoted, is_next, owned, named, hidden_term, placed};
ghost use Rattle.dy_binding.specs.Names.{assigned, head_meant, head_of, is_variable};

use crate::progress::{Progress, tell_name};
use dy_base::{BindingId, Boxed, ClassId, GenericId, Kind, What};
use dy_names::{Denotation, Environment, Meaning, Scope, meaning};
use dy_term::{DraftTerm, Literal, Term};
use dy_tree::Token;
use std::alloc::{AllocError, Global};

/// What is called.
#[derive(Clone, Copy, Debug, PartialEq, Eq)]
pub enum Head {
    /// A generic function by its name.
    Generic(GenericId),
    NextMethod,
    /// What a term gives.
    Value,
}

fn denoted(denotation: Denotation) -> Term
    ensures { result ≡ denoted denotation }
{
    match denotation {
        Denotation::Local(number) => Term::Local(number),
        Denotation::NextMethod => Term::Next(None),
        Denotation::NoMethod => Term::Lit(Literal::Bool(false)),
    }
}

/// Whether the name of a next method stands for one.
pub fn is_next(denotation: Denotation) -> bool
    ensures { result ≡ is_next denotation }
{
    match denotation {
        Denotation::Local(_) => false,
        Denotation::NextMethod => true,
        Denotation::NoMethod => false,
    }
}

/// The term of a hidden local.
pub fn hidden_term(denotation: Option<Denotation>) -> Term
    ensures { result ≡ hidden_term denotation }
{
    match denotation {
        None => Term::Lit(Literal::Bool(false)),
        Some(denotation) => denoted(denotation),
    }
}

fn owned(
    alloc: Global,
    progress: &mut Progress,
    name: &Token,
    binding: BindingId,
) -> Result<Term, AllocError>
    ensures term { IfOk result
        (λ term. term ≡ (owned name.now binding binding.what progress.old).0) }
    ensures after { OnOk result
        (progress.new ≡ (owned name.now binding binding.what progress.old).1) }
{
    match binding.what {
        What::Class => Ok(Term::ClassName(ClassId(binding.at))),
        What::Generic => Ok(Term::GenericName(GenericId(binding.at))),
        What::Variable | What::Constant | What::Function => Ok(Term::Global(binding)),
        What::Macro => {
            tell_name(alloc, progress, Kind::Unbound, name)?;
            Ok(Term::Lit(Literal::Bool(false)))
        }
    }
}

/// The term of a name.
pub fn name_term(
    alloc: Global,
    progress: &mut Progress,
    meaning: Meaning,
    name: &Token,
) -> Result<Term, AllocError>
    ensures term { IfOk result (λ term. term ≡ (named name.now meaning progress.old).0) }
    ensures after { OnOk result (progress.new ≡ (named name.now meaning progress.old).1) }
{
    match meaning {
        Meaning::InForce(denotation) => Ok(denoted(denotation)),
        Meaning::Owned(binding) => owned(alloc, progress, name, binding),
        Meaning::Unbound => {
            tell_name(alloc, progress, Kind::Unbound, name)?;
            Ok(Term::Lit(Literal::Bool(false)))
        }
    }
}

fn is_variable(what: What) -> bool
    ensures { result ≡ is_variable what }
{
    match what {
        What::Variable => true,
        What::Class | What::Generic | What::Constant | What::Function | What::Macro => false,
    }
}

/// Notes what is wrong with an assignment to a name.
pub fn check_place(
    alloc: Global,
    progress: &mut Progress,
    meaning: Meaning,
    name: &Token,
) -> Result<(), AllocError>
    ensures { OnOk result (progress.new ≡ placed name.now meaning progress.old) }
{
    match meaning {
        Meaning::InForce(Denotation::Local(_)) => Ok(()),
        Meaning::InForce(Denotation::NextMethod) => {
            tell_name(alloc, progress, Kind::NotAssignable, name)
        }
        Meaning::InForce(Denotation::NoMethod) => {
            tell_name(alloc, progress, Kind::NotAssignable, name)
        }
        Meaning::Owned(binding) => {
            if is_variable(binding.what) {
                Ok(())
            } else {
                tell_name(alloc, progress, Kind::NotAssignable, name)
            }
        }
        Meaning::Unbound => tell_name(alloc, progress, Kind::Unbound, name),
    }
}

/// An assignment to a name.
pub fn assignment(alloc: Global, meaning: Meaning, value: Term) -> Result<Term, AllocError>
    ensures { IfOk result (λ term. term ≡ assigned meaning value) }
{
    match meaning {
        Meaning::InForce(Denotation::Local(number)) => {
            Ok(Term::SetLocal(number, Boxed::new(alloc, value)?))
        }
        Meaning::InForce(Denotation::NextMethod) => Ok(value),
        Meaning::InForce(Denotation::NoMethod) => Ok(value),
        Meaning::Owned(binding) => Ok(Term::SetGlobal(binding, Boxed::new(alloc, value)?)),
        Meaning::Unbound => Ok(value),
    }
}

fn head_meant(meaning: Meaning) -> Head
    ensures { result ≡ head_meant meaning }
{
    match meaning {
        Meaning::InForce(Denotation::Local(_)) => Head::Value,
        Meaning::InForce(Denotation::NextMethod) => Head::NextMethod,
        Meaning::InForce(Denotation::NoMethod) => Head::Value,
        Meaning::Owned(binding) => match binding.what {
            What::Generic => Head::Generic(GenericId(binding.at)),
            What::Class | What::Variable | What::Constant | What::Function | What::Macro => {
                Head::Value
            }
        },
        Meaning::Unbound => Head::Value,
    }
}

/// What is called by a term.
pub fn head_of<E: Environment>(
    alloc: Global,
    environment: &E,
    function: &DraftTerm,
    scope: &Scope,
) -> Result<Head, AllocError>
    ensures { IfOk result (λ head. head
        ≡ head_of (E.outside environment.now) (seen_term function.now) scope.now) }
{
    match function {
        DraftTerm::Name(name) => Ok(head_meant(meaning(alloc, environment, scope, name)?)),
        _ => Ok(Head::Value),
    }
}
