//! The core language: literals, types, terms, the rows of a library, and drafts of them.
#![tactic(auto)]

mod draft;
mod literal;
mod rows;
mod statements;
mod term;
mod terms;
mod types;

pub use draft::{
    Draft, DraftArm, DraftBlock, DraftBlockClause, DraftClass, DraftDomain, DraftFor,
    DraftForClause, DraftGeneric, DraftInit, DraftItem, DraftKey, DraftLambda, DraftMethod,
    DraftParams, DraftResults, DraftSlot, DraftTerm, DraftTop, DraftType, DraftVariable, Local,
};
pub use literal::{Literal, list_literal};
pub use rows::{
    ClassRow, DomainRow, GenericRow, Init, LibraryRow, MethodCode, MethodRow, Program, Row,
    SlotKind, SlotRow, TopTerm, VariableRow,
};
pub use statements::{
    block_draft, for_draft, from_draft, local_draft, method_draft, select_draft, union_draft,
    values_draft,
};
pub use term::{BlockRow, ForClause, ForRow, Item, Lambda, Limit, Term};
pub use terms::{
    and_draft, body_draft, call_draft, cond_draft, loop_draft, no_place_draft, or_draft, set_draft,
};
pub use types::{DyType, Member, Params, Results, Shape1};
