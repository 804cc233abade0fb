//! Tokens, fragments and surface trees, as data.
#![tactic(auto)]

mod brackets;
mod definition_words;
mod expression;
mod form;
mod fragment;
mod macros;
mod roles;
mod splitters;
mod token;
mod type_words;
mod types;
mod variables;
mod words;

pub use brackets::{Bracket, Guard, Keyword};
pub use definition_words::{DefineWord, OptionWord, SlotWord};
pub use expression::{
    Alternative, Argument, Arm, BlockClause, Expression, ForClause, Item, Key, Keys, Limit,
    LocalMethod, Parameters, Statement, Stop,
};
pub use form::{Form, Slot, SlotOption};
pub use fragment::Fragment;
pub use macros::{Bindings, Macro, MacroKind, Rule};
pub use roles::{Precedence, Role};
pub use splitters::{Splitter, Splitting};
pub use token::{Token, TokenKind};
pub use type_words::{PartWord, TypeWord};
pub use types::{BoundForm, ConstantForm, IntegerForm, LiteralForm, SingleForm, TypeForm};
pub use variables::{Required, Results, Target, Variable, Variables};
pub use words::{Word, Words};
