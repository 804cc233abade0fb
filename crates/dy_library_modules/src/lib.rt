//! The source files of a library as texts: its modules, or the first fault of its texts and of the
//! files that define it.
#![tactic(auto)]

mod laws;
mod lexing;
mod own_modules;
mod user_files;
mod word_list;

pub use laws::module_phase_laws;
pub use lexing::{Lexed, lex_files};
pub use own_modules::{LibraryModules, modules_of};
pub use user_files::is_user;
pub use word_list::words;
