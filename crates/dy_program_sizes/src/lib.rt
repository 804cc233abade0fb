//! The law that the numbers of libraries and of programs have 32 bits. There is no code: the
//! contract is the law.
#![tactic(auto)]

mod laws;

pub use laws::program_size_laws;
