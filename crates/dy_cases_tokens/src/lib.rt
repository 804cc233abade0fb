//! Tests of the lexer: text in, tokens or a fault out; and of LID files.
#![tactic(auto)]

#[cfg(test)]
mod tests;
