//! Tests of tables of names and of orders of classes.
#![tactic(auto)]

#[cfg(test)]
mod tests;
