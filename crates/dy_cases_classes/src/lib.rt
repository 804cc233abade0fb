//! Tests of class order and of legal classes.
#![tactic(auto)]

#[cfg(test)]
mod tests;
