//! Tests of subtypes, instances and meets.
#![tactic(auto)]

#[cfg(test)]
mod tests;
