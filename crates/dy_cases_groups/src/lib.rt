//! Tests of groups: tokens in, fragments or a fault out.
#![tactic(auto)]

#[cfg(test)]
mod tests;
