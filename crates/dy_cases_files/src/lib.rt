//! Tests of files and sinks, in memory and of the host.
#![tactic(auto)]

#[cfg(test)]
mod tests;
