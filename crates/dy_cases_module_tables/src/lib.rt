//! Tests of `dy_modules`: modules as rows in, what each of them sees out.
#![tactic(auto)]

#[cfg(test)]
mod modules;
#[cfg(test)]
mod rows;
#[cfg(test)]
mod tests;
