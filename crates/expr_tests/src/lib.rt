//! Tests of expressions over the built crates.
#![tactic(auto)]

#[cfg(test)]
mod evaluation;
#[cfg(test)]
mod text;
