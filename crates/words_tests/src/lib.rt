//! Tests of the words of the command line, over the built crate.
#![tactic(auto)]

#[cfg(test)]
mod plans;
#[cfg(test)]
mod second_reader;
