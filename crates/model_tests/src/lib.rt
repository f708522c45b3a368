//! Tests of the calls of the lower crates: each that takes memory once where there is some, and, of what contracts
//! say by a definition, values that are known from elsewhere.
#![tactic(auto)]

#[cfg(test)]
mod databases;
#[cfg(test)]
mod parts;
#[cfg(test)]
mod values;
