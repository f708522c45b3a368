//! Tests of the calls that make texts of their own: each once where there is memory, as the program adds to a buffer
//! that it keeps.
#![tactic(auto)]

#[cfg(test)]
mod texts;
#[cfg(test)]
mod values;
