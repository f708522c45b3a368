//! Tests of what is read from database texts, over the built crates. Which texts are refused, with what line and
//! code, are cases of `npd_cases`.
#![tactic(auto)]

#[cfg(test)]
mod contents;
#[cfg(test)]
mod databases;
#[cfg(test)]
mod elements;
#[cfg(test)]
mod outline;
#[cfg(test)]
mod whole;
