//! Tests of the hosts and of the reader of captures, by their public calls.
#![tactic(auto)]

#[cfg(test)]
mod captures;
#[cfg(test)]
mod fake;
#[cfg(test)]
mod files;
#[cfg(test)]
mod memory;
#[cfg(test)]
mod sizes;
#[cfg(test)]
mod steps;
