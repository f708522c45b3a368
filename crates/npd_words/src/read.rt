ghost use Rattle.std.specs.Prelude.{◌≡◌, ◌<◌, ◌^◌, Ok, Err, IfOk, IfErr, length, map, string_bytes};
ghost use Rattle.npd_words.specs.Asked.{asked, planned, IfFault};
ghost use Rattle.npd_words.specs.Ranges.{IsInRange};

use crate::command::command_of;
use crate::fail::fault;
use crate::given::Given;
use crate::names::{lacks, same_name};
use crate::options::read_options;
use crate::plan::plan_of;
use crate::{Cause, Command, Plan, WordsFail, rows};
use std::alloc::Global;

/// The plan of options that may each stand so, of a command of so many words.
fn plan_by(alloc: Global, command: Command, count: u32, given: &[Given]) -> Result<Plan, WordsFail>
    ensures plan { IfOk result (λ p. planned command count given.now ≡ Ok p) }
    ensures fault { IfErr result (λ e. IfFault e (λ f. planned command count given.now ≡ Err f)) }
{
    if lacks(given, rows(command)) {
        return Err(fault(count, Cause::MissingOption));
    }
    match same_name(given) {
        Some(index) => Err(fault(index, Cause::SameName)),
        None => Ok(plan_of(alloc, command, given)?),
    }
}

/// The plan that the words behind the program's name ask for. Else the first fault, by the index of its word and the
/// code of its cause (`Cause`): the words are read from the left, and of several faults at one word that of the least
/// code is answered.
pub fn read_words(alloc: Global, words: &[String]) -> Result<Plan, WordsFail>
    requires { length words.now < 2 ^ 32 }
    ensures plan { IfOk result (λ p. asked (map string_bytes words.now) ≡ Ok p) }
    ensures fault { IfErr result (λ e. IfFault e (λ f. asked (map string_bytes words.now) ≡ Err f)) }
    ensures range { IfOk result IsInRange }
{
    let Some((first, rest)) = words.split_first() else {
        return Err(fault(0, Cause::NoWord));
    };
    let Some(command) = command_of(first.as_str()) else {
        return Err(fault(0, Cause::UnknownCommand));
    };
    let given = read_options(alloc, rows(command), rest)?;
    plan_by(alloc, command, words.len() as u32, given.as_slice())
}
