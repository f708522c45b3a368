//! Packets that are decoded by the code of databases, as cases that stand in a text: `cases.txt` of the folder where
//! this runs. A case gives a database, a packet, and the lines that its questions and its tree have to be. One that
//! doesn't come out as it says is printed with the lines that came; the last line counts them.
#![tactic(auto)]

mod answers;
mod asked;
mod case;
mod decoding;
mod hexadecimal;
mod outline;
mod shown;

use case::Case;
use std::process::ExitCode;
use std::rt::Files;
use std::{fs, io};

/// Whether a case holds. What came of one that doesn't is printed.
fn holds(rt: &(impl Files + AllocGlobal + Print), lines: &str) -> io::Result<bool> {
    let (head, rest) = lines.split_once('\n').unwrap_or((lines, ""));
    let mut case = Case::begin(rt.alloc());
    for line in rest.lines() {
        if case.takes(rt, line).is_none() {
            println!(rt; "{head}: {line} (isn't read)")?;
            return Ok(false);
        }
    }
    shown::comes(rt, head, &case)
}

/// Whether all cases hold, of which there is at least one.
fn all_hold(rt: &(impl Files + AllocGlobal + Print)) -> io::Result<bool> {
    let text = fs::read_to_string(rt, "cases.txt")?;
    let mut count = 0u32;
    let mut failed = 0u32;
    for lines in text.trim_end().split("\n\n") {
        count = count.saturating_add(1);
        if !holds(rt, lines)? {
            failed = failed.saturating_add(1);
        }
    }
    println!(rt; "{count} cases, {failed} failed")?;
    Ok(failed == 0)
}

fn main(rt: HostRuntime) -> ExitCode {
    match all_hold(&rt) {
        Ok(true) => ExitCode::SUCCESS,
        Ok(false) => ExitCode::FAILURE,
        Err(_) => {
            let _ = rt.eprint("engine_cases: cases.txt isn't read, or the outcome isn't printed\n");
            ExitCode::from(2)
        }
    }
}
