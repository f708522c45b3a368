//! Whole runs of npd's top call, as cases that stand in a text: `cases.txt` of the folder where this runs. A case
//! that doesn't come out as it says is printed with its line that doesn't hold; a line counts them. Then the lines
//! of `rows.txt`, which say what `check` answers of a text for each cell of the table of elements.
#![tactic(auto)]

mod case;
mod escape;
mod judged;
mod output;
mod rows;

use case::Case;
use rows::rows_hold;
use std::process::ExitCode;
use std::rt::Files;
use std::{fs, io};

/// Whether a case that began holds. The first line that doesn't is printed.
fn begun_holds(
    rt: &(impl Files + AllocGlobal + Print),
    case: &mut Case,
    head: &str,
    rest: &str,
) -> io::Result<bool> {
    for line in rest.lines() {
        if !case.takes(rt, line) {
            println!(rt; "{head}: {line} (ended {})", case.end())?;
            return Ok(false);
        }
    }
    if !case.is_judged() {
        println!(rt; "{head}: it doesn't say how it ends")?;
    }
    Ok(case.is_judged())
}

/// Whether a case holds.
fn holds(rt: &(impl Files + AllocGlobal + Print), lines: &str) -> io::Result<bool> {
    let (head, rest) = lines.split_once('\n').unwrap_or((lines, ""));
    match Case::begin(rt.alloc(), head) {
        Some(mut case) => {
            let holds = begun_holds(rt, &mut case, head, rest);
            drop(case);
            holds
        }
        None => {
            println!(rt; "{head}: no case begins so")?;
            Ok(false)
        }
    }
}

/// Whether all cases hold, of which there is at least one.
fn all_hold(rt: &(impl Files + AllocGlobal + Print)) -> io::Result<bool> {
    let text = fs::read_to_string(rt, "cases.txt")?;
    let mut count = 0u32;
    let mut failed = 0u32;
    for lines in text.trim_end().split("\n\n") {
        count = count.saturating_add(1);
        if !holds(rt, lines)? {
            failed = failed.saturating_add(1);
        }
    }
    println!(rt; "{count} cases, {failed} failed")?;
    Ok(failed == 0)
}

/// Whether all cases and all rows hold.
fn both_hold(rt: &(impl Files + AllocGlobal + Print)) -> io::Result<bool> {
    let cases = all_hold(rt)?;
    let rows = rows_hold(rt)?;
    Ok(cases && rows)
}

fn main(rt: HostRuntime) -> ExitCode {
    match both_hold(&rt) {
        Ok(true) => ExitCode::SUCCESS,
        Ok(false) => ExitCode::FAILURE,
        Err(_) => {
            let _ = rt.eprint("npd_cases: a file isn't read, or the outcome isn't printed\n");
            ExitCode::from(2)
        }
    }
}
