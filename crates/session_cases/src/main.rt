//! Sessions, their views and their copies, and packets that are recorded over a view, checked and applied, as cases
//! that stand in a text: `cases.txt` of the folder where this runs, over the database `operations.xml`. A case that
//! doesn't come out as it says is printed with its line that doesn't hold; the last line counts them.
#![tactic(auto)]

ghost use Rattle.std.specs.Prelude.{◌≡◌};
ghost use Rattle.pdl_code.specs.Does.{IsCodeOf};

mod case;
mod decoding;
mod filling;
mod held;
mod packets;
mod records;

use case::first_wrong;
use db_check::check;
use db_load::load_database;
use db_model::CheckedDb;
use pdl_code::{Code, compile};
use std::process::ExitCode;
use std::rt::Files;
use std::{fs, io};

/// Whether a case holds. Its first line that doesn't is printed.
fn holds(
    rt: &(impl AllocGlobal + Print),
    db: &CheckedDb,
    code: &Code,
    lines: &str,
) -> io::Result<bool>
    requires { IsCodeOf db.now code.now }
{
    // (a case without lines has its head as its only one, which is none that holds)
    let (head, rest) = lines.split_once('\n').unwrap_or((lines, lines));
    match first_wrong(rt.alloc(), db, code, rest) {
        Some(line) => {
            println!(rt; "{head}: {line}")?;
            Ok(false)
        }
        None => Ok(true),
    }
}

/// Whether all cases hold, of which there is at least one.
fn all_hold(
    rt: &(impl AllocGlobal + Print),
    db: &CheckedDb,
    code: &Code,
    text: &str,
) -> io::Result<bool>
    requires { IsCodeOf db.now code.now }
{
    let mut count = 0u32;
    let mut failed = 0u32;
    for lines in text.trim_end().split("\n\n") {
        count = count.saturating_add(1);
        if !holds(rt, db, code, lines)? {
            failed = failed.saturating_add(1);
        }
    }
    println!(rt; "{count} cases, {failed} failed")?;
    Ok(failed == 0)
}

/// The same; false where memory is refused, or the outcome isn't printed.
fn by_database(rt: &(impl AllocGlobal + Print), db: &CheckedDb, text: &str) -> bool {
    match compile(rt.alloc(), db) {
        Ok(code) => all_hold(rt, db, &code, text).unwrap_or(false),
        Err(_) => false,
    }
}

/// The same over the text of a database; false where it isn't accepted.
fn by_text(rt: &(impl AllocGlobal + Print), database: &[u8], text: &str) -> bool {
    match load_database(rt.alloc(), database) {
        Ok(db) => match check(rt.alloc(), db) {
            Ok(db) => {
                let hold = by_database(rt, &db, text);
                db.discard();
                hold
            }
            Err(_) => false,
        },
        Err(_) => false,
    }
}

fn by_files(rt: &(impl Files + AllocGlobal + Print)) -> io::Result<bool> {
    let database = fs::read(rt, "operations.xml")?;
    let text = fs::read_to_string(rt, "cases.txt")?;
    Ok(by_text(rt, database.as_slice(), text.as_str()))
}

fn main(rt: HostRuntime) -> ExitCode {
    match by_files(&rt) {
        Ok(true) => ExitCode::SUCCESS,
        Ok(false) => ExitCode::FAILURE,
        Err(_) => {
            let _ = rt.eprint("session_cases: a file isn't read\n");
            ExitCode::from(2)
        }
    }
}
