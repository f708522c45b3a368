//! The program npd: hands its words and the files and streams of the process to the top call, prints the status's
//! text to standard error, and ends with the status's exit number.
#![tactic(auto)]

ghost use Rattle.std.specs.Prelude.{◌<◌, ◌≤◌, ◌^◌, length};

use npd_host::FileHost;
use npd_top::{Status, run_serial};
use npd_words::{WordsFail, read_words};
use std::alloc::Global;
use std::fs::File;
use std::os::fd::AsRawFd;
use std::process::ExitCode;
use std::rt::{Env, Files};
use std::{env, io, str};

/// The words behind the program's name.
fn words(rt: &(impl Env + AllocGlobal)) -> io::Result<Vec<String>> {
    let mut words = Vec::new(rt.alloc());
    for word in env::args(rt)?.skip(1) {
        words.push(word)?;
    }
    Ok(words)
}

/// The most bytes that a word has on this system.
const LONGEST_WORD: usize = 131_072;

/// The words in front of the first one that is no UTF-8 text.
fn readable_words(rt: &(impl Env + AllocGlobal)) -> io::Result<Vec<String>> {
    let mut room = vec![in rt.alloc(); 0u8; LONGEST_WORD]?;
    let mut words = Vec::new(rt.alloc());
    for index in 1..u32::MAX {
        let Ok(length) = rt.arg(index as usize, room.as_mut_slice()) else {
            break;
        };
        let Ok(word) = str::from_utf8(&room[..length]) else {
            break;
        };
        words.push(String::from_str(rt.alloc(), word)?)?;
    }
    Ok(words)
}

/// Whether a fault of the words in front of another one comes before that, whatever it is: codes 2 to 7 do, but for a
/// value that only doesn't follow since these words end.
fn stands_before(index: u32, at: u32, code: u8) -> bool {
    match code {
        2 | 3 | 4 | 6 | 7 => true,
        5 => index > at.saturating_add(1),
        _ => false,
    }
}

/// The status where the word behind these is no UTF-8 text, and so neither a command nor an option: the first fault
/// from the left, theirs or its own.
fn unreadable(alloc: Global, front: &[String]) -> Status
    requires { length front.now < 2 ^ 32 }
{
    let index = front.len() as u32;
    match read_words(alloc, front) {
        Err(WordsFail::NoMemory) => return Status::NoMemory,
        Err(WordsFail::Fault { index: at, code }) => {
            if stands_before(index, at, code) {
                return Status::Words { index: at, code };
            }
        }
        Ok(_) => {}
    }
    let code = if index == 0 { 2 } else { 3 };
    Status::Words { index, code }
}

/// The status where the words can't be had: memory was refused, or one of them is no UTF-8 text.
fn refused(rt: &(impl Env + AllocGlobal), error: &io::Error) -> Status {
    if error.kind() == io::ErrorKind::OutOfMemory {
        return Status::NoMemory;
    }
    match readable_words(rt) {
        Ok(front) => unreadable(rt.alloc(), enough(front.as_slice())),
        Err(_) => Status::NoMemory,
    }
}

/// How many words are handed in at most where there are 2^32 or more: these have the same first fault.
const ENOUGH_WORDS: usize = 1_000;

/// The first words, at most so many.
fn first_words(words: &[String], most: usize) -> &[String]
    ensures { length result.now ≤ most }
{
    if words.len() <= most {
        words
    } else {
        &words[..most]
    }
}

/// All words, or the first ones of far too many.
fn enough(words: &[String]) -> &[String]
    ensures { length result.now < 2 ^ 32 }
{
    if words.len() < 4_294_967_296 {
        words
    } else {
        first_words(words, ENOUGH_WORDS)
    }
}

/// Prints the status's text. What can't be printed is lost: the exit number tells it too.
fn say(rt: &(impl Eprint + AllocGlobal), status: &Status) {
    match status.line(rt.alloc()) {
        Ok(line) => {
            if let Ok(text) = str::from_utf8(line.as_slice()) {
                let _ = rt.eprint(text);
            }
        }
        Err(_) => {
            let _ = rt.eprint("npd: no memory\n");
        }
    }
}

/// What stands in for a standard stream with which the program was not started, so that no file gets its number: a
/// folder, which can be neither read nor written. None: each of the three is there, or there is no such folder.
fn stand_in<R: Files>(rt: &R) -> Option<R::File>
where
    R::File: AsRawFd,
{
    match File::open(rt, "/") {
        Ok(folder) => if folder.as_raw_fd() < 3 {
            Some(folder)
        } else {
            None
        },
        Err(_) => None,
    }
}

fn main(rt: HostRuntime) -> ExitCode {
    let stand_ins = [stand_in(&rt), stand_in(&rt), stand_in(&rt)];
    let status = match words(&rt) {
        Ok(words) => run_serial(
            rt.alloc(),
            enough(words.as_slice()),
            &mut FileHost::new(&rt, rt.alloc()),
        ),
        Err(error) => refused(&rt, &error),
    };
    say(&rt, &status);
    drop(stand_ins);
    ExitCode::from(status.exit())
}
