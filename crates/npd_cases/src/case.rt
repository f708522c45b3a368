use crate::escape::unescaped;
use crate::judged::{is_faulty, is_sound};
use crate::output::says;
use db_model::NoMemory;
use npd_host::{CallKind, MemHost};
use npd_top::{Status, run_serial};
use std::alloc::Global;
use std::fs;
use std::rt::Files;

/// A case of which some lines were taken.
#[derive(Drop)]
pub struct Case {
    host: MemHost,
    /// The file whose lines stand in the case, so far.
    text: String,
    /// The file whose repeated pieces stand in the case, so far.
    bytes: Vec<u8>,
    /// The exit number of the run, and the line that it would print.
    end: String,
    is_judged: bool,
}

impl Case {
    /// A case by its first line: `case NAME CHUNK`. Its reads give at most CHUNK bytes.
    pub fn begin(alloc: Global, head: &str) -> Option<Case> {
        let (_name, chunk) = head.strip_prefix("case ")?.split_once(' ')?;
        let chunk = chunk.parse::<u32>().ok()?;
        if chunk == 0 {
            return None;
        }
        Some(Case {
            host: MemHost::new(alloc, chunk).ok()?,
            text: String::new(alloc),
            bytes: Vec::new(alloc),
            end: String::new(alloc),
            is_judged: false,
        })
    }

    /// Whether the case says how it ends, and did end so.
    pub fn is_judged(&self) -> bool {
        self.is_judged
    }

    fn judge(&mut self, holds: Option<bool>) -> bool {
        self.is_judged = holds == Some(true);
        self.is_judged
    }

    /// How the run ended, as its exit number and line.
    pub fn end(&self) -> &str {
        self.end.as_str().trim_end()
    }

    /// Takes one line, and says whether it holds.
    pub fn takes(&mut self, rt: &(impl Files + AllocGlobal), line: &str) -> bool {
        let (word, rest) = line.split_once(' ').unwrap_or((line, ""));
        match word {
            "file" => put(rt, &mut self.host, rest).is_some(),
            "padded" => put_padded(rt, &mut self.host, rest).is_some(),
            "text" => put_line(&mut self.host, &mut self.text, rest).is_some(),
            "repeated" => put_repeated(rt.alloc(), &mut self.host, &mut self.bytes, rest).is_some(),
            "fail" => plan_failure(&mut self.host, rest).is_some(),
            "run" => set(&mut self.end, run(rt.alloc(), &mut self.host, rest)),
            "refused" => set(&mut self.end, ended(rt.alloc(), &Status::NoMemory)),
            "ends" => {
                let holds = ends_so(rt.alloc(), self.end(), rest);
                self.judge(holds)
            }
            "sound" => self.judge(is_sound(rt.alloc(), rest)),
            "faulty" => self.judge(is_faulty(rt.alloc(), rest)),
            _ => says(rt, &self.host, word, rest).unwrap_or(false),
        }
    }
}

fn set(end: &mut String, came: Option<String>) -> bool {
    match came {
        Some(came) => {
            *end = came;
            true
        }
        None => false,
    }
}

/// `ends TEXT`: whether the run ended so; a second line stands behind `\n`.
fn ends_so(alloc: Global, end: &str, rest: &str) -> Option<bool> {
    let wanted = unescaped(alloc, rest)?;
    Some(end.as_bytes() == wanted.as_slice())
}

/// `file NAME FILE`: the input NAME has the bytes of FILE.
fn put(rt: &(impl Files + AllocGlobal), host: &mut MemHost, rest: &str) -> Option<()> {
    let (name, file) = rest.split_once(' ')?;
    let bytes = fs::read(rt, file).ok()?;
    host.put_file(name, bytes.as_slice()).ok()
}

/// `padded NAME FILE COUNT`: the input NAME has the bytes of FILE, and COUNT zero bytes behind them.
fn put_padded(rt: &(impl Files + AllocGlobal), host: &mut MemHost, rest: &str) -> Option<()> {
    let (name, rest) = rest.split_once(' ')?;
    let (file, count) = rest.split_once(' ')?;
    let zeros = vec![in rt.alloc(); 0u8; count.parse::<u32>().ok()? as usize].ok()?;
    let mut bytes = fs::read(rt, file).ok()?;
    bytes.extend_from_slice(zeros.as_slice()).ok()?;
    host.put_file(name, bytes.as_slice()).ok()
}

/// `text NAME LINE`: the input NAME has the lines that the case gave so far, and this one behind them.
fn put_line(host: &mut MemHost, text: &mut String, rest: &str) -> Option<()> {
    let (name, line) = rest.split_once(' ').unwrap_or((rest, ""));
    text.push_str(line).ok()?;
    text.push_str("\n").ok()?;
    host.put_file(name, text.as_bytes()).ok()
}

/// `repeated NAME COUNT PIECE`: the input NAME has the pieces that the case gave so far, and this one COUNT times.
fn put_repeated(alloc: Global, host: &mut MemHost, bytes: &mut Vec<u8>, rest: &str) -> Option<()> {
    let (name, rest) = rest.split_once(' ')?;
    let (count, piece) = rest.split_once(' ')?;
    let piece = unescaped(alloc, piece)?;
    for _turn in 0..count.parse::<u32>().ok()? {
        bytes.extend_from_slice(piece.as_slice()).ok()?;
    }
    host.put_file(name, bytes.as_slice()).ok()
}

/// `fail KIND NUMBER`: the call of this kind and number, counted from 0, fails.
fn plan_failure(host: &mut MemHost, rest: &str) -> Option<()> {
    let (word, number) = rest.split_once(' ')?;
    let kind = match word {
        "open_in" => CallKind::OpenIn,
        "read" => CallKind::Read,
        "open_out" => CallKind::OpenOut,
        "write" => CallKind::Write,
        _ => return None,
    };
    host.fail(kind, number.parse::<u64>().ok()?).ok()
}

/// The most words that a case has.
const MOST_WORDS: usize = 1_000;

/// Words that stand apart by one space; two spaces have an empty word between them.
fn words_of(alloc: Global, text: &str) -> Result<Vec<String>, NoMemory> {
    let mut words = Vec::new(alloc);
    if text.is_empty() {
        return Ok(words);
    }
    for word in text.split(' ') {
        words.push(String::from_str(alloc, word)?)?;
    }
    Ok(words)
}

/// The exit number of a status, and its line.
fn ended(alloc: Global, status: &Status) -> Option<String> {
    let line = status.line(alloc).ok()?;
    let text = std::str::from_utf8(line.as_slice()).ok()?;
    format!(in alloc; "{} {text}", status.exit()).ok()
}

/// `run WORDS`: runs the top call, and gives how it ended.
pub fn run(alloc: Global, host: &mut MemHost, text: &str) -> Option<String> {
    let words = words_of(alloc, text).ok()?;
    if words.len() > MOST_WORDS {
        return None;
    }
    ended(alloc, &run_serial(alloc, words.as_slice(), host))
}
