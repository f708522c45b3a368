ghost use Rattle.std.specs.Prelude.{◌≡◌, ◌++◌, ◌∷◌, [], codes, decimal, IfOk, OnOk};
ghost use Rattle.pipeline.specs.Causes.{refusal};
ghost use Rattle.pipeline.specs.Status.{exit_of, line_of, usage_line, role_word, part_word};

use db_model::{Bytes64, NoMemory};
use npd_host::HostFail;
use show::{push, push_number};
use std::alloc::{AllocError, Global};

/// What a file is to a run.
#[derive(Clone, Copy)]
pub enum Role {
    Db,
    Cap,
    Pdml,
    Psml,
    Trace,
    /// Standard output, for the line of a command.
    Out,
}

impl Role {
    /// The word that the lines on standard error have for it.
    fn word(self) -> &'static str
        ensures { result.now ≡ role_word self }
    {
        match self {
            Role::Db => "db",
            Role::Cap => "cap",
            Role::Pdml => "pdml",
            Role::Psml => "psml",
            Role::Trace => "trace",
            Role::Out => "out",
        }
    }
}

/// A part of the input whose form isn't built yet.
#[derive(Clone, Copy)]
pub enum Part {
    Words,
}

impl Part {
    /// The word that the lines on standard error have for it.
    fn word(self) -> &'static str
        ensures { result.now ≡ part_word self }
    {
        match self {
            Part::Words => "words",
        }
    }
}

/// How a run ended.
#[derive(Clone, Copy)]
pub enum Status {
    /// What the inputs hold was read to its end, and each named output is its whole text.
    Done,
    /// The words ask for nothing: the index of the first word at fault, from 0, and a code, as `npd_words` has them. The
    /// host is untouched.
    Words { index: u32, code: u8 },
    /// The file of this role was not opened. Nothing is written; the outputs before it are opened.
    Open { role: Role },
    /// The file of this role was not read to its end. No output is opened, unless it is the capture and its file
    /// header was read: then the packets that were wholly read are written, and the outputs aren't closed.
    Read { role: Role },
    /// The output of this role did not take its whole text: it holds a proper front of it, and each other one a front.
    Write { role: Role },
    /// The text of the database is refused, or the check of it, with a line, from 1, and a code. No output is opened.
    Database { line: u32, code: u8 },
    /// The capture is broken, at an offset in bytes and with a code, as `pcap_in` has them. Without a file header no
    /// output is opened; behind one the packets before the offset are written, and the outputs are closed.
    Capture { offset: u64, code: u8 },
    /// More follows in the capture than so many packets: these are written, and the outputs are closed.
    PacketLimit { max: u32 },
    /// Memory was refused. Each output that is opened holds a front of its whole text.
    NoMemory,
    /// This part of the input has a form that isn't built yet: words that ask for a report or for a capture to be made.
    /// The host is untouched.
    Unbuilt { part: Part },
}

/// The status where a host refused a call: `failed`, or `NoMemory` where that was the reason.
pub fn refused(fail: HostFail, failed: Status) -> Status
    ensures { result ≡ refusal failed fail }
{
    match fail {
        HostFail::Failed => failed,
        HostFail::NoMemory => Status::NoMemory,
    }
}

impl From<AllocError> for Status {
    ghost use Rattle.pipeline.specs.declared.status.Status.TheVariants.{NoMemory as out_of_memory};

    ghost from_gives = { λ _ status. status ≡ out_of_memory };

    fn from(_: AllocError) -> Status {
        Status::NoMemory
    }
}

impl Status {
    /// The process's exit number: 0 for `Done`, 2 for `Words`, 3 to 5 for `Open`, `Read` and `Write`, 6 for `Database`,
    /// 7 for `Capture`, 8 for `PacketLimit`, 12 for `NoMemory`, 20 for `Unbuilt`. Takes no memory.
    pub fn exit(&self) -> u8
        ensures { result ≡ exit_of self.now }
    {
        match self {
            Status::Done => 0,
            Status::Words { .. } => 2,
            Status::Open { .. } => 3,
            Status::Read { .. } => 4,
            Status::Write { .. } => 5,
            Status::Database { .. } => 6,
            Status::Capture { .. } => 7,
            Status::PacketLimit { .. } => 8,
            Status::NoMemory => 12,
            Status::Unbuilt { .. } => 20,
        }
    }

    /// The text for standard error: a line with its LF, and behind a fault of the words a second one on how the program
    /// is called. It is empty for `Done`.
    pub fn line(&self, alloc: Global) -> Result<Bytes64, NoMemory>
        ensures { IfOk result (λ text. text ≡ line_of self.now) }
    {
        let mut text = Vec::new(alloc);
        self.push_line(&mut text)?;
        Ok(Bytes64::from_vec(text))
    }

    /// Adds that text.
    fn push_line(&self, text: &mut Vec<u8>) -> Result<(), NoMemory>
        ensures { OnOk result (text.new.items ≡ text.old.items ++ line_of self.now) }
    {
        match self {
            Status::Done => Ok(()),
            Status::Words { index, code } => push_usage(text, u64::from(*index), *code),
            Status::Open { role } => push_words(text, "open ", role.word()),
            Status::Read { role } => push_words(text, "read ", role.word()),
            Status::Write { role } => push_words(text, "write ", role.word()),
            Status::Database { line, code } => {
                push_fault(text, "database ", u64::from(*line), *code)
            }
            Status::Capture { offset, code } => push_fault(text, "capture ", *offset, *code),
            Status::PacketLimit { max } => push_reached(text, "packet limit ", u64::from(*max)),
            Status::NoMemory => push_words(text, "no memory", ""),
            Status::Unbuilt { part } => push_words(text, "unbuilt ", part.word()),
        }
    }
}

/// Adds `npd: `, which input is at fault, where and with which code, and LF.
fn push_fault(text: &mut Vec<u8>, which: &str, place: u64, code: u8) -> Result<(), NoMemory>
    ensures { OnOk result (text.new.items ≡ text.old.items
        ++ (codes "npd: " ++ (which.now ++ (decimal place ++ (codes " " ++ decimal code)))
        ++ 10 ∷ [])) }
{
    push(text, b"npd: ")?;
    push(text, which.as_bytes())?;
    push_number(text, place)?;
    push(text, b" ")?;
    push_number(text, u64::from(code))?;
    push(text, b"\n")
}

/// Adds `npd: `, what happened and to which file or part, and LF.
fn push_words(text: &mut Vec<u8>, what: &str, which: &str) -> Result<(), NoMemory>
    ensures { OnOk result (text.new.items ≡ text.old.items
        ++ (codes "npd: " ++ (what.now ++ which.now) ++ 10 ∷ [])) }
{
    push(text, b"npd: ")?;
    push(text, what.as_bytes())?;
    push(text, which.as_bytes())?;
    push(text, b"\n")
}

/// Adds `npd: `, what was reached with its number, and LF.
fn push_reached(text: &mut Vec<u8>, what: &str, number: u64) -> Result<(), NoMemory>
    ensures { OnOk result (text.new.items ≡ text.old.items
        ++ (codes "npd: " ++ (what.now ++ decimal number) ++ 10 ∷ [])) }
{
    push(text, b"npd: ")?;
    push(text, what.as_bytes())?;
    push_number(text, number)?;
    push(text, b"\n")
}

/// Adds the line of a fault of the words, and the line on how the program is called.
fn push_usage(text: &mut Vec<u8>, index: u64, code: u8) -> Result<(), NoMemory>
    ensures { OnOk result (text.new.items ≡ text.old.items
        ++ ((codes "npd: " ++ (codes "words " ++ (decimal index ++ (codes " " ++ decimal code)))
        ++ 10 ∷ []) ++ usage_line)) }
{
    push_fault(text, "words ", index, code)?;
    push(text, b"usage: npd decode|check|gen --option value ..\n")
}
