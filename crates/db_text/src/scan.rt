ghost use Rattle.std.specs.Prelude.{◌≡◌, ◌≤◌, ◌<◌, ◌+◌, length};
ghost use Rattle.db_text.specs.Machine;
ghost use Rattle.db_text.specs.Outcome;
ghost use Rattle.db_text.specs.Text;

use crate::decide::decide;
use crate::fail::TextFail;
use crate::mode::Mode;
use crate::notes::Notes;
use crate::staying::staying;
use db_cause::Cause;
use std::alloc::Global;

/// The line behind a byte on a line.
pub fn next_line(line: u32, byte: u8) -> u32
    requires { line < 4294967295 }
    ensures value { result ≡ Text.next_line line byte }
    ensures bound { result ≤ line + 1 }
{
    if byte == b'\n' { line + 1 } else { line }
}

/// Takes a byte on a line.
fn advance(mode: Mode, notes: &mut Notes, line: u32, byte: u8) -> Result<Mode, TextFail>
    ensures { Outcome.Advanced line mode notes.old byte result notes.new }
{
    match decide(mode, notes, line, byte) {
        None => Err(TextFail::Fault {
            line,
            code: Cause::UnexpectedByte.code(),
        }),
        Some(next) => {
            notes.note(next.act)?;
            Ok(next.mode)
        }
    }
}

/// The bytes behind those that leave a mode as it is.
fn behind_staying(mode: Mode, text: &[u8]) -> &[u8]
    ensures same { Outcome.KeepsOutcome mode text.now result.now }
    ensures within { length result.now ≤ length text.now }
{
    let (_staying, behind) = text.split_at(staying(mode, text));
    behind
}

fn is_between(mode: Mode) -> bool
    ensures { result ≡ Machine.is_between mode }
{
    match mode {
        Mode::Between => true,
        _ => false,
    }
}

/// The text ends on a line.
fn finish(mode: Mode, notes: &Notes, line: u32) -> Result<Option<u32>, TextFail>
    ensures { Outcome.Told result (Outcome.at_end line mode notes.now) }
{
    if is_between(mode) && notes.names.is_empty() && notes.seen {
        Ok(notes.deep)
    } else {
        Err(TextFail::Fault {
            line,
            code: Cause::UnexpectedEnd.code(),
        })
    }
}

/// Of a text of the grammar the line of the first element that stands too deep, if there is one; of any other its
/// first fault. Builds no element.
pub fn scan(alloc: Global, text: &[u8]) -> Result<Option<u32>, TextFail>
    requires { length text.now ≤ 1048576 }
    ensures { Outcome.Told result (Outcome.text_outcome text.now) }
{
    let mut notes = Notes::new(alloc);
    let mut mode = Mode::Start;
    let mut line = 1;
    let mut rest = text;
    while let Some((byte, behind)) = rest.split_first() {
        match advance(mode, &mut notes, line, *byte) {
            Ok(next) => mode = next,
            Err(fail) => return Err(fail),
        }
        line = next_line(line, *byte);
        rest = behind_staying(mode, behind);
    }
    finish(mode, &notes, line)
}
