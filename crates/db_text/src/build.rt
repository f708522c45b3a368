ghost use Rattle.std.specs.Prelude.{◌≡◌, ◌≤◌, length, IfOk};
ghost use Rattle.db_text.specs.Outcome;

use crate::decide::decide;
use crate::mode::Mode;
use crate::node::Node;
use crate::notes::Notes;
use crate::parts::Parts;
use crate::scan::next_line;
use crate::staying::staying;
use db_model::NoMemory;
use std::alloc::Global;

/// Takes a byte on a line; no mode where no text goes on with it.
fn advance(
    alloc: Global,
    mode: Mode,
    notes: &mut Notes,
    parts: &mut Parts,
    line: u32,
    byte: u8,
) -> Result<Option<Mode>, NoMemory>
    ensures { IfOk result (λ next. Outcome.Built line mode notes.old parts.old byte next notes.new parts.new) }
{
    match decide(mode, notes, line, byte) {
        None => Ok(None),
        Some(next) => {
            parts.part(alloc, next.act, notes)?;
            notes.note(next.act)?;
            Ok(Some(next.mode))
        }
    }
}

/// Adds the bytes that leave a mode as it is to what is being read, and gives those behind them.
fn behind_added<'a>(
    alloc: Global,
    mode: Mode,
    parts: &mut Parts,
    text: &'a [u8],
) -> Result<&'a [u8], NoMemory>
    ensures same { IfOk result (λ behind. Outcome.KeepsElement mode parts.old text.now parts.new behind.now) }
    ensures within { IfOk result (λ behind. length behind.now ≤ length text.now) }
{
    let (bytes, behind) = text.split_at(staying(mode, text));
    parts.lengthen(alloc, mode, bytes)?;
    Ok(behind)
}

/// The element of a text of the grammar.
pub fn build(alloc: Global, text: &[u8]) -> Result<Option<Node>, NoMemory>
    requires { length text.now ≤ 1048576 }
    ensures { IfOk result (λ node. node ≡ Outcome.text_built text.now) }
{
    let mut notes = Notes::new(alloc);
    let mut parts = Parts::new(alloc);
    let mut mode = Mode::Start;
    let mut line = 1;
    let mut rest = text;
    while let Some((byte, behind)) = rest.split_first() {
        let Some(next) = advance(alloc, mode, &mut notes, &mut parts, line, *byte)? else {
            return Ok(None);
        };
        mode = next;
        line = next_line(line, *byte);
        rest = behind_added(alloc, mode, &mut parts, behind)?;
    }
    Ok(parts.top)
}
