ghost use Rattle.std.specs.Prelude.{◌≡◌, ◌≤◌, length, Ok, None};
ghost use Rattle.db_text.specs.Answer.{Answers};
ghost use Rattle.db_text.specs.Outcome;

use crate::build::build;
use crate::fail::TextFail;
use crate::limits::MOST_TEXT_BYTES;
use crate::node::Node;
use crate::scan::scan;
use db_cause::Cause;
use std::alloc::Global;

/// The elements of a text in which no element stands too deep.
fn elements(alloc: Global, text: &[u8]) -> Result<Node, TextFail>
    requires bound { length text.now ≤ 1048576 }
    requires whole { Outcome.text_outcome text.now ≡ Ok None }
    ensures { Answers text.now result }
{
    match build(alloc, text)? {
        Some(node) => Ok(node),
        None => unreachable!(),
    }
}

/// The top element of a text, with all in it; else the line and the code of the text's first fault. The text is
/// read once for its faults, in room that is bounded by the text, and then once more for its elements, which are
/// at most `MOST_ELEMENT_DEPTH` deep.
pub fn read_elements(alloc: Global, text: &[u8]) -> Result<Node, TextFail>
    ensures { Answers text.now result }
{
    if text.len() > MOST_TEXT_BYTES {
        return Err(TextFail::Fault {
            line: 1,
            code: Cause::TextTooLong.code(),
        });
    }
    match scan(alloc, text) {
        Err(fail) => Err(fail),
        Ok(Some(line)) => Err(TextFail::Fault {
            line,
            code: Cause::TextTooDeep.code(),
        }),
        Ok(None) => elements(alloc, text),
    }
}
