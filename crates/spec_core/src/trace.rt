ghost use Rattle.std.specs.Prelude.{◌≡◌, IfOk};
ghost use Rattle.engine.specs.Trace;

use db_model::NoMemory;
use engine::{Receipt, push_trace_line};
use std::alloc::Global;

/// The line of a receipt in a trace, with its LF.
pub fn trace_line(alloc: Global, receipt: &Receipt) -> Result<Vec<u8>, NoMemory>
    ensures { IfOk result (λ text. text.items ≡ Trace.trace_line receipt.now) }
{
    let mut text = Vec::new(alloc);
    push_trace_line(&mut text, receipt)?;
    Ok(text)
}
