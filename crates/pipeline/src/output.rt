ghost use Rattle.std.specs.Prelude.{◌≡◌, IfErr, IfSome, OnOk};
ghost use Rattle.engine.specs.Trace.{trace_line};
ghost use Rattle.npd_host.specs.Host.{MovesOutputsOnly};
ghost use Rattle.pipeline.specs.Causes.{HasCause, writes_outputs};
ghost use Rattle.pipeline.specs.Ready.{ready_text, ready_texts};
ghost use Rattle.pipeline.specs.Taken.{only, pieces, AreGiven, sink_name, TakesTexts};
ghost use Rattle.pipeline.specs.Written.{AreApart};

use crate::sinks::Sinks;
use crate::status::{Role, Status, refused};
use db_model::NoMemory;
use engine::{Ready, Receipt, push_trace_line};
use npd_host::{Host, OutId, write_all};

/// Writes the piece of one role, where it has an output.
fn write_piece<H: Host>(host: &mut H, sinks: Sinks, role: Role, bytes: &[u8]) -> Result<(), Status>
    requires given { AreGiven sinks (H.outputs host.old).name }
    requires apart { AreApart sinks }
    ensures takes { TakesTexts result sinks (H.outputs host.old) (H.outputs host.new)
        (only role (λ _. bytes.now)) }
    ensures frame { MovesOutputsOnly H.inputs H.files H.faults host.old host.new }
    ensures cause { IfErr result (HasCause (writes_outputs (sink_name sinks (H.outputs host.old).name))
        (H.faults host.old) (H.faults host.new)) }
{
    let Some(id) = sinks.of(role) else {
        return Ok(());
    };
    match write_all(host, id, bytes) {
        Ok(()) => Ok(()),
        Err(fail) => Err(refused(fail, Status::Write { role })),
    }
}

/// Writes a piece for each output, in the order PDML, PSML, trace.
pub fn write_texts<H: Host>(
    host: &mut H,
    sinks: Sinks,
    pdml: &[u8],
    psml: &[u8],
    trace: &[u8],
) -> Result<(), Status>
    requires given { AreGiven sinks (H.outputs host.old).name }
    requires apart { AreApart sinks }
    ensures takes { TakesTexts result sinks (H.outputs host.old) (H.outputs host.new)
        (pieces pdml.now psml.now trace.now) }
    ensures frame { MovesOutputsOnly H.inputs H.files H.faults host.old host.new }
    ensures cause { IfErr result (HasCause (writes_outputs (sink_name sinks (H.outputs host.old).name))
        (H.faults host.old) (H.faults host.new)) }
{
    write_piece(host, sinks, Role::Pdml, pdml)?;
    write_piece(host, sinks, Role::Psml, psml)?;
    write_piece(host, sinks, Role::Trace, trace)
}

/// Puts the line of a receipt into a buffer, in place of what it has, where the trace is named.
fn put_line(line: &mut Vec<u8>, trace: Option<OutId>, receipt: &Receipt) -> Result<(), NoMemory>
    ensures { OnOk result (IfSome trace (λ _. line.new.items ≡ trace_line receipt.now)) }
{
    if trace.is_none() {
        return Ok(());
    }
    line.clear();
    push_trace_line(line, receipt)
}

/// Writes the texts of a packet, each as one piece. `line` is a buffer.
fn write_one<H: Host>(
    host: &mut H,
    sinks: Sinks,
    one: &Ready,
    line: &mut Vec<u8>,
) -> Result<(), Status>
    requires given { AreGiven sinks (H.outputs host.old).name }
    requires apart { AreApart sinks }
    ensures takes { TakesTexts result sinks (H.outputs host.old) (H.outputs host.new)
        (ready_text one.now) }
    ensures frame { MovesOutputsOnly H.inputs H.files H.faults host.old host.new }
    ensures cause { IfErr result (HasCause (writes_outputs (sink_name sinks (H.outputs host.old).name))
        (H.faults host.old) (H.faults host.new)) }
{
    match put_line(line, sinks.trace, &one.receipt) {
        Ok(()) => write_texts(host, sinks, &one.texts.pdml, &one.texts.psml, line),
        Err(_) => Err(Status::NoMemory),
    }
}

/// Writes the texts of packets in order, each as one piece. `line` is a buffer for the lines of the trace.
pub fn write_ready<H: Host>(
    host: &mut H,
    sinks: Sinks,
    ready: &[Ready],
    line: &mut Vec<u8>,
) -> Result<(), Status>
    requires given { AreGiven sinks (H.outputs host.old).name }
    requires apart { AreApart sinks }
    ensures takes { TakesTexts result sinks (H.outputs host.old) (H.outputs host.new)
        (ready_texts ready.now) }
    ensures frame { MovesOutputsOnly H.inputs H.files H.faults host.old host.new }
    ensures cause { IfErr result (HasCause (writes_outputs (sink_name sinks (H.outputs host.old).name))
        (H.faults host.old) (H.faults host.new)) }
{
    for one in ready {
        write_one(host, sinks, one, line)?;
    }
    Ok(())
}
