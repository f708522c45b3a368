ghost use Rattle.std.specs.Prelude.{IfOk, IsSome};

use npd_host::{Host, HostFail, InId, OutId, fill, write_all};
use std::alloc::Global;

/// Opens an input.
pub fn input<H: Host>(host: &mut H, name: &str) -> Result<InId, HostFail>
    ensures { IfOk result (λ id. IsSome ((H.inputs host.new).name id.0)) }
{
    host.open_in(name)
}

/// Reads once, with room for `room` bytes, and adds what was read to `all`.
pub fn one_read<H: Host>(
    host: &mut H,
    id: InId,
    room: usize,
    all: &mut Vec<u8>,
) -> Result<(), HostFail>
    requires { IsSome ((H.inputs host.old).name id.0) }
    ensures { IsSome ((H.inputs host.new).name id.0) }
{
    let mut buf = [0u8; 16];
    let room = room.clamp(1, 16);
    let count = host.read(id, &mut buf[..room])?;
    match all.extend_from_slice(&buf[..count]) {
        Ok(()) => Ok(()),
        Err(_) => Err(HostFail::NoMemory),
    }
}

/// All that three reads give, with room for so many bytes each.
pub fn three_reads<H: Host>(
    alloc: Global,
    host: &mut H,
    name: &str,
    room: usize,
) -> Result<Vec<u8>, HostFail> {
    let mut all = Vec::new(alloc);
    let id = input(host, name)?;
    one_read(host, id, room, &mut all)?;
    one_read(host, id, room, &mut all)?;
    one_read(host, id, room, &mut all)?;
    Ok(all)
}

/// Whether a host's input has exactly these bytes, at most 63 of them.
pub fn holds<H: Host>(host: &mut H, name: &str, bytes: &[u8]) -> Result<bool, HostFail> {
    let mut buf = [0u8; 64];
    let id = input(host, name)?;
    let count = fill(host, id, &mut buf)?;
    Ok(&buf[..count] == bytes)
}

/// Opens an output.
fn output<H: Host>(host: &mut H, name: &str) -> Result<OutId, HostFail>
    ensures { IfOk result (λ id. IsSome ((H.outputs host.new).name id.0)) }
{
    host.open_out(name)
}

/// How many of these bytes one write takes.
fn one_write<H: Host>(host: &mut H, id: OutId, bytes: &[u8]) -> Result<usize, HostFail>
    requires { IsSome ((H.outputs host.old).name id.0) }
    ensures { IsSome ((H.outputs host.new).name id.0) }
{
    if bytes.is_empty() {
        return Ok(0);
    }
    host.write(id, bytes)
}

/// Opens an output, and how many of these bytes one write takes.
pub fn first_write<H: Host>(host: &mut H, name: &str, bytes: &[u8]) -> Result<usize, HostFail> {
    let id = output(host, name)?;
    one_write(host, id, bytes)
}

/// Opens an output and writes all of these bytes.
pub fn writes<H: Host>(host: &mut H, name: &str, bytes: &[u8]) -> Result<(), HostFail> {
    let id = output(host, name)?;
    write_all(host, id, bytes)
}
