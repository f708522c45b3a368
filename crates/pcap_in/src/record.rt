ghost use Rattle.std.specs.Prelude.{◌≡◌, ◌≤◌, ◌<◌, ◌*◌, ◌^◌, ◌++◌, length, option_to_list, IsSome, IfSome, IsErrOf};
ghost use Rattle.npd_host.specs.declared.host.CallKind.{CallKind};
ghost use Rattle.npd_host.specs.declared.host.HostFail.{HostFail};
ghost use Rattle.npd_host.specs.Host.{CountRose, MovesInputsOnly};
ghost use Rattle.pcap_in.specs.Capture.{packet_of, record_at};
ghost use Rattle.pcap_in.specs.Reading.{OnlyRead, ahead, TakesByte, TakesHead, TakesCount, TakesRecord, Finds, IsStamped};

use crate::form::{Form, nanoseconds, number32};
use db_model::{Bytes, MOST_BYTES, Packet};
use npd_host::{Host, HostFail, InId, fill};
use std::alloc::Global;

/// The length in bytes of a record's head.
pub const HEAD: usize = 16;

/// What stands where a record begins.
#[derive(Drop)]
pub enum Found {
    End,
    /// No record, with the code of why.
    Broken(u8),
    Packet(Packet),
}

/// The packet of a record: this is its head, and these are its captured bytes.
fn packet(form: Form, number: u64, head: &[u8], bytes: Bytes) -> Packet
    requires { length head.now ≡ 16 }
    ensures packet { result ≡ packet_of form number head.now bytes }
    ensures stamp { result.stamp < 43 * 10 ^ 17 }
{
    let seconds = u64::from(number32(form.endian, head));
    let fraction = number32(form.endian, &head[4..]);
    Packet {
        number,
        link: form.link,
        stamp: seconds * 1_000_000_000 + nanoseconds(form.resolution, fraction),
        length: number32(form.endian, &head[12..]),
        bytes,
    }
}

/// Reads one byte; none where none follows.
pub fn read_byte<H: Host>(host: &mut H, id: InId) -> Result<Option<u8>, HostFail>
    requires { IsSome ((H.inputs host.old).name id.0) }
    ensures inputs { OnlyRead id.0 (H.inputs host.old) (H.inputs host.new)
        (TakesByte result ((H.inputs host.new).held id.0)) }
    ensures frame { MovesInputsOnly H.outputs H.files H.faults host.old host.new }
    ensures cause { IsErrOf result HostFail.Failed
        → CountRose CallKind.Read ((H.inputs host.old).name id.0) H.faults host.old host.new }
{
    let mut byte = [0u8; 1];
    if fill(host, id, &mut byte)? == 0 {
        return Ok(None);
    }
    Ok(Some(byte[0]))
}

/// Fills a record's head: with the byte that was kept, and then from the input. Says how many bytes stand at the
/// front of `head`, fewer than there is room for where the input ends.
fn read_head<H: Host>(
    host: &mut H,
    id: InId,
    kept: Option<u8>,
    head: &mut [u8],
) -> Result<usize, HostFail>
    requires given { IsSome ((H.inputs host.old).name id.0) }
    requires room { 0 < length head.old }
    ensures inputs { OnlyRead id.0 (H.inputs host.old) (H.inputs host.new) (λ bytes.
        TakesHead result head.new ((H.inputs host.new).held id.0) (option_to_list kept ++ bytes)) }
    ensures frame { MovesInputsOnly H.outputs H.files H.faults host.old host.new }
    ensures cause { IsErrOf result HostFail.Failed
        → CountRose CallKind.Read ((H.inputs host.old).name id.0) H.faults host.old host.new }
{
    let Some(byte) = kept else {
        return fill(host, id, head);
    };
    head[0] = byte;
    let found = fill(host, id, &mut head[1..])?;
    Ok(found + 1)
}

/// Reads `count` bytes; none where fewer follow.
fn exactly<H: Host>(
    alloc: Global,
    host: &mut H,
    id: InId,
    count: usize,
) -> Result<Option<Bytes>, HostFail>
    requires given { IsSome ((H.inputs host.old).name id.0) }
    requires most { count ≤ MOST_BYTES }
    ensures inputs { OnlyRead id.0 (H.inputs host.old) (H.inputs host.new)
        (TakesCount result count ((H.inputs host.new).held id.0)) }
    ensures frame { MovesInputsOnly H.outputs H.files H.faults host.old host.new }
    ensures cause { IsErrOf result HostFail.Failed
        → CountRose CallKind.Read ((H.inputs host.old).name id.0) H.faults host.old host.new }
{
    let mut bytes = match vec![in alloc; 0u8; count] {
        Ok(bytes) => bytes,
        Err(_) => return Err(HostFail::NoMemory),
    };
    let found = fill(host, id, bytes.as_mut_slice())?;
    if found < count {
        return Ok(None);
    }
    Ok(Some(Bytes::from_vec(bytes)))
}

/// Reads the record that is ahead: the byte that was kept, and then the front of the input. Its packet gets this
/// number.
pub fn read_record<H: Host>(
    alloc: Global,
    host: &mut H,
    id: InId,
    form: Form,
    number: u64,
    kept: Option<u8>,
) -> Result<Found, HostFail>
    requires { IsSome ((H.inputs host.old).name id.0) }
    ensures finds { IfSome (ahead (option_to_list kept) ((H.inputs host.old).held id.0)) (λ bytes.
        Finds result (record_at form number bytes) ((H.inputs host.new).held id.0)) }
    ensures stamp { IsStamped result (43 * 10 ^ 17) }
    ensures inputs { OnlyRead id.0 (H.inputs host.old) (H.inputs host.new) (λ bytes.
        TakesRecord result form number (option_to_list kept ++ bytes)) }
    ensures frame { MovesInputsOnly H.outputs H.files H.faults host.old host.new }
    ensures cause { IsErrOf result HostFail.Failed
        → CountRose CallKind.Read ((H.inputs host.old).name id.0) H.faults host.old host.new }
{
    let mut head = [0u8; HEAD];
    let found = read_head(host, id, kept, &mut head)?;
    if found == 0 {
        return Ok(Found::End);
    }
    if found < HEAD {
        return Ok(Found::Broken(4));
    }
    let captured = number32(form.endian, &head[8..]) as usize;
    if captured > MOST_BYTES {
        return Ok(Found::Broken(5));
    }
    match exactly(alloc, host, id, captured)? {
        Some(bytes) => Ok(Found::Packet(packet(form, number, &head, bytes))),
        None => Ok(Found::Broken(6)),
    }
}
