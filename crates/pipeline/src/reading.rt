ghost use Rattle.std.specs.Prelude.{◌≡◌, ◌+◌, ◌<◌, ◌^◌, ◌++◌, ◌∷◌, [], IfErr, IfOk, IfSome, IsSome, IsTrue, OnErr, OnOk};
ghost use Rattle.npd_host.specs.Host.{MovesInputsOnly};
ghost use Rattle.pcap_in.specs.Reader.{is_reading, InReach};
ghost use Rattle.pipeline.specs.Causes.{HasNotedCause};
ghost use Rattle.pipeline.specs.Window.{captured_bytes, given_up, place, window_bytes, NotesLimit, ReadsOne, ReadsWindow, WhereFull};

use crate::capture::{Following, at_limit, next_packet};
use crate::status::Status;
use db_model::Packet;
use npd_host::Host;
use pcap_in::CapReader;
use pcap_in::laws::fronts_tell;

/// A window that has so many captured bytes takes no packet more.
const MOST_WINDOW: usize = 16_777_216;

/// How many packets may be read.
#[derive(Clone, Copy)]
pub struct Room {
    /// In a window, 1 to 256.
    pub window: u32,
    /// In the rest of the run.
    pub left: u32,
    /// In the run.
    pub most: u32,
}

/// What ended the reading of a window.
#[derive(Clone, Copy)]
pub enum Noted {
    /// The window is full. More may follow.
    Full,
    /// Nothing more is read, and the outputs are closed with this.
    Closes(Status),
    /// Reading gave up with this, and the outputs stay open.
    Fails(Status),
}

/// What is noted where reading gave up. Want of memory is answered at once.
fn given_up(status: Status) -> Result<Noted, Status>
    ensures { result ≡ given_up status }
{
    match status {
        Status::NoMemory => Err(Status::NoMemory),
        other => Ok(Noted::Fails(other)),
    }
}

/// Puts a packet behind the others.
fn put(packets: &mut Vec<Packet>, packet: Packet) -> Result<(), Status>
    ensures put { OnOk result (packets.new.items ≡ packets.old.items ++ packet ∷ []) }
    ensures kept { OnErr result (packets.new.items ≡ packets.old.items) }
    ensures refused { IfErr result (λ status. status ≡ Status.NoMemory) }
{
    match packets.push(packet) {
        Ok(()) => Ok(()),
        Err(_) => Err(Status::NoMemory),
    }
}

/// Reads the next packet and puts it behind the others, of which `captured` counts the bytes. Where none follows, or
/// reading gave up, that is noted.
fn read_one<H: Host>(
    host: &mut H,
    reader: &mut CapReader,
    packets: &mut Vec<Packet>,
    captured: &mut usize,
) -> Result<Option<Noted>, Status>
    requires reading { IsTrue (is_reading reader.old.state) }
    requires given { IsSome ((H.inputs host.old).name reader.old.id.0) }
    requires reach { InReach reader.old (H.inputs host.old) }
    requires number { reader.old.number + 1 < 2 ^ 64 }
    requires captured { captured.old ≡ captured_bytes packets.old.items }
    requires room { captured.old < window_bytes }
    ensures reads { ReadsOne result packets.old.items packets.new.items
        (place reader.old (H.inputs host.old)) (place reader.new (H.inputs host.new)) }
    ensures captured { IfOk result (λ _. captured.new ≡ captured_bytes packets.new.items) }
    ensures reach { InReach reader.new (H.inputs host.new) }
    ensures frame { MovesInputsOnly H.outputs H.files H.faults host.old host.new }
    ensures cause { IfOk result (λ noted. IfSome noted (HasNotedCause
        ((H.inputs host.old).name reader.old.id.0) (H.faults host.old) (H.faults host.new))) }
{
    fronts_tell();
    match next_packet(host, reader) {
        Ok(Following::Packet(packet)) => {
            let more = packet.bytes.as_slice().len();
            put(packets, packet)?;
            *captured += more;
            Ok(None)
        }
        Ok(Following::End(status)) => Ok(Some(Noted::Closes(status))),
        Err(status) => Ok(Some(given_up(status)?)),
    }
}

/// Notes how a run ends that has read as many packets as it may, `most`.
fn note_limit<H: Host>(host: &mut H, reader: &mut CapReader, most: u32) -> Result<Noted, Status>
    requires reading { IsTrue (is_reading reader.old.state) }
    requires given { IsSome ((H.inputs host.old).name reader.old.id.0) }
    requires reach { InReach reader.old (H.inputs host.old) }
    ensures notes { NotesLimit most result
        (place reader.old (H.inputs host.old)) (place reader.new (H.inputs host.new)) }
    ensures reach { InReach reader.new (H.inputs host.new) }
    ensures frame { MovesInputsOnly H.outputs H.files H.faults host.old host.new }
    ensures cause { IfOk result (HasNotedCause
        ((H.inputs host.old).name reader.old.id.0) (H.faults host.old) (H.faults host.new)) }
{
    match at_limit(host, reader, most) {
        Ok(status) => Ok(Noted::Closes(status)),
        Err(status) => given_up(status),
    }
}

/// Reads the packets of a window, until it is full, and notes what ended that: it takes `room.window` packets at most, and
/// none behind 16 MiB of captured bytes. `packets` comes empty. Err: memory was refused.
pub fn read_window<H: Host>(
    host: &mut H,
    reader: &mut CapReader,
    room: Room,
    packets: &mut Vec<Packet>,
) -> Result<Noted, Status>
    requires reading { IsTrue (is_reading reader.old.state) }
    requires given { IsSome ((H.inputs host.old).name reader.old.id.0) }
    requires reach { InReach reader.old (H.inputs host.old) }
    requires numbers { reader.old.number + room.left < 2 ^ 64 }
    requires window { 0 < room.window }
    requires empty { packets.old.items ≡ [] }
    ensures reads { ReadsWindow room result packets.new.items
        (place reader.old (H.inputs host.old)) (place reader.new (H.inputs host.new)) }
    ensures reading { WhereFull result (IsTrue (is_reading reader.new.state)) }
    ensures reach { InReach reader.new (H.inputs host.new) }
    ensures frame { MovesInputsOnly H.outputs H.files H.faults host.old host.new }
    ensures cause { IfOk result (HasNotedCause
        ((H.inputs host.old).name reader.old.id.0) (H.faults host.old) (H.faults host.new)) }
{
    let mut captured = 0;
    for _count in 0..room.window.min(room.left) {
        if captured >= MOST_WINDOW {
            return Ok(Noted::Full);
        }
        if let Some(noted) = read_one(host, reader, packets, &mut captured)? {
            return Ok(noted);
        }
    }
    if room.window < room.left {
        return Ok(Noted::Full);
    }
    note_limit(host, reader, room.most)
}
