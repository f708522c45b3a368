ghost use Rattle.std.specs.Prelude.{◌≡◌, ◌<◌, [], IsSome, IsTrue};
ghost use Rattle.npd_host.specs.Host.{NoneFalls};
ghost use Rattle.pcap_in.specs.Reader.{is_reading, InReach};
ghost use Rattle.pipeline.specs.Causes.{HasCause, decodes_capture};
ghost use Rattle.pipeline.specs.Written.{output_of};
ghost use Rattle.pipeline.specs.Packets.{NamedAre, OpensNames};
ghost use Rattle.pipeline.specs.Serial.{serial_lines};
ghost use Rattle.pipeline.specs.Taken.{GaveSome};

use crate::pipeline::Pipeline;
use crate::reading::Room;
use crate::sinks::{OutputFiles, open_outputs};
use crate::status::Status;
use engine::Engine;
use npd_host::Host;
use pcap_in::CapReader;
use std::alloc::Global;
use std::marker::Brand;
use std::sync::ledger::Blank;

/// Opens the outputs that are named, and writes the packets of a capture to them, each decoded at most once: no more of
/// them than the room has left, all of which is left yet.
pub fn write_named<H: Host>(
    alloc: Global,
    host: &mut H,
    engine: &Engine,
    reader: CapReader,
    outputs: &OutputFiles,
    room: Room,
) -> Status
    requires window { 0 < room.window }
    requires fresh { room.left ≡ room.most }
    requires number { reader.number ≡ 0 }
    requires kept { reader.kept ≡ [] }
    requires reading { IsTrue (is_reading reader.state) }
    requires input { IsSome ((H.inputs host.old).name reader.id.0) }
    requires reach { InReach reader (H.inputs host.old) }
    ensures named { NamedAre engine.now serial_lines room.most outputs.now result reader
        (H.inputs host.old) (H.inputs host.new) (H.outputs host.old) (H.outputs host.new) }
    ensures inputs { GaveSome reader.id.0 (H.inputs host.old) (H.inputs host.new) }
    ensures opens { OpensNames result outputs.now
        (H.outputs host.old).opened (H.outputs host.new).opened }
    ensures files { H.files host.new ≡ H.files host.old }
    ensures later { NoneFalls (H.faults host.old) (H.faults host.new) }
    ensures cause { HasCause
        (decodes_capture ((H.inputs host.old).name reader.id.0) (output_of outputs.now))
        (H.faults host.old) (H.faults host.new) result }
{
    let sinks = match open_outputs(host, outputs) {
        Ok(sinks) => sinks,
        Err(status) => return status,
    };
    match Pipeline::new(alloc, engine, reader, sinks, room) {
        Ok(way) => way.run::<H, Brand>(host, Blank::new(1)),
        Err(_) => Status::NoMemory,
    }
}
