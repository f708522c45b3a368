ghost use Rattle.std.specs.Prelude.{◌≡◌, ◌<◌, ◌++◌, IsTrue, IsSome, IfSome, IfErr, IfOk};
ghost use Rattle.db_model.specs.declared.limits.TheConstants.{STAMP_END};
ghost use Rattle.npd_host.specs.Host.{MovesInputsOnly};
ghost use Rattle.pcap_in.specs.Reader.{is_usable, is_reading, left, InReach};
ghost use Rattle.pcap_in.specs.Reading.{OnlyRead};
ghost use Rattle.pipeline.specs.CaptureRead.{CaptureOpens, FollowingIs, FollowingTakes, IsStamped, BehindPacket, LimitIs, LimitTakes};
ghost use Rattle.pipeline.specs.Causes.{capture_status, HasCause, opens_capture, reads_capture};
ghost use Rattle.pipeline.specs.Opened.{OpensOne};

use crate::status::{Role, Status, refused};
use db_model::Packet;
use npd_host::Host;
use pcap_in::{CapFail, CapReader, Next};
use std::alloc::Global;

/// What follows in a capture.
#[derive(Drop)]
pub enum Following {
    Packet(Packet),
    /// Nothing, and how the run ends once its output is closed.
    End(Status),
}

/// The status of a capture that can't be read on.
fn status_of(fail: CapFail) -> Status
    ensures { result ≡ capture_status fail }
{
    match fail {
        CapFail::Broken { offset, code } => Status::Capture { offset, code },
        CapFail::ReadFault => Status::Read { role: Role::Cap },
        CapFail::NoMemory => Status::NoMemory,
    }
}

/// Opens a capture and reads its file header.
pub fn open_capture<H: Host>(alloc: Global, host: &mut H, name: &str) -> Result<CapReader, Status>
    ensures capture { CaptureOpens result name.now (H.files host.old name.now)
        (H.inputs host.old) (H.inputs host.new) }
    ensures opens { OpensOne name.now (H.inputs host.old).opened (H.inputs host.new).opened result }
    ensures frame { MovesInputsOnly H.outputs H.files H.faults host.old host.new }
    ensures cause { IfErr result (HasCause (opens_capture name.now)
        (H.faults host.old) (H.faults host.new)) }
{
    let id = match host.open_in(name) {
        Ok(id) => id,
        Err(fail) => return Err(refused(fail, Status::Open { role: Role::Cap })),
    };
    match CapReader::begin(alloc, host, id) {
        Ok(reader) => Ok(reader),
        Err(fail) => Err(status_of(fail)),
    }
}

/// Reads what follows: a packet, or the end, where the capture is whole or broken.
pub fn next_packet<H: Host>(host: &mut H, reader: &mut CapReader) -> Result<Following, Status>
    requires usable { IsTrue (is_usable reader.old.state) }
    requires given { IsSome ((H.inputs host.old).name reader.old.id.0) }
    requires reach { InReach reader.old (H.inputs host.old) }
    ensures follows { IfSome (left reader.old (H.inputs host.old))
        (FollowingIs result (left reader.new (H.inputs host.new))) }
    ensures takes { OnlyRead reader.old.id.0 (H.inputs host.old) (H.inputs host.new) (λ bytes.
        FollowingTakes result reader.old.form reader.old.number (reader.old.kept ++ bytes) reader.new.kept) }
    ensures behind { BehindPacket result reader.old reader.new }
    ensures stamp { IfOk result (IsStamped STAMP_END) }
    ensures reach { InReach reader.new (H.inputs host.new) }
    ensures frame { MovesInputsOnly H.outputs H.files H.faults host.old host.new }
    ensures cause { IfErr result (HasCause (reads_capture ((H.inputs host.old).name reader.old.id.0))
        (H.faults host.old) (H.faults host.new)) }
{
    match reader.next(host) {
        Ok(Next::Packet(packet)) => Ok(Following::Packet(packet)),
        Ok(Next::End) => Ok(Following::End(Status::Done)),
        Err(CapFail::Broken { offset, code }) => {
            Ok(Following::End(Status::Capture { offset, code }))
        }
        Err(CapFail::ReadFault) => Err(Status::Read { role: Role::Cap }),
        Err(CapFail::NoMemory) => Err(Status::NoMemory),
    }
}

/// How a run ends that has read as many packets as it may, `most`: it is done where nothing follows.
pub fn at_limit<H: Host>(host: &mut H, reader: &mut CapReader, most: u32) -> Result<Status, Status>
    requires reading { IsTrue (is_reading reader.old.state) }
    requires given { IsSome ((H.inputs host.old).name reader.old.id.0) }
    requires reach { InReach reader.old (H.inputs host.old) }
    ensures limit { IfSome (left reader.old (H.inputs host.old)) (LimitIs most result) }
    ensures takes { OnlyRead reader.old.id.0 (H.inputs host.old) (H.inputs host.new)
        (λ bytes. LimitTakes most result (reader.old.kept ++ bytes)) }
    ensures reach { InReach reader.new (H.inputs host.new) }
    ensures frame { MovesInputsOnly H.outputs H.files H.faults host.old host.new }
    ensures cause { IfErr result (HasCause (reads_capture ((H.inputs host.old).name reader.old.id.0))
        (H.faults host.old) (H.faults host.new)) }
{
    match reader.more(host) {
        Ok(true) => Ok(Status::PacketLimit { max: most }),
        Ok(false) => Ok(Status::Done),
        Err(fail) => Err(status_of(fail)),
    }
}
