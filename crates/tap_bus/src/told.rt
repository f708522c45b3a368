ghost use Rattle.std.specs.Prelude.{◌≡◌, ◌≤◌, length};
ghost use Rattle.tap_bus.specs.Told.{told_of};

use crate::protos::{MOST_PROTOS, ProtoList};
use db_model::{Packet, PacketTree, Stamp};

/// What a tap is told of a packet.
#[derive(Drop)]
pub struct Told {
    /// The packet's place in the capture, from 0.
    pub number: u64,
    pub stamp: Stamp,
    /// The number of captured bytes.
    pub caplen: u32,
    pub protos: ProtoList,
}

impl Told {
    /// What is told of a packet with its tree. Takes no memory.
    pub fn of(packet: &Packet, tree: &PacketTree) -> Told
        requires { length tree.now ≤ MOST_PROTOS }
        ensures { result ≡ told_of packet.now tree.now }
    {
        Told {
            number: packet.number,
            stamp: packet.stamp,
            caplen: packet.bytes.as_slice().len() as u32,
            protos: ProtoList::of(tree.as_slice()),
        }
    }
}

/// What one thread may hand on to another.
trait HandedOn: Send {}

impl HandedOn for Told {}
