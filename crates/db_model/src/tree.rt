ghost use Rattle.std.specs.Prelude.{◌≡◌};
ghost use Rattle.db_model.specs.Reason.{reason_word};

use crate::Bytes;
use sqlite_items::Items;

/// Why the decoding of a packet ended early. The outputs write the variant in lower case.
#[derive(Clone, Copy, Debug, PartialEq, Eq)]
pub enum Reason {
    Short,
    Turns,
    Nodes,
    Protocols,
    Questions,
    NoField,
    NoHit,
    Range,
    Zero,
    Slice,
    Size,
    KeySize,
    DataSize,
}

impl Reason {
    /// The word that the outputs have for it.
    pub fn word(self) -> &'static str
        ensures { result.now ≡ reason_word self }
    {
        match self {
            Reason::Short => "short",
            Reason::Turns => "turns",
            Reason::Nodes => "nodes",
            Reason::Protocols => "protocols",
            Reason::Questions => "questions",
            Reason::NoField => "nofield",
            Reason::NoHit => "nohit",
            Reason::Range => "range",
            Reason::Zero => "zero",
            Reason::Slice => "slice",
            Reason::Size => "size",
            Reason::KeySize => "keysize",
            Reason::DataSize => "datasize",
        }
    }
}

/// What was decoded of a packet: its protocols in order.
pub type PacketTree = Items<Proto>;

/// The nodes of one protocol or block, in order.
pub type Nodes = Items<Node>;

/// One decoded protocol. Positions and sizes are in bytes, positions from the packet's first byte.
#[derive(Drop)]
pub struct Proto {
    /// The protocol's number in its database, or 65,535 for the payload.
    pub number: u16,
    pub pos: u32,
    pub size: u32,
    pub nodes: Nodes,
}

/// A part of a decoded protocol. `field` and `block` count the field and block elements of the protocol
/// in the order of its text, from 0.
#[derive(Drop)]
pub enum Node {
    Field {
        field: u32,
        pos: u32,
        size: u32,
        value: Bytes,
    },
    Block {
        block: u32,
        pos: u32,
        size: u32,
        nodes: Items<Node>,
    },
    Note {
        reason: Reason,
        pos: u32,
    },
}
