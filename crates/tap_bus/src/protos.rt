ghost use Rattle.std.specs.Prelude.{◌≡◌, ◌<◌, ◌≤◌, [], ◌∷◌, ◌++◌, length};
ghost use Rattle.tap_bus.specs.Told.{numbers_of};

use arrayvec::ArrayVec;
use db_model::Proto;
use std::marker::Model;

/// As many protocols as the tree of one packet has at most: those that it may enter, and the payload.
pub const MOST_PROTOS: usize = 33;

/// The numbers of the protocols of a packet's tree, in order. The payload's is 65,535.
#[derive(Drop)]
pub struct ProtoList {
    numbers: ArrayVec<u16, MOST_PROTOS>,
}

impl Model for ProtoList {
    ghost use Rattle.std.specs.Prelude.{List, ℕ};

    ghost Value = { List ℕ };

    ghost view = { λ p. p.numbers.items };
}

impl ProtoList {
    /// Takes no memory.
    pub fn new() -> ProtoList
        ensures { result ≡ [] }
    {
        ProtoList {
            numbers: ArrayVec::new(),
        }
    }

    /// Takes no memory.
    pub fn push(&mut self, number: u16)
        requires { length self.old < MOST_PROTOS }
        ensures { self.new ≡ self.old ++ number ∷ [] }
    {
        self.numbers.push(number);
    }

    /// The protocols of a tree. Takes no memory.
    pub fn of(tree: &[Proto]) -> ProtoList
        requires { length tree.now ≤ MOST_PROTOS }
        ensures { result ≡ numbers_of tree.now }
    {
        let mut list = ProtoList::new();
        for proto in tree {
            list.push(proto.number);
        }
        list
    }

    /// Takes no memory.
    pub fn as_slice(&self) -> &[u16]
        ensures { result.now ≡ self.now }
    {
        self.numbers.as_slice()
    }
}
