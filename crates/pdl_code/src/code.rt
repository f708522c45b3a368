use crate::{Ranges, SoundKind};
use db_model::{Bytes, LoopControl, LoopKind, Validity};
use expr_code::ExprCode;
use sqlite_items::Items;

/// A key of an update.
#[derive(Drop)]
pub struct KeyCode {
    pub value: ExprCode,
    pub mask: Option<Bytes>,
}

/// The entry that an update adds to the table of this number. `keep` and `hit` are seconds.
#[derive(Drop)]
pub struct UpdateCode {
    pub table: usize,
    pub validity: Validity,
    pub keep: Option<u32>,
    pub hit: Option<u32>,
    pub keys: Items<KeyCode>,
    pub row: Items<ExprCode>,
}

/// Where a switch jumps: to the target of the first range that holds its value, which has the range's place.
#[derive(Drop)]
pub struct Choice {
    pub ranges: Ranges,
    pub targets: Items<usize>,
    pub otherwise: usize,
}

/// One step of a list of elements. Each list ends with `End`. What an operation names is a number: of a field, a
/// block, a variable or a table, in the order of declaration, from 0. `to`, `after`, the targets and `otherwise`
/// are distances: so many operations are skipped behind this one. All jumps go forward.
#[derive(Drop)]
pub enum Op {
    /// The end of a list: of the protocol's own one, of a named block, or of the body of a block or a loop.
    End,
    /// A field whose kind says where it ends.
    Field {
        number: u32,
        kind: SoundKind,
    },
    /// A field whose size in bytes is a value.
    SizedField {
        number: u32,
        size: ExprCode,
    },
    Assign {
        variable: usize,
        value: ExprCode,
    },
    Update(UpdateCode),
    NextProto {
        value: ExprCode,
    },
    /// Leaves the turn of the innermost loop, and on `Break` the loop.
    Leave {
        kind: LoopControl,
    },
    Jump {
        to: usize,
    },
    /// Jumps where the value is 0.
    Test {
        value: ExprCode,
        to: usize,
    },
    Switch {
        value: ExprCode,
        choice: Choice,
    },
    /// A block, whose body stands behind it.
    Block {
        number: u32,
        after: usize,
    },
    /// A named block, by its place in the protocol.
    Include {
        block: usize,
    },
    /// A loop, whose body stands behind it.
    Loop {
        kind: LoopKind,
        value: ExprCode,
        after: usize,
    },
}

/// Where the list of a named block begins, and the block's number.
#[derive(Clone, Copy, PartialEq, Eq)]
pub struct BlockStart {
    pub number: u32,
    pub at: usize,
}

/// The operations of a protocol: its own list at place 0, then that of each named block.
#[derive(Drop)]
pub struct ProtoCode {
    pub ops: Items<Op>,
    /// Of the named blocks, in their order.
    pub blocks: Items<BlockStart>,
}

/// The code of a database, protocol by protocol.
#[derive(Drop)]
pub struct Code {
    pub protocols: Items<ProtoCode>,
}
