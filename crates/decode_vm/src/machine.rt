use db_model::{Frame, Nodes, Reason, Way};
use sqlite_items::Items;

/// What a loop needs to know before each further turn.
#[derive(Clone, Copy, PartialEq, Eq)]
pub enum Again {
    /// So many turns are left.
    Count { left: u32 },
    /// The loop stands at this place, with the expression that is tested.
    While { at: usize },
    /// The limit that is set again behind the loop.
    Size { old: u32 },
}

/// A list that was left for one inside it, with the place behind that one.
#[derive(Drop)]
pub enum Held {
    /// A block began at the position `from`, behind the nodes `before` of the list around it.
    Block {
        number: u32,
        from: u32,
        before: Nodes,
        after: usize,
    },
    /// A loop whose body stands at the place `body`.
    Loop {
        again: Again,
        body: usize,
        after: usize,
    },
}

/// What comes next.
#[derive(Clone, Copy, PartialEq, Eq)]
pub enum Mode {
    /// The operation at a place.
    At(usize),
    /// A loop's next turn, where it makes one.
    Turn {
        again: Again,
        body: usize,
        after: usize,
    },
    /// The list ended in this way.
    Leaving(Way),
}

/// The engine in the list of one protocol.
#[derive(Drop)]
pub struct Machine {
    pub mode: Mode,
    /// The lists around the innermost one, from the outermost inwards.
    pub held: Items<Held>,
    /// The nodes of the innermost open block, or of the protocol where none is open.
    pub nodes: Nodes,
    pub frame: Frame,
}
