use db_model::Answer;

/// When a packet was taken: `v` is how many packets the published view held, `c` how many were committed. Both count from
/// the first packet of the capture.
#[derive(Clone, Copy)]
pub struct Taken {
    pub v: u64,
    pub c: u64,
}

/// Why the calling thread decoded a packet.
#[derive(Clone, Copy)]
pub enum Why {
    /// There were no workers.
    Serial,
    /// A worker gave up.
    GaveUp,
    /// A worker was refused memory.
    NoMemory,
}

/// How a packet was settled.
#[derive(Drop)]
pub enum Outcome {
    /// The answers that it had got still held.
    Kept,
    /// It was decoded again. The place of the first question whose answer was another one, from 0, the answer that it
    /// had got and the new one.
    Again {
        index: u32,
        old: Answer,
        new: Answer,
    },
    /// The calling thread decoded it.
    Direct(Why),
}

/// What is said of a packet that was decoded. Packets are numbered from the first one of the capture, from 0.
#[derive(Drop)]
pub struct Receipt {
    pub number: u64,
    /// None: it wasn't taken before.
    pub taken: Option<Taken>,
    pub outcome: Outcome,
}
