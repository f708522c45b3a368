use db_model::{Answer, PacketTree, Question, Sequence};

/// Questions with the answers that they got, in the order of asking.
pub type Transcript = Sequence<(Question, Answer)>;

/// What was decoded of a packet, and what was asked for it.
#[derive(Drop)]
pub struct Record {
    pub tree: PacketTree,
    pub log: Transcript,
}

/// Whether a transcript agrees with a session.
#[derive(Drop)]
pub enum Check {
    /// Each question gets its noted answer.
    Agrees,
    /// The place of the first question whose answer isn't the noted one, from 0, the noted answer and the new one.
    Differs {
        index: u32,
        old: Answer,
        new: Answer,
    },
}

/// What one thread may hand on to another.
trait HandedOn: Send {}

impl HandedOn for Transcript {}

impl HandedOn for Record {}

impl HandedOn for Check {}
