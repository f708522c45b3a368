ghost use Rattle.std.specs.Prelude.{◌≡◌, ◌≤◌, length, map, None, IfOk};
ghost use Rattle.db_model.specs.Decoding.{literal, start_env};

use crate::{
    CheckedDb, Database, FieldValues, Literal, MOST_PROTOCOLS, MOST_QUESTIONS, MOST_TURNS,
    NoMemory, Packet, Reason, Row, Sequence, Value,
};
use std::alloc::Global;

/// The row last hit of each table, in the order of declaration.
pub type HitRows = Sequence<Option<Row>>;

/// The state of decoding that expressions see. Positions are in bytes from the packet's first byte.
#[derive(Drop)]
pub struct Env {
    pub packet: Packet,
    /// The position.
    pub at: u32,
    pub limit: u32,
    pub origin: u32,
    /// One value for each variable.
    pub vars: Row,
    pub hits: HitRows,
    pub present: FieldValues,
    /// The turns that are left.
    pub turns: u32,
    /// The questions that are left.
    pub questions: u32,
}

impl Env {
    /// The state with which the decoding of a packet begins.
    pub fn start(alloc: Global, db: &CheckedDb, packet: &Packet) -> Result<Env, NoMemory>
        ensures { IfOk result (λ e. e ≡ start_env db.now packet.now) }
    {
        Ok(Env {
            packet: packet.clone()?,
            at: 0,
            limit: packet.bytes.as_slice().len() as u32,
            origin: 0,
            vars: first_values(alloc, db)?,
            hits: no_hits(alloc, db.database())?,
            present: FieldValues::new(alloc),
            turns: MOST_TURNS,
            questions: MOST_QUESTIONS,
        })
    }
}

fn first_values(alloc: Global, db: &CheckedDb) -> Result<Row, NoMemory>
    ensures { IfOk result (λ r. r ≡ map (λ v. literal db.now v.value) db.now.variables) }
{
    let mut values = Row::new(alloc);
    for v in db.database().variables.as_slice() {
        values.push(first_value(db, &v.value)?)?;
    }
    Ok(values)
}

fn first_value(db: &CheckedDb, value: &Literal) -> Result<Value, NoMemory>
    requires { length db.now.protocols ≤ MOST_PROTOCOLS }
    ensures { IfOk result (λ v. v ≡ literal db.now value.now) }
{
    match value {
        Literal::Number(n) => Ok(Value::Num(*n)),
        Literal::Text(bytes) => Ok(Value::Buf(bytes.clone()?)),
        Literal::Protocol(name) => Ok(Value::Proto(db.protocol_at(name.as_slice()) as u16)),
    }
}

fn no_hits(alloc: Global, db: &Database) -> Result<HitRows, NoMemory>
    ensures { IfOk result (λ h. h ≡ map (λ d. None) db.now.tables) }
{
    let mut hits = HitRows::new(alloc);
    for _table in db.tables.as_slice() {
        hits.push(None)?;
    }
    Ok(hits)
}

/// The state of decoding that elements see.
#[derive(Drop)]
pub struct Frame {
    pub env: Env,
    /// The nodes that are left.
    pub nodes: u32,
}

/// How a list of elements ends.
#[derive(Clone, Copy, PartialEq, Eq)]
pub enum Way {
    /// At its end.
    Next,
    /// By leaving the innermost loop.
    Break,
    /// By going to the next turn of the innermost loop.
    Continue,
    /// By naming the next protocol.
    Chose(u16),
    /// By a reason that ends the packet's decoding.
    Stop(Reason),
}
