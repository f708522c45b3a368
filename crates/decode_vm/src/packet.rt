ghost use Rattle.std.specs.Prelude.{◌≡◌, ◌+◌, ◌<◌, ◌++◌, IfOk, OnOk};
ghost use Rattle.db_model.specs.Decoding.{payload, start_env};
ghost use Rattle.decode_vm.specs.Decode.{Decodes};
ghost use Rattle.pdl_code.specs.Does.{IsCodeOf};

use crate::chain::{Chained, follow};
use crate::room::no_fields;
use crate::steps::Steps;
use db_laws::asks_properly;
use db_model::{
    Answers, Bytes, CheckedDb, Env, Frame, MOST_NODES, NoMemory, Node, Nodes, PAYLOAD, Packet,
    PacketTree, Proto, STAMP_END,
};
use pdl_code::Code;
use std::alloc::Global;
use std::sync::ledger::Ledger;

/// Decodes a packet. NoMemory: some first of its questions were asked. Counts a step in either case.
pub fn decode<A: Answers, L: Ledger>(
    alloc: Global,
    db: &CheckedDb,
    code: &Code,
    packet: &Packet,
    answers: &mut A,
    steps: &mut Steps<L>,
) -> Result<PacketTree, NoMemory>
    requires database { A.database answers.old ≡ db.now }
    requires time { packet.now.stamp < STAMP_END }
    requires code { IsCodeOf db.now code.now }
    ensures database { A.database answers.new ≡ db.now }
    ensures tree { Decodes db.now packet.now result
        (A.content answers.old) (A.told answers.old) (A.content answers.new) (A.told answers.new) }
    ensures steps { steps.new ≡ steps.old + 1 }
{
    steps.count();
    asks_properly();
    let _checked = db.database();
    let first = db.first_protocol();
    let env = start(alloc, db, packet)?;
    let frame = Frame {
        env,
        nodes: MOST_NODES,
    };
    let Chained { mut protos, frame } = follow(alloc, db, code, first, frame, answers)?;
    add_payload(alloc, &frame, &mut protos)?;
    Ok(protos)
}

/// The state with which the decoding begins.
fn start(alloc: Global, db: &CheckedDb, packet: &Packet) -> Result<Env, NoMemory>
    ensures { IfOk result (λ e. e ≡ start_env db.now packet.now) }
{
    let mut env = Env::start(alloc, db, packet)?;
    env.present = no_fields(alloc);
    Ok(env)
}

/// The bytes that no protocol took, as a protocol with one field.
fn add_payload(alloc: Global, frame: &Frame, protos: &mut PacketTree) -> Result<(), NoMemory>
    ensures { OnOk result (protos.new ≡ protos.old ++ payload frame.now) }
{
    let bytes = frame.env.packet.bytes.as_slice();
    let pos = frame.env.at;
    let from = pos as usize;
    if from < bytes.len() {
        let size = (bytes.len() - from) as u32;
        let value = Bytes::copy_of(alloc, &bytes[from..])?;
        let mut nodes = Nodes::new(alloc);
        nodes.push(Node::Field {
            field: 0,
            pos,
            size,
            value,
        })?;
        protos.push(Proto {
            number: PAYLOAD,
            pos,
            size,
            nodes,
        })?;
    }
    Ok(())
}
