ghost use Rattle.std.specs.Prelude.{◌≡◌, ◌<◌, ◌-◌, IfOk};
ghost use Rattle.db_model.specs.Chain.{chain};
ghost use Rattle.decode_vm.specs.Chain.{ChainEnds, Named, ProtocolEnds, from_here};
ghost use Rattle.decode_vm.specs.Left.{AllFit};
ghost use Rattle.decode_vm.specs.Run.{IsPlaced};
ghost use Rattle.pdl_code.specs.Does.{IsCodeOf};

use crate::list::{Ended, run};
use crate::room::no_protocols;
use db_model::{
    Answers, CheckedDb, Frame, MOST_ENTERED, NoMemory, Node, Nodes, PacketTree, Proto, Reason,
    STAMP_END, Way,
};
use pdl_code::Code;
use std::alloc::Global;

/// The protocols of a packet in order, and the state behind the last one.
#[derive(Drop)]
pub struct Chained {
    pub protos: PacketTree,
    pub frame: Frame,
}

/// Runs the protocol of this number, and those that follow, as each names the next. NoMemory: some first of their
/// questions were asked.
pub fn follow<A: Answers>(
    alloc: Global,
    db: &CheckedDb,
    code: &Code,
    first: u16,
    frame: Frame,
    answers: &mut A,
) -> Result<Chained, NoMemory>
    requires database { A.database answers.old ≡ db.now }
    requires time { frame.env.packet.stamp < STAMP_END }
    requires placed { IsPlaced frame }
    requires code { IsCodeOf db.now code.now }
    requires fit { AllFit db.now (chain db.now MOST_ENTERED first frame) }
    ensures database { A.database answers.new ≡ db.now }
    ensures ends { ChainEnds db.now MOST_ENTERED first frame
        (A.content answers.old) (A.told answers.old) result (A.content answers.new) (A.told answers.new) }
    ensures packet { IfOk result (λ e. e.frame.env.packet ≡ frame.env.packet) }
    ensures placed { IfOk result (λ e. IsPlaced e.frame) }
{
    let mut protos = no_protocols(alloc);
    let mut number = first;
    let mut frame = frame;
    let mut left = MOST_ENTERED - 1;
    loop {
        let from = frame.env.at;
        let mut ended = protocol(alloc, db, code, number, frame, answers)?;
        let next = onward(&mut ended, left)?;
        let Ended {
            nodes,
            frame: behind,
            ..
        } = ended;
        protos.push(proto(number, from, nodes, behind.env.at))?;
        frame = behind;
        match next {
            Some(q) => {
                number = q;
                left = left.saturating_sub(1);
            }
            None => return Ok(Chained { protos, frame }),
        }
    }
}

/// Runs the protocol of this number, from the position on. One that isn't declared is empty.
fn protocol<A: Answers>(
    alloc: Global,
    db: &CheckedDb,
    code: &Code,
    number: u16,
    mut frame: Frame,
    answers: &mut A,
) -> Result<Ended, NoMemory>
    requires database { A.database answers.old ≡ db.now }
    requires time { frame.env.packet.stamp < STAMP_END }
    requires placed { IsPlaced frame }
    requires code { IsCodeOf db.now code.now }
    requires fit { AllFit db.now (from_here db.now number frame) }
    ensures database { A.database answers.new ≡ db.now }
    ensures ends { ProtocolEnds db.now number frame
        (A.content answers.old) (A.told answers.old) result (A.content answers.new) (A.told answers.new) }
    ensures packet { IfOk result (λ e. e.frame.env.packet ≡ frame.env.packet) }
    ensures placed { IfOk result (λ e. IsPlaced e.frame) }
{
    frame.env.origin = frame.env.at;
    frame.env.present.clear();
    let Some(_declared) = db.database().protocols.get(number as usize) else {
        return Ok(Ended {
            way: Way::Next,
            nodes: Nodes::new(alloc),
            frame,
        });
    };
    let Some(code) = code.protocols.get(number as usize) else {
        unreachable!()
    };
    run(alloc, db, code, frame, answers)
}

/// The protocol that follows, of which `left` may still be entered. Where one is named and none is left, a note is
/// the last node.
fn onward(ended: &mut Ended, left: u32) -> Result<Option<u16>, NoMemory>
    ensures { Named left ended.old result ended.new }
{
    let Way::Chose(q) = ended.way else {
        return Ok(None);
    };
    let at = ended.frame.env.at;
    if ended.frame.env.packet.bytes.as_slice().len() <= at as usize {
        return Ok(None);
    }
    if left == 0 {
        let reason = Reason::Protocols;
        ended.nodes.push(Node::Note { reason, pos: at })?;
        return Ok(None);
    }
    Ok(Some(q))
}

/// A protocol of the tree, from one position to another.
fn proto(number: u16, from: u32, nodes: Nodes, to: u32) -> Proto
    ensures { result ≡ record { number = number; pos = from; size = to - from; nodes = nodes } }
{
    Proto {
        number,
        pos: from,
        size: to.saturating_sub(from),
        nodes,
    }
}
