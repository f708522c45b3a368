ghost use Rattle.std.specs.Prelude.{◌≡◌, ◌≤◌, OnOk};
ghost use Rattle.decode_vm.specs.Machine.{closed_to, mode_behind, resumed, turned_to};
ghost use Rattle.decode_vm.specs.Resume.{IsBegun};

use crate::machine::{Again, Held, Machine, Mode};
use crate::turn::{leave, restore};
use db_model::{NoMemory, Node, Nodes, Way};
use std::mem;

/// Goes on with the list around one that ended in a way.
pub fn resume(held: Held, way: Way, m: &mut Machine) -> Result<(), NoMemory>
    requires { IsBegun held m.old.frame.env.at }
    ensures { OnOk result (m.new ≡ resumed held way m.old) }
{
    match held {
        Held::Block {
            number,
            from,
            before,
            after,
        } => close(number, from, before, after, way, m),
        Held::Loop { again, body, after } => {
            go_round(again, body, after, way, m);
            Ok(())
        }
    }
}

/// Closes a block that began at the position `from`, behind the nodes `before`.
fn close(
    number: u32,
    from: u32,
    before: Nodes,
    after: usize,
    way: Way,
    m: &mut Machine,
) -> Result<(), NoMemory>
    requires { from ≤ m.old.frame.env.at }
    ensures { OnOk result (m.new ≡ closed_to number from before after way m.old) }
{
    let size = m.frame.env.at - from;
    let nodes = mem::replace(&mut m.nodes, before);
    m.nodes.push(Node::Block {
        block: number,
        pos: from,
        size,
        nodes,
    })?;
    m.mode = mode_behind(after, way);
    Ok(())
}

/// Where a list goes on behind a part that ended in a way.
fn mode_behind(after: usize, way: Way) -> Mode
    ensures { result ≡ mode_behind after way }
{
    match way {
        Way::Next => Mode::At(after),
        Way::Break => Mode::Leaving(Way::Break),
        Way::Continue => Mode::Leaving(Way::Continue),
        Way::Chose(q) => Mode::Leaving(Way::Chose(q)),
        Way::Stop(reason) => Mode::Leaving(Way::Stop(reason)),
    }
}

/// Goes on with a loop after a turn.
fn go_round(again: Again, body: usize, after: usize, way: Way, m: &mut Machine)
    ensures { m.new ≡ turned_to again body after way m.old }
{
    match way {
        Way::Next | Way::Continue => m.mode = Mode::Turn { again, body, after },
        Way::Break => leave(again, after, m),
        Way::Chose(_) | Way::Stop(_) => {
            m.mode = Mode::Leaving(way);
            restore(again, m);
        }
    }
}
