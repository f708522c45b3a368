ghost use Rattle.std.specs.Prelude.{◌≡◌, ◌+◌, ◌<◌, ◌≤◌, ◌^◌, length, replicate, vec_len, vec_capacity, nat_lt, if◌then◌else◌, IfOk};
ghost use Rattle.std.specs.Arc.{arc_value};
ghost use Rattle.session.specs.State.{view_of};
ghost use Rattle.spec_core.specs.declared.slot.Slot.TheVariants as slot;

use crate::slot::{Ready, Slot, free_slots};
use db_model::{NoMemory, Packet, Sequence};
use session::{Session, SessionView};
use std::alloc::Global;
use std::sync::Arc;

/// What a window wants of memory.
#[derive(Drop)]
pub struct Window {
    pub packets: Arc<Sequence<Packet>, Global>,
    pub slots: Vec<Slot>,
    pub ready: Vec<Ready>,
    pub base: Arc<SessionView, Global>,
    pub published: Arc<SessionView, Global>,
}

/// A window of these packets, of which nothing is taken, with the session as its base and its first view.
pub fn window_of(
    alloc: Global,
    packets: Vec<Packet>,
    session: &mut Session,
) -> Result<Window, NoMemory>
    ensures same { session.new ≡ session.old }
    ensures packets { IfOk result (λ w. arc_value w.packets ≡ packets.items) }
    ensures slots { IfOk result (λ w. w.slots.items ≡ replicate (length packets.items) slot.Free) }
    ensures ready { IfOk result (λ w. (vec_len w.ready ≡ 0) × (length packets.items ≤ vec_capacity w.ready)) }
    ensures base { IfOk result (λ w. (arc_value w.base).content ≡ session.old.content) }
    ensures published { IfOk result (λ w. arc_value w.published ≡ view_of session.old) }
{
    let count = packets.len();
    let slots = free_slots(alloc, count)?;
    let ready = Vec::with_capacity(alloc, count)?;
    let published = shared_view(alloc, session)?;
    let base = Arc::try_clone(&published)?;
    let packets = Arc::new(alloc, Sequence::from_vec(packets))?;
    Ok(Window {
        packets,
        slots,
        ready,
        base,
        published,
    })
}

/// The first packet that isn't taken, where this one is settled.
pub fn next_given(done: usize, given: usize) -> usize
    requires { done < 2 ^ 63 }
    ensures { result ≡ (if nat_lt done given then given else done + 1) }
{
    if done < given { given } else { done + 1 }
}

/// A view of a session, to be shared.
pub fn shared_view(
    alloc: Global,
    session: &mut Session,
) -> Result<Arc<SessionView, Global>, NoMemory>
    ensures same { session.new ≡ session.old }
    ensures view { IfOk result (λ v. arc_value v ≡ view_of session.old) }
{
    Ok(Arc::new(alloc, session.snapshot()?)?)
}
