ghost use Rattle.std.specs.Prelude.{◌≡◌, ◌≤◌, replicate, IfOk, length, vec_len, vec_capacity, Some};
ghost use Rattle.spec_core.specs.Machine.{taken_in};
ghost use Rattle.spec_core.specs.Events.{or_else, settled_slot, readies_of};
ghost use Rattle.spec_core.specs.declared.slot.Slot.TheVariants as slot;

use crate::texts::Texts;
use db_model::NoMemory;
use engine::{Outcome, Receipt, Taken};
use op_log::Transcript;
use std::alloc::Global;

/// A packet that was decoded without the core: when it was taken, what it asked and what is handed out of it.
#[derive(Drop)]
pub struct Speculation {
    pub number: u64,
    pub taken: Taken,
    pub log: Transcript,
    pub texts: Texts,
}

impl Speculation {
    pub fn number(&self) -> u64
        ensures { result ≡ self.now.number }
    {
        self.number
    }

    pub fn taken(&self) -> Taken
        ensures { result ≡ self.now.taken }
    {
        self.taken
    }
}

/// A settled packet.
#[derive(Drop)]
pub struct Ready {
    pub texts: Texts,
    pub receipt: Receipt,
}

/// Where a packet of the window stands: not taken, taken, delivered, or settled.
#[derive(Drop)]
pub enum Slot {
    Free,
    Out(Taken),
    In(Speculation),
    Settled(Ready),
}

impl Slot {
    /// v and c of a packet that was taken.
    pub fn taken(&self) -> Option<Taken>
        ensures { result ≡ taken_in (Some self.now) }
    {
        match self {
            Slot::Free => None,
            Slot::Out(taken) => Some(*taken),
            Slot::In(s) => Some(s.taken),
            Slot::Settled(y) => y.receipt.taken,
        }
    }

    /// A delivered packet, settled: with these texts in place of its own, where there are some.
    pub fn settled(self, texts: Option<Texts>, outcome: Outcome) -> Slot
        ensures { result ≡ settled_slot self texts outcome }
    {
        match self {
            Slot::In(s) => {
                let Speculation {
                    number,
                    taken,
                    log: _,
                    texts: own,
                } = s;
                Slot::Settled(Ready {
                    texts: either(texts, own),
                    receipt: Receipt {
                        number,
                        taken: Some(taken),
                        outcome,
                    },
                })
            }
            other => other,
        }
    }
}

fn either(texts: Option<Texts>, own: Texts) -> Texts
    ensures { result ≡ or_else texts own }
{
    match texts {
        Some(texts) => texts,
        None => own,
    }
}

/// The slots of a window of which nothing is taken.
pub fn free_slots(alloc: Global, count: usize) -> Result<Vec<Slot>, NoMemory>
    ensures { IfOk result (λ v. v.items ≡ replicate count slot.Free) }
{
    let mut slots = Vec::new(alloc);
    for _ in 0..count {
        slots.push(Slot::Free)?;
    }
    Ok(slots)
}

/// What settled slots hold, in order, put into a list that has room for it. Takes no memory.
pub fn readies(slots: Vec<Slot>, mut list: Vec<Ready>) -> Vec<Ready>
    requires empty { vec_len list ≡ 0 }
    requires room { length slots.items ≤ vec_capacity list }
    ensures { result.items ≡ readies_of slots.items }
{
    for slot in slots {
        if let Slot::Settled(ready) = slot {
            list.push_reserved(ready);
        }
    }
    list
}

/// What one thread may hand on to another.
trait HandedOn: Send {}

impl HandedOn for Speculation {}

impl HandedOn for Ready {}
