ghost use Rattle.std.specs.Prelude.{◌≡◌, ◌+◌, ◌<◌, slice_get, Some, IfOk, OnOk, OnErr};
ghost use Rattle.std.specs.Arc.{arc_value};
ghost use Rattle.db_model.specs.Serial.{decoded};
ghost use Rattle.db_model.specs.declared.limits.TheConstants.{STAMP_END};
ghost use Rattle.db_model.specs.declared.packet.Packet as packet;
ghost use Rattle.spec_core.specs.Settling.{AtMostOne};
ghost use Rattle.spec_core.specs.Texts.{texts_in};

use crate::settling::{Decoded, decode_over};
use crate::slot::Speculation;
use db_model::{NoMemory, Packet, Sequence};
use decode_vm::Steps;
use engine::{Engine, Taken, Wanted};
use session::SessionView;
use std::alloc::Global;
use std::marker::Model;
use std::sync::Arc;
use std::sync::ledger::Ledger;

/// A packet that was given out to be decoded, with the view from which it is decoded. It can't be copied.
#[derive(Drop)]
pub struct Job {
    number: u64,
    taken: Taken,
    wanted: Wanted,
    packets: Arc<Sequence<Packet>, Global>,
    at: usize,
    view: Arc<SessionView, Global>,
}

impl Model for Job {
    ghost use Rattle.spec_core.specs.Jobs.{Known, known, IsJob};
    ghost use Rattle.db_model.specs.contracts.database.Database as database;
    ghost use Rattle.db_model.specs.contracts.entry.Entry as entry;
    ghost use Rattle.db_model.specs.contracts.packet.Packet as packet;
    ghost use Rattle.spec_core.specs.Codes.{known_code};

    ghost Value = { Known };

    ghost coded = { known_code database.the_row.coded entry.the_row.coded packet.the_row.coded };

    ghost view = { known };

    ghost invariant = { IsJob };
}

impl Job {
    /// The packet at a place of a window, with a view. Takes no memory.
    pub(crate) fn of(
        number: u64,
        taken: Taken,
        wanted: Wanted,
        packets: Arc<Sequence<Packet>, Global>,
        at: usize,
        view: Arc<SessionView, Global>,
    ) -> Job
        requires { (p : packet.Packet) × (slice_get (arc_value packets) at ≡ Some p) × (p.stamp < STAMP_END) }
        ensures { result ≡ record {
          number = number;
          taken = taken;
          wanted = wanted;
          packet = slice_get (arc_value packets) at;
          view = arc_value view;
        } }
    {
        Job {
            number,
            taken,
            wanted,
            packets,
            at,
            view,
        }
    }

    pub fn number(&self) -> u64
        ensures { result ≡ self.now.number }
    {
        self.number
    }

    pub fn taken(&self) -> Taken
        ensures { result ≡ self.now.taken }
    {
        self.taken
    }

    fn packet(&self) -> &Packet
        ensures packet { self.now.packet ≡ Some result.now }
        ensures time { result.now.stamp < STAMP_END }
    {
        &self.packets.as_slice()[self.at]
    }

    fn view(&self) -> &SessionView
        ensures { result.now ≡ self.now.view }
    {
        &self.view
    }
}

/// Decodes the packet of a job from its view. Counts a step where it decoded, also where memory was refused.
pub fn speculate<L: Ledger>(
    alloc: Global,
    engine: &Engine,
    job: Job,
    steps: &mut Steps<L>,
) -> Result<Speculation, NoMemory>
    requires database { job.view.database ≡ engine.now }
    ensures number { IfOk result (λ s. s.number ≡ job.number) }
    ensures taken { IfOk result (λ s. s.taken ≡ job.taken) }
    ensures log { IfOk result (λ s. s.log ≡ (decoded engine.now job.packet job.view.content).log) }
    ensures texts { IfOk result (λ s. s.texts ≡ texts_in job.wanted engine.now job.packet
        (decoded engine.now job.packet job.view.content).result) }
    ensures counted { OnOk result (steps.new ≡ steps.old + 1) }
    ensures refused { OnErr result (AtMostOne steps.old steps.new) }
{
    let Decoded { texts, log } = decode_over(
        alloc,
        engine,
        job.wanted,
        job.packet(),
        job.view(),
        steps,
    )?;
    Ok(Speculation {
        number: job.number(),
        taken: job.taken(),
        log,
        texts,
    })
}

/// What one thread may hand on to another.
trait HandedOn: Send {}

impl HandedOn for Job {}
