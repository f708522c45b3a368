ghost use Rattle.std.specs.Prelude.{◌≡◌, ◌+◌, ◌<◌, ◌≤◌, ◌^◌, ◌==◌, length, slice_get, true, false, IfOk, OnOk, OnErr};
ghost use Rattle.std.specs.Arc.{arc_value};
ghost use Rattle.db_model.specs.Session.{declared};
ghost use Rattle.pdl_code.specs.Does.{IsCodeOf};
ghost use Rattle.spec_core.specs.Commits.{Commits, Counts, Takes};
ghost use Rattle.spec_core.specs.Events.{CanBegin, CanDeliver, CanPutBack, CanTake, begun, delivered, direct_of, drained};
ghost use Rattle.spec_core.specs.Events.{is_in, job_of, opened, published, published_if_far, readies_of, settled, stopped};
ghost use Rattle.spec_core.specs.Events.{taken_of, took, untook};
ghost use Rattle.spec_core.specs.Machine.{IsSound, state_at};
ghost use Rattle.spec_core.specs.Settling.{AtMostOne};
ghost use Rattle.spec_core.specs.Whole.{IsWhole};

use crate::committed::Committed;
use crate::job::Job;
use crate::settling::Decoder;
use crate::slot::{Ready, Slot, Speculation, readies};
use crate::window::{next_given, shared_view, window_of};
use db_model::{CheckedDb, NoMemory, Packet, Sequence};
use decode_vm::Steps;
use engine::{Engine, Outcome, Receipt, Taken, Wanted, Why};
use pdl_code::Code;
use session::{Session, SessionView};
use std::alloc::Global;
use std::marker::Model;
use std::mem;
use std::sync::Arc;
use std::sync::ledger::Ledger;

/// The core of a run: the packets of one window, what became of each, and the session of those that are committed. Seen
/// as its machine.
#[derive(Drop)]
pub struct Core {
    decoder: Decoder,
    /// The session with which the window began, and the number of its first packet.
    base: Arc<SessionView, Global>,
    first: u64,
    packets: Arc<Sequence<Packet>, Global>,
    /// The session of the committed packets.
    session: Session,
    published: Arc<SessionView, Global>,
    /// How many packets of the window the published view holds, how many are committed, and the first that isn't taken.
    shown: usize,
    done: usize,
    given: usize,
    halted: bool,
    slots: Vec<Slot>,
    /// Room for what is drained.
    ready: Vec<Ready>,
}

impl Model for Core {
    ghost use Rattle.spec_core.specs.Machine.{Machine};
    ghost use Rattle.db_model.specs.contracts.database.Database as database;
    ghost use Rattle.db_model.specs.contracts.entry.Entry as entry;
    ghost use Rattle.db_model.specs.contracts.packet.Packet as packet;
    ghost use Rattle.spec_core.specs.contracts.slot.Slot as standing;
    ghost use Rattle.spec_core.specs.Codes.{machine_code};

    ghost Value = { Machine };

    ghost coded = { machine_code database.the_row.coded entry.the_row.coded packet.the_row.coded standing.the_row.coded };

    ghost use Rattle.spec_core.specs.Inside.{machine_of, Invariant};

    ghost view = { machine_of };

    ghost invariant = { Invariant };
}

impl Core {
    /// A core of a database with its code, whose session is the declared one. It has begun no window.
    pub fn open(
        alloc: Global,
        db: Arc<CheckedDb, Global>,
        code: Arc<Code, Global>,
        wanted: Wanted,
    ) -> Result<Core, NoMemory>
        requires { IsCodeOf (arc_value db) (arc_value code) }
        ensures { IfOk result (λ k. k ≡ opened (arc_value db) wanted (declared (arc_value db)) 0) }
    {
        let engine = Engine::with_code(alloc, db, code)?;
        match engine.session() {
            Ok(session) => Core::over(alloc, engine, wanted, session, 0),
            Err(refused) => {
                engine.discard();
                Err(refused)
            }
        }
    }

    /// A core that begins with this session and with the packet of this number.
    pub fn open_at(
        alloc: Global,
        db: Arc<CheckedDb, Global>,
        code: Arc<Code, Global>,
        wanted: Wanted,
        session: Session,
        first: u64,
    ) -> Result<Core, NoMemory>
        requires code { IsCodeOf (arc_value db) (arc_value code) }
        requires database { session.database ≡ arc_value db }
        requires first { first ≤ 2 ^ 63 }
        ensures { IfOk result (λ k. k ≡ opened (arc_value db) wanted session.content first) }
    {
        let engine = Engine::with_code(alloc, db, code)?;
        Core::over(alloc, engine, wanted, session, first)
    }

    /// The same with an engine that was made before.
    pub fn over(
        alloc: Global,
        engine: Engine,
        wanted: Wanted,
        mut session: Session,
        first: u64,
    ) -> Result<Core, NoMemory>
        requires database { session.database ≡ engine }
        requires first { first ≤ 2 ^ 63 }
        ensures { IfOk result (λ k. k ≡ opened engine wanted session.content first) }
    {
        match window_of(alloc, Vec::new(alloc), &mut session) {
            Ok(window) => Ok(Core {
                decoder: Decoder {
                    alloc,
                    engine,
                    wanted,
                },
                base: window.base,
                first,
                packets: window.packets,
                session,
                published: window.published,
                shown: 0,
                done: 0,
                given: 0,
                halted: false,
                slots: window.slots,
                ready: window.ready,
            }),
            Err(refused) => {
                engine.discard();
                Err(refused)
            }
        }
    }

    /// Lets the core go, as `Engine::discard`.
    pub fn discard(self) {
        let Core {
            decoder,
            base: _,
            first: _,
            packets: _,
            session: _,
            published: _,
            shown: _,
            done: _,
            given: _,
            halted: _,
            slots: _,
            ready: _,
        } = self;
        decoder.engine.discard();
    }

    /// Makes a view of the committed packets, with which later ones are taken.
    fn publish(&mut self) -> Result<(), NoMemory>
        ensures ok { OnOk result (self.new ≡ published self.old) }
        ensures err { OnErr result (self.new ≡ self.old) }
    {
        self.published = shared_view(self.decoder.alloc, &mut self.session)?;
        self.shown = self.done;
        Ok(())
    }

    /// The same where 64 packets or more are committed that the published view doesn't hold.
    fn publish_if_far(&mut self) -> Result<(), NoMemory>
        ensures ok { OnOk result (self.new ≡ published_if_far self.old) }
        ensures near { OnOk result (self.new.done < self.new.shown + 64) }
        ensures err { OnErr result (self.new ≡ self.old) }
    {
        if self.done - self.shown >= 64 {
            self.publish()?;
        }
        Ok(())
    }

    /// The job of the least untaken packet.
    fn next_job(&self) -> Result<Job, NoMemory>
        requires { self.now.given < length self.now.run.packets }
        ensures { IfOk result (λ j. j ≡ job_of self.now) }
    {
        let taken = Taken {
            v: self.first + self.shown as u64,
            c: self.first + self.done as u64,
        };
        let packets = Arc::try_clone(&self.packets)?;
        let view = Arc::try_clone(&self.published)?;
        Ok(Job::of(
            self.first + self.given as u64,
            taken,
            self.decoder.wanted,
            packets,
            self.given,
            view,
        ))
    }

    /// The least untaken packet is taken.
    fn mark_out(&mut self, taken: Taken)
        requires can { CanTake self.old }
        requires taken { taken ≡ taken_of self.old }
        ensures { self.new ≡ took self.old }
    {
        let at = self.given;
        self.slots[at] = Slot::Out(taken);
        self.given = at + 1;
    }

    /// The job of the untaken packet with the least number; None where every packet is taken. Where it has a packet, it
    /// publishes the state of the committed packets first if they are 64 or more above the published ones. After a
    /// refusal no packet was taken.
    pub fn take(&mut self) -> Result<Option<Job>, NoMemory>
        ensures { Takes self.old result self.new }
    {
        if self.halted {
            return Err(NoMemory);
        }
        if self.given == self.packets.len() {
            return Ok(None);
        }
        self.publish_if_far()?;
        let job = self.next_job()?;
        self.mark_out(job.taken());
        Ok(Some(job))
    }

    /// The packet that was taken last is untaken again. Takes no memory.
    pub fn put_back(&mut self, job: Job)
        requires { CanPutBack self.old job.number job.taken }
        ensures { self.new ≡ untook self.old }
    {
        let at = (job.number() - self.first) as usize;
        self.slots[at] = Slot::Free;
        self.given = at;
    }

    /// A packet that was decoded comes in. Takes no memory.
    pub fn deliver(&mut self, s: Speculation)
        requires { CanDeliver self.old s }
        ensures { self.new ≡ delivered self.old s }
    {
        let at = (s.number - self.first) as usize;
        self.slots[at] = Slot::In(s);
    }

    /// Begins a window of packets with the next numbers. A refusal changes nothing.
    pub fn begin_window(&mut self, packets: Vec<Packet>) -> Result<(), NoMemory>
        requires { CanBegin self.old packets.items }
        ensures ok { OnOk result (self.new ≡ begun self.old packets.items) }
        ensures err { OnErr result (self.new ≡ self.old) }
    {
        let window = window_of(self.decoder.alloc, packets, &mut self.session)?;
        self.first += self.done as u64;
        self.base = window.base;
        self.published = window.published;
        self.packets = window.packets;
        self.slots = window.slots;
        self.ready = window.ready;
        self.shown = 0;
        self.done = 0;
        self.given = 0;
        Ok(())
    }

    /// Settles the next packet, if it is delivered. A refusal leaves it, and the core is halted.
    pub fn commit_next<L: Ledger>(&mut self, steps: &mut Steps<L>) -> Result<Committed, NoMemory>
        ensures commits { Commits self.old result self.new }
        ensures counts { Counts result steps.old steps.new }
        ensures idle { self.old.halted ≡ true → steps.new ≡ steps.old }
    {
        if self.halted {
            return Err(NoMemory);
        }
        let at = self.done;
        if at == self.packets.len() {
            return Ok(Committed::Finished);
        }
        let Slot::In(s) = &self.slots[at] else {
            return Ok(Committed::NotYet);
        };
        let packet = &self.packets.as_slice()[at];
        match self
            .decoder
            .keep_or_decode(packet, s, &mut self.session, steps)
        {
            Ok((texts, outcome)) => {
                let committed = Committed::by(&outcome);
                let slot = mem::replace(&mut self.slots[at], Slot::Free);
                self.slots[at] = slot.settled(texts, outcome);
                self.done = at + 1;
                Ok(committed)
            }
            Err(refused) => {
                self.halted = true;
                Err(refused)
            }
        }
    }

    /// Decodes the next packet, which isn't delivered, against the present state. A refusal leaves it, and the core is
    /// halted.
    pub fn direct<L: Ledger>(&mut self, why: Why, steps: &mut Steps<L>) -> Result<(), NoMemory>
        requires open { self.old.done < length self.old.run.packets }
        requires undelivered { is_in (slice_get self.old.slots self.old.done) ≡ false }
        ensures ok { OnOk result (self.new ≡ settled self.old (direct_of self.old why)) }
        ensures err { OnErr result (self.new ≡ stopped self.old) }
        ensures counted { OnOk result (steps.new ≡ steps.old + 1) }
        ensures at_most { OnErr result (AtMostOne steps.old steps.new) }
        ensures idle { self.old.halted ≡ true → steps.new ≡ steps.old }
    {
        if self.halted {
            return Err(NoMemory);
        }
        let at = self.done;
        let packet = &self.packets.as_slice()[at];
        let taken = self.slots[at].taken();
        match self.decoder.decode_here(packet, &mut self.session, steps) {
            Ok(texts) => {
                self.slots[at] = Slot::Settled(Ready {
                    texts,
                    receipt: Receipt {
                        number: self.first + at as u64,
                        taken,
                        outcome: Outcome::Direct(why),
                    },
                });
                self.done = at + 1;
                self.given = next_given(at, self.given);
                Ok(())
            }
            Err(refused) => {
                self.halted = true;
                Err(refused)
            }
        }
    }

    /// Hands out what a finished window holds, in the order of its packets; nothing, where it is drained. Takes no
    /// memory.
    pub fn drain(&mut self) -> Vec<Ready>
        requires { self.old.done ≡ length self.old.run.packets }
        ensures readies { result.items ≡ readies_of self.old.slots }
        ensures whole { length self.old.slots ≡ length self.old.run.packets
            → IsWhole self.old.run result.items }
        ensures after { self.new ≡ drained self.old }
    {
        let slots = mem::replace(&mut self.slots, Vec::new(self.decoder.alloc));
        let ready = mem::replace(&mut self.ready, Vec::new(self.decoder.alloc));
        readies(slots, ready)
    }

    /// The next packet is delivered.
    pub fn next_delivered(&self) -> bool
        ensures { result ≡ is_in (slice_get self.now.slots self.now.done) }
    {
        self.done < self.slots.len() && matches!(&self.slots[self.done], Slot::In(_))
    }

    /// How many packets are committed, counted from the first of the capture.
    pub fn committed(&self) -> u64
        ensures { result ≡ self.now.run.first + self.now.done }
    {
        self.first + self.done as u64
    }

    /// All packets of the window are committed.
    pub fn is_finished(&self) -> bool
        ensures { result ≡ (self.now.done == length self.now.run.packets) }
    {
        self.done == self.packets.len()
    }

    /// Memory was refused to a commit or to a direct decoding. From then on `take`, `commit_next` and `direct` answer
    /// NoMemory at once.
    pub fn halted(&self) -> bool
        ensures { result ≡ self.now.halted }
    {
        self.halted
    }

    pub fn engine(&self) -> &Engine
        ensures { result.now ≡ self.now.run.db }
    {
        &self.decoder.engine
    }

    pub fn db(&self) -> &Arc<CheckedDb, Global>
        ensures { arc_value result.now ≡ self.now.run.db }
    {
        self.decoder.engine.db()
    }

    /// The code of the database.
    pub fn code(&self) -> &Arc<Code, Global>
        ensures { IsCodeOf self.now.run.db (arc_value result.now) }
    {
        self.decoder.engine.code()
    }

    /// Which texts of packets are wanted.
    pub fn wanted(&self) -> Wanted
        ensures { result ≡ self.now.run.wanted }
    {
        self.decoder.wanted
    }

    /// The session of the committed packets.
    pub fn session(&self) -> &Session
        ensures database { result.now.database ≡ self.now.run.db }
        ensures content { result.now.content ≡ state_at self.now.run self.now.done }
    {
        &self.session
    }

    /// What every core keeps. It does nothing.
    pub fn sound(&self)
        ensures { IsSound self.now }
    {
        let _first = self.first;
    }
}

/// What one thread may hand on to another.
trait HandedOn: Send {}

impl HandedOn for Core {}
