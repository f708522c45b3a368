ghost use Rattle.std.specs.List.{All};
ghost use Rattle.std.specs.Prelude.{◌≡◌, ◌+◌, ◌<◌, ◌≤◌, [], length, IfOk, OnOk};
ghost use Rattle.db_model.specs.Decoding.{dec};
ghost use Rattle.db_model.specs.Over.{extended};
ghost use Rattle.db_model.specs.declared.limits.TheConstants.{STAMP_END};
ghost use Rattle.pdl_code.specs.Does.{IsCodeOf};
ghost use Rattle.pdml_out.specs.Pdml;
ghost use Rattle.psml_out.specs.Psml;
ghost use Rattle.psml_out.specs.Summaries.{summaries_of};
ghost use Rattle.show.specs.Labels.{labels_of};
ghost use Rattle.session.specs.State.{new_session};
ghost use Rattle.std.specs.Arc.{arc_value};
ghost use Rattle.tap_bus.specs.Told.{told_of};
ghost use Rattle.engine.specs.Engine.{HasParts};
ghost use Rattle.engine.specs.Ready.{IsSettled, Settles, session_after};
ghost use Rattle.engine.specs.Texts.{HasOpenings, HasTexts, text_if};

use crate::ready::{Ready, serial_receipt};
use crate::texts::{Texts, Wanted, put};
use db_laws::few_protocols;
use db_model::{Answers, CheckedDb, NoMemory, Packet, PacketTree};
use decode_vm::{Steps, decode};
use pdl_code::{Code, compile};
use psml_out::{Summaries, Summed};
use session::Session;
use show::{Labelled, Labels};
use std::alloc::Global;
use std::marker::Model;
use std::sync::Arc;
use std::sync::ledger::Ledger;
use tap_bus::Told;

/// A database, its code, what it calls its fields and blocks, and how it sums packets up. Seen as the database.
#[derive(Drop)]
pub struct Engine {
    alloc: Global,
    db: Arc<CheckedDb, Global>,
    code: Arc<Code, Global>,
    labels: Arc<Labels, Global>,
    summaries: Arc<Summaries, Global>,
}

impl Model for Engine {
    ghost use Rattle.std.specs.Arc.{arc_value};
    ghost use Rattle.db_model.specs.declared.database.Database.{Database};
    ghost use Rattle.db_model.specs.contracts.database.Database as contract;
    ghost use Rattle.engine.specs.Engine.{IsReady};

    ghost Value = { Database };

    ghost coded = { contract.the_row.coded };

    ghost view = { λ e. arc_value e.db };

    ghost invariant = { IsReady };
}

/// What is made of a database once.
#[derive(Drop)]
struct Parts {
    code: Arc<Code, Global>,
    labels: Arc<Labels, Global>,
    summaries: Arc<Summaries, Global>,
}

/// What is made of this database.
fn parts_of(alloc: Global, db: &CheckedDb) -> Result<Parts, NoMemory>
    ensures { IfOk result (λ parts. HasParts parts db.now) }
{
    let code = Arc::new(alloc, compile(alloc, db)?)?;
    let (labels, summaries) = written_by(alloc, db)?;
    Ok(Parts {
        code,
        labels,
        summaries,
    })
}

/// What packets of this database are written by.
fn written_by(
    alloc: Global,
    db: &CheckedDb,
) -> Result<(Arc<Labels, Global>, Arc<Summaries, Global>), NoMemory>
    ensures labels { IfOk result (λ made. arc_value made.0 ≡ labels_of db.now) }
    ensures summaries { IfOk result (λ made. arc_value made.1 ≡ summaries_of db.now) }
{
    let labels = Labels::of(alloc, db)?;
    let summaries = Summaries::of(alloc, db)?;
    Ok((Arc::new(alloc, labels)?, Arc::new(alloc, summaries)?))
}

/// Lets a shared database go, if this is the last that shares it.
fn let_go(db: Arc<CheckedDb, Global>) {
    if let Some(db) = Arc::into_inner(db) {
        db.discard();
    }
}

/// A database with what is made of it.
fn engine_of(alloc: Global, db: CheckedDb, parts: Parts) -> Result<Engine, NoMemory>
    requires { HasParts parts db }
    ensures { IfOk result (λ e. e ≡ db) }
{
    let Parts {
        code,
        labels,
        summaries,
    } = parts;
    match Arc::new(alloc, db) {
        Ok(db) => Ok(Engine {
            alloc,
            db,
            code,
            labels,
            summaries,
        }),
        Err(refused) => {
            refused.value.discard();
            Err(NoMemory)
        }
    }
}

impl Engine {
    /// The engine of a database.
    pub fn of(alloc: Global, db: CheckedDb) -> Result<Engine, NoMemory>
        ensures { IfOk result (λ e. e ≡ db) }
    {
        match parts_of(alloc, &db) {
            Ok(parts) => engine_of(alloc, db, parts),
            Err(refused) => {
                db.discard();
                Err(refused)
            }
        }
    }

    /// The engine of a database that has its code already, and shares both.
    pub fn with_code(
        alloc: Global,
        db: Arc<CheckedDb, Global>,
        code: Arc<Code, Global>,
    ) -> Result<Engine, NoMemory>
        requires { IsCodeOf (arc_value db) (arc_value code) }
        ensures { IfOk result (λ e. e ≡ arc_value db) }
    {
        match written_by(alloc, &db) {
            Ok((labels, summaries)) => Ok(Engine {
                alloc,
                db,
                code,
                labels,
                summaries,
            }),
            Err(refused) => {
                let_go(db);
                Err(refused)
            }
        }
    }

    /// One more that shares all of this one. It copies nothing.
    pub fn share(&self) -> Result<Engine, NoMemory>
        ensures { IfOk result (λ e. e ≡ self.now) }
    {
        let code = Arc::try_clone(&self.code)?;
        let labels = Arc::try_clone(&self.labels)?;
        let summaries = Arc::try_clone(&self.summaries)?;
        Ok(Engine {
            alloc: self.alloc,
            db: Arc::try_clone(&self.db)?,
            code,
            labels,
            summaries,
        })
    }

    /// Lets the engine go. The last one that shares a database lets that go too, as `CheckedDb::discard`.
    pub fn discard(self) {
        let Engine {
            alloc: _,
            db,
            code,
            labels,
            summaries,
        } = self;
        let_go(db);
        drop(code);
        drop(labels);
        drop(summaries);
    }

    /// Takes no memory.
    pub fn database(&self) -> &CheckedDb
        ensures { result.now ≡ self.now }
    {
        &self.db
    }

    /// Takes no memory.
    pub fn db(&self) -> &Arc<CheckedDb, Global>
        ensures { arc_value result.now ≡ self.now }
    {
        &self.db
    }

    /// The code of the database. Takes no memory.
    pub fn code(&self) -> &Arc<Code, Global>
        ensures { IsCodeOf self.now (arc_value result.now) }
    {
        &self.code
    }

    /// The session of the database to which nothing was added.
    pub fn session(&self) -> Result<Session, NoMemory>
        ensures { IfOk result (λ s. s ≡ new_session self.now) }
    {
        Session::new(self.alloc, &self.db)
    }

    /// The database with its labels.
    fn labelled(&self) -> Labelled<'_>
        ensures { result ≡ self.now }
    {
        Labelled::of(&self.db, &self.labels)
    }

    /// The same with its summaries.
    fn summed(&self) -> Summed<'_>
        ensures { result ≡ self.now }
    {
        Summed::of(self.labelled(), &self.summaries)
    }

    fn put_psml_opening(&self, wanted: bool, text: &mut Vec<u8>) -> Result<(), NoMemory>
        ensures { OnOk result (text.new.items ≡ text_if wanted (Psml.opening self.now)) }
    {
        if wanted {
            let opening = psml_out::opening(self.alloc, &self.db)?;
            put(text, wanted, opening.as_slice())
        } else {
            text.clear();
            Ok(())
        }
    }

    /// Puts the openings of the wanted outputs into the buffers.
    pub fn put_openings(&self, wanted: Wanted, texts: &mut Texts) -> Result<(), NoMemory>
        ensures { OnOk result (HasOpenings wanted texts.new self.now) }
    {
        put(&mut texts.pdml, wanted.pdml, pdml_out::opening())?;
        self.put_psml_opening(wanted.psml, &mut texts.psml)
    }

    fn put_pdml(
        &self,
        wanted: bool,
        packet: &Packet,
        tree: &PacketTree,
        text: &mut Vec<u8>,
    ) -> Result<(), NoMemory>
        ensures { OnOk result (text.new.items
            ≡ text_if wanted (Pdml.packet_text self.now packet.now tree.now)) }
    {
        text.clear();
        if wanted {
            pdml_out::push_packet_text(text, &self.labelled(), packet, tree)
        } else {
            Ok(())
        }
    }

    fn put_psml(
        &self,
        wanted: bool,
        packet: &Packet,
        tree: &PacketTree,
        text: &mut Vec<u8>,
    ) -> Result<(), NoMemory>
        ensures { OnOk result (text.new.items
            ≡ text_if wanted (Psml.packet_text self.now packet.now tree.now)) }
    {
        text.clear();
        if wanted {
            psml_out::push_packet_text(text, &self.summed(), packet, tree)
        } else {
            Ok(())
        }
    }

    /// Decodes a packet, puts its wanted texts into the buffers and answers what taps are told of it. Counts a step in
    /// either case.
    pub fn decode_told<A: Answers, L: Ledger>(
        &self,
        packet: &Packet,
        wanted: Wanted,
        answers: &mut A,
        steps: &mut Steps<L>,
        texts: &mut Texts,
    ) -> Result<Told, NoMemory>
        requires database { A.database answers.old ≡ self.now }
        requires time { packet.now.stamp < STAMP_END }
        ensures database { A.database answers.new ≡ self.now }
        ensures texts { OnOk result (HasTexts wanted texts.new self.now packet.now
            (dec self.now packet.now (A.content answers.old)).result) }
        ensures session { OnOk result (A.content answers.new
            ≡ (dec self.now packet.now (A.content answers.old)).session) }
        ensures taps { IfOk result (λ told. told
            ≡ told_of packet.now (dec self.now packet.now (A.content answers.old)).result) }
        ensures told { OnOk result (A.told answers.new
            ≡ extended (A.told answers.old) (dec self.now packet.now (A.content answers.old)).log) }
        ensures steps { steps.new ≡ steps.old + 1 }
    {
        few_protocols();
        let tree = decode(self.alloc, &self.db, &self.code, packet, answers, steps)?;
        self.put_pdml(wanted.pdml, packet, &tree, &mut texts.pdml)?;
        self.put_psml(wanted.psml, packet, &tree, &mut texts.psml)?;
        Ok(Told::of(packet, &tree))
    }

    /// Decodes a packet and puts its wanted texts into the buffers. Counts a step in either case.
    pub fn decode<A: Answers, L: Ledger>(
        &self,
        packet: &Packet,
        wanted: Wanted,
        answers: &mut A,
        steps: &mut Steps<L>,
        texts: &mut Texts,
    ) -> Result<(), NoMemory>
        requires database { A.database answers.old ≡ self.now }
        requires time { packet.now.stamp < STAMP_END }
        ensures database { A.database answers.new ≡ self.now }
        ensures texts { OnOk result (HasTexts wanted texts.new self.now packet.now
            (dec self.now packet.now (A.content answers.old)).result) }
        ensures session { OnOk result (A.content answers.new
            ≡ (dec self.now packet.now (A.content answers.old)).session) }
        ensures told { OnOk result (A.told answers.new
            ≡ extended (A.told answers.old) (dec self.now packet.now (A.content answers.old)).log) }
        ensures steps { steps.new ≡ steps.old + 1 }
    {
        let _told = self.decode_told(packet, wanted, answers, steps, texts)?;
        Ok(())
    }

    /// Buffers for the texts of a packet, with room for as much as the last of these has, so that they seldom grow.
    fn room_behind(&self, ready: &[Ready]) -> Result<Texts, NoMemory> {
        match ready.last() {
            Some(before) => Texts::like(self.alloc, &before.texts),
            None => Ok(Texts::new(self.alloc)),
        }
    }

    /// Decodes a packet and settles it behind these.
    fn settle_one<A: Answers, L: Ledger>(
        &self,
        packet: &Packet,
        wanted: Wanted,
        answers: &mut A,
        steps: &mut Steps<L>,
        ready: &[Ready],
    ) -> Result<Ready, NoMemory>
        requires database { A.database answers.old ≡ self.now }
        requires time { packet.now.stamp < STAMP_END }
        ensures database { A.database answers.new ≡ self.now }
        ensures settled { IfOk result (IsSettled wanted self.now packet.now
            (dec self.now packet.now (A.content answers.old)).result) }
        ensures session { OnOk result (A.content answers.new
            ≡ (dec self.now packet.now (A.content answers.old)).session) }
        ensures steps { OnOk result (steps.new ≡ steps.old + 1) }
        ensures most { steps.new ≤ steps.old + 1 }
    {
        let mut texts = self.room_behind(ready)?;
        self.decode(packet, wanted, answers, steps, &mut texts)?;
        Ok(Ready {
            texts,
            receipt: serial_receipt(packet.number),
        })
    }

    /// Decodes packets in order, each from what the one before it left, and settles each. `ready` comes empty.
    pub fn settle<A: Answers, L: Ledger>(
        &self,
        packets: &[Packet],
        wanted: Wanted,
        answers: &mut A,
        steps: &mut Steps<L>,
        ready: &mut Vec<Ready>,
    ) -> Result<(), NoMemory>
        requires database { A.database answers.old ≡ self.now }
        requires time { All (λ packet. packet.stamp < STAMP_END) packets.now }
        requires empty { ready.old.items ≡ [] }
        ensures database { A.database answers.new ≡ self.now }
        ensures ready { OnOk result (Settles wanted self.now (A.content answers.old)
            packets.now ready.new.items) }
        ensures session { OnOk result (A.content answers.new
            ≡ session_after self.now (A.content answers.old) packets.now) }
        ensures steps { OnOk result (steps.new ≡ steps.old + length packets.now) }
        ensures most { steps.new ≤ steps.old + length packets.now }
    {
        for packet in packets {
            let one = self.settle_one(packet, wanted, answers, steps, ready)?;
            ready.push(one)?;
        }
        Ok(())
    }
}
