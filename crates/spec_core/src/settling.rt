ghost use Rattle.std.specs.Prelude.{◌≡◌, ◌+◌, ◌<◌, ◌≤◌, true, length, IfOk, OnOk, OnErr};
ghost use Rattle.db_model.specs.Decoding.{dec};
ghost use Rattle.db_model.specs.Fitting.{log_fits};
ghost use Rattle.db_model.specs.Replay.{after, differs};
ghost use Rattle.db_model.specs.declared.limits.TheConstants.{MOST_QUESTIONS, STAMP_END};
ghost use Rattle.spec_core.specs.Events.{outcome_of, or_else};
ghost use Rattle.spec_core.specs.Settling.{AtMostOne, IsDecoded, spent};
ghost use Rattle.spec_core.specs.Texts.{texts_of};

use crate::slot::Speculation;
use crate::texts::Texts;
use db_laws::{decoding_fits, session_of_decoding};
use db_model::{NoMemory, Packet};
use decode_vm::Steps;
use engine::{Engine, Outcome, Wanted};
use op_log::{Check, Overlay, Transcript, apply, check};
use session::{Session, SessionView};
use std::alloc::Global;
use std::sync::ledger::Ledger;

/// What packets are decoded by, and which of their texts are wanted.
#[derive(Drop)]
pub struct Decoder {
    pub alloc: Global,
    pub engine: Engine,
    pub wanted: Wanted,
}

/// A packet that was decoded: what is handed out of it, and what was asked for it.
#[derive(Drop)]
pub struct Decoded {
    pub texts: Texts,
    pub log: Transcript,
}

/// Decodes a packet over what a view holds. Counts a step where it decoded, also where memory was refused.
pub fn decode_over<L: Ledger>(
    alloc: Global,
    engine: &Engine,
    wanted: Wanted,
    packet: &Packet,
    view: &SessionView,
    steps: &mut Steps<L>,
) -> Result<Decoded, NoMemory>
    requires database { view.now.database ≡ engine.now }
    requires time { packet.now.stamp < STAMP_END }
    ensures texts { IfOk result (λ d. d.texts
        ≡ texts_of wanted engine.now packet.now (dec engine.now packet.now view.now.content).result) }
    ensures log { IfOk result (λ d. d.log ≡ (dec engine.now packet.now view.now.content).log) }
    ensures counted { OnOk result (steps.new ≡ steps.old + 1) }
    ensures refused { OnErr result (AtMostOne steps.old steps.new) }
{
    let mut overlay = Overlay::on(alloc, view)?;
    let mut buffers = engine::Texts::new(alloc);
    let told = engine.decode_told(packet, wanted, &mut overlay, steps, &mut buffers)?;
    Ok(Decoded {
        texts: Texts::of(told, buffers),
        log: overlay.into_transcript(),
    })
}

/// Puts the questions of a log to a session. A refusal leaves the session.
fn put_log(log: &Transcript, session: &mut Session, packet: &Packet) -> Result<(), NoMemory>
    requires fits { log_fits session.old.database log.now ≡ true }
    requires most { length log.now ≤ MOST_QUESTIONS }
    requires time { packet.now.stamp < STAMP_END }
    ensures database { session.new.database ≡ session.old.database }
    ensures content { OnOk result (session.new.content
        ≡ after session.old.database packet.now.stamp log.now session.old.content) }
    ensures refused { OnErr result (session.new.content ≡ session.old.content) }
{
    session.reserve(log.len() as u32)?;
    apply(log, session, packet.stamp);
    Ok(())
}

impl Decoder {
    /// Decodes a packet over what the session holds, and leaves the session.
    fn decode_present<L: Ledger>(
        &self,
        packet: &Packet,
        session: &mut Session,
        steps: &mut Steps<L>,
    ) -> Result<Decoded, NoMemory>
        requires database { session.old.database ≡ self.now.engine }
        requires time { packet.now.stamp < STAMP_END }
        ensures same { session.new ≡ session.old }
        ensures texts { IfOk result (λ d. d.texts ≡ texts_of self.now.wanted self.now.engine packet.now
            (dec self.now.engine packet.now session.old.content).result) }
        ensures log { IfOk result (λ d. d.log ≡ (dec self.now.engine packet.now session.old.content).log) }
        ensures counted { OnOk result (steps.new ≡ steps.old + 1) }
        ensures most { OnErr result (AtMostOne steps.old steps.new) }
    {
        let view = session.snapshot()?;
        decode_over(self.alloc, &self.engine, self.wanted, packet, &view, steps)
    }

    /// Decodes a packet, and leaves the session after it. A refusal leaves the session.
    pub fn decode_here<L: Ledger>(
        &self,
        packet: &Packet,
        session: &mut Session,
        steps: &mut Steps<L>,
    ) -> Result<Texts, NoMemory>
        requires database { session.old.database ≡ self.now.engine }
        requires time { packet.now.stamp < STAMP_END }
        ensures database { session.new.database ≡ session.old.database }
        ensures texts { IfOk result (λ t. t ≡ texts_of self.now.wanted self.now.engine packet.now
            (dec self.now.engine packet.now session.old.content).result) }
        ensures content { OnOk result (session.new.content
            ≡ (dec self.now.engine packet.now session.old.content).session) }
        ensures refused { OnErr result (session.new.content ≡ session.old.content) }
        ensures counted { OnOk result (steps.new ≡ steps.old + 1) }
        ensures most { OnErr result (AtMostOne steps.old steps.new) }
    {
        decoding_fits();
        session_of_decoding();
        let _checked = self.engine.database().database();
        let Decoded { texts, log } = self.decode_present(packet, session, steps)?;
        put_log(&log, session, packet)?;
        Ok(texts)
    }

    /// Settles a delivered packet: it is kept where its log agrees, with its own texts, and else decoded again. A refusal
    /// Settles a delivered packet: it is kept where its log agrees, with its own texts, and else decoded again. A
    /// refusal leaves the session.
    pub fn keep_or_decode<L: Ledger>(
        &self,
        packet: &Packet,
        s: &Speculation,
        session: &mut Session,
        steps: &mut Steps<L>,
    ) -> Result<(Option<Texts>, Outcome), NoMemory>
        requires database { session.old.database ≡ self.now.engine }
        requires time { packet.now.stamp < STAMP_END }
        requires decoded { IsDecoded self.now.wanted self.now.engine packet.now s.now }
        ensures database { session.new.database ≡ session.old.database }
        ensures texts { IfOk result (λ r. or_else r.0 s.now.texts ≡ texts_of self.now.wanted self.now.engine packet.now
            (dec self.now.engine packet.now session.old.content).result) }
        ensures outcome { IfOk result (λ r. r.1
            ≡ outcome_of (differs self.now.engine packet.now.stamp s.now.log session.old.content)) }
        ensures content { OnOk result (session.new.content
            ≡ (dec self.now.engine packet.now session.old.content).session) }
        ensures refused { OnErr result (session.new.content ≡ session.old.content) }
        ensures counted { IfOk result (λ r. steps.new ≡ steps.old + spent r.1) }
        ensures most { OnErr result (AtMostOne steps.old steps.new) }
    {
        decoding_fits();
        let _checked = self.engine.database().database();
        match check(&s.log, session, packet.stamp)? {
            Check::Agrees => {
                put_log(&s.log, session, packet)?;
                Ok((None, Outcome::Kept))
            }
            Check::Differs { index, old, new } => {
                let texts = self.decode_here(packet, session, steps)?;
                Ok((Some(texts), Outcome::Again { index, old, new }))
            }
        }
    }
}
