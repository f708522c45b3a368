ghost use Rattle.std.specs.Prelude.{◌≡◌, ◌<◌, ◌≤◌, true, length, IfSome};
ghost use Rattle.db_model.specs.Fitting.{log_fits};
ghost use Rattle.pdl_code.specs.Does.{IsCodeOf};

use crate::packets::packet;
use db_model::{Answer, CheckedDb, MOST_QUESTIONS, Packet, STAMP_END, Stamp};
use decode_vm::Steps;
use op_log::{Check, Record, Transcript, apply, check, record};
use pdl_code::Code;
use session::{Session, SessionView};
use std::alloc::Global;
use std::marker::Brand;
use std::sync::ledger::{Blank, Ledger};

/// What was asked for a packet over a view.
fn log_of(
    alloc: Global,
    db: &CheckedDb,
    code: &Code,
    view: &SessionView,
    packet: &Packet,
) -> Option<Transcript>
    requires code { IsCodeOf db.now code.now }
    requires view { view.now.database ≡ db.now }
    requires time { packet.now.stamp < STAMP_END }
    ensures fits { IfSome result (λ l. log_fits db.now l ≡ true) }
    ensures most { IfSome result (λ l. length l ≤ MOST_QUESTIONS) }
{
    recorded::<Brand>(alloc, db, code, view, packet, Blank::new(1))
}

fn recorded<L: Ledger>(
    alloc: Global,
    db: &CheckedDb,
    code: &Code,
    view: &SessionView,
    packet: &Packet,
    blank: Blank,
) -> Option<Transcript>
    requires name { blank.name ≡ L.name }
    requires parts { blank.parts ≡ L.parts }
    requires some { 0 < blank.parts }
    requires code { IsCodeOf db.now code.now }
    requires view { view.now.database ≡ db.now }
    requires time { packet.now.stamp < STAMP_END }
    ensures fits { IfSome result (λ l. log_fits db.now l ≡ true) }
    ensures most { IfSome result (λ l. length l ≤ MOST_QUESTIONS) }
{
    let mut steps = Steps::<L>::begin(blank);
    match record(alloc, db, code, packet, view, &mut steps) {
        Ok(Record { tree: _, log }) => Some(log),
        Err(_) => None,
    }
}

/// `check PACKET: WANTED`: the packet is recorded over the view, and the log is checked against the session.
pub fn checks(
    alloc: Global,
    db: &CheckedDb,
    code: &Code,
    session: &Session,
    view: &SessionView,
    text: &str,
) -> Option<()>
    requires code { IsCodeOf db.now code.now }
    requires session { session.now.database ≡ db.now }
    requires view { view.now.database ≡ db.now }
{
    let (text, wanted) = text.split_once(": ")?;
    let packet = packet(alloc, text)?;
    let log = log_of(alloc, db, code, view, &packet)?;
    finds(&log, session, packet.stamp, wanted)
}

fn finds(log: &Transcript, session: &Session, t: Stamp, wanted: &str) -> Option<()>
    requires fits { log_fits session.now.database log.now ≡ true }
    requires most { length log.now ≤ MOST_QUESTIONS }
    requires time { t < STAMP_END }
{
    let found = check(log, session, t).ok()?;
    is_said(&found, wanted)
}

/// `agrees`, or `differs PLACE NOTED NEW`.
fn is_said(found: &Check, wanted: &str) -> Option<()> {
    match found {
        Check::Agrees => (wanted == "agrees").then_some(()),
        Check::Differs { index, old, new } => {
            let (place, words) = wanted.strip_prefix("differs ")?.split_once(' ')?;
            let (noted, answer) = words.split_once(' ')?;
            let is_there = place.parse::<u32>().ok()? == *index;
            (is_there && word(old) == noted && word(new) == answer).then_some(())
        }
    }
}

fn word(answer: &Answer) -> &'static str {
    match answer {
        Answer::Miss => "miss",
        Answer::Hit(_) => "hit",
        Answer::Done => "done",
    }
}

/// `apply PACKET`: the packet is recorded over the view, and what was asked is put to the session.
pub fn applies(
    alloc: Global,
    db: &CheckedDb,
    code: &Code,
    session: &mut Session,
    view: &SessionView,
    text: &str,
) -> Option<()>
    requires code { IsCodeOf db.now code.now }
    requires session { session.old.database ≡ db.now }
    requires view { view.now.database ≡ db.now }
    ensures { session.new.database ≡ db.now }
{
    let packet = packet(alloc, text)?;
    let log = log_of(alloc, db, code, view, &packet)?;
    applied(&log, session, packet.stamp)
}

fn applied(log: &Transcript, session: &mut Session, t: Stamp) -> Option<()>
    requires fits { log_fits session.old.database log.now ≡ true }
    requires most { length log.now ≤ MOST_QUESTIONS }
    requires time { t < STAMP_END }
    ensures { session.new.database ≡ session.old.database }
{
    session.reserve(log.len() as u32).ok()?;
    apply(log, session, t);
    Some(())
}
