ghost use Rattle.std.specs.Prelude.{◌≡◌, ◌<◌};
ghost use Rattle.pdl_code.specs.Does.{IsCodeOf};

use crate::answers::{FirstTable, NoTables};
use crate::outline;
use db_check::check;
use db_load::load_database;
use db_model::{Answers, CheckedDb, Packet, PacketTree, STAMP_END};
use decode_vm::{Steps, decode};
use pdl_code::{Code, compile};
use std::alloc::Global;
use std::marker::Brand;
use std::sync::ledger::{Blank, Ledger};

/// The lines that come of a packet under the database that a text is: one for each question that is asked of its
/// first table, and then the tree. None: the text is no database that is accepted.
pub fn found(alloc: Global, text: &[u8], packet: &Packet) -> Option<String> {
    let loaded = match load_database(alloc, text) {
        Ok(db) => check(alloc, db),
        Err(_) => return None,
    };
    match loaded {
        Ok(db) => {
            let found = decoded(alloc, &db, packet);
            db.discard();
            found
        }
        Err(_) => None,
    }
}

fn decoded(alloc: Global, db: &CheckedDb, packet: &Packet) -> Option<String> {
    if packet.stamp >= STAMP_END {
        return None;
    }
    match compile(alloc, db) {
        Ok(code) => by_code(alloc, db, &code, packet),
        Err(_) => None,
    }
}

fn by_code(alloc: Global, db: &CheckedDb, code: &Code, packet: &Packet) -> Option<String>
    requires time { packet.now.stamp < STAMP_END }
    requires code { IsCodeOf db.now code.now }
{
    if db.database().tables.is_empty() {
        lines(alloc, db, code, packet, &mut NoTables { db })
    } else {
        with_table(alloc, db, code, packet)
    }
}

/// The session that answers has the database's first table alone.
fn with_table(alloc: Global, db: &CheckedDb, code: &Code, packet: &Packet) -> Option<String>
    requires time { packet.now.stamp < STAMP_END }
    requires code { IsCodeOf db.now code.now }
{
    let mut answers = FirstTable::new(alloc, db)?;
    let tree = lines(alloc, db, code, packet, &mut answers)?;
    let mut text = answers.into_asked();
    text.push_str(tree.as_str()).ok()?;
    Some(text)
}

fn lines<A: Answers>(
    alloc: Global,
    db: &CheckedDb,
    code: &Code,
    packet: &Packet,
    answers: &mut A,
) -> Option<String>
    requires database { A.database answers.old ≡ db.now }
    requires time { packet.now.stamp < STAMP_END }
    requires code { IsCodeOf db.now code.now }
{
    let tree = tree::<A, Brand>(alloc, db, code, packet, answers, Blank::new(1))?;
    outline::of(alloc, tree.as_slice())
}

fn tree<A: Answers, L: Ledger>(
    alloc: Global,
    db: &CheckedDb,
    code: &Code,
    packet: &Packet,
    answers: &mut A,
    blank: Blank,
) -> Option<PacketTree>
    requires name { blank.name ≡ L.name }
    requires parts { blank.parts ≡ L.parts }
    requires some { 0 < blank.parts }
    requires database { A.database answers.old ≡ db.now }
    requires time { packet.now.stamp < STAMP_END }
    requires code { IsCodeOf db.now code.now }
{
    let mut steps = Steps::<L>::begin(blank);
    decode(alloc, db, code, packet, answers, &mut steps).ok()
}
