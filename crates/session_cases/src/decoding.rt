ghost use Rattle.std.specs.Prelude.{◌≡◌, ◌<◌};
ghost use Rattle.pdl_code.specs.Does.{IsCodeOf};

use crate::packets::packet;
use db_model::{CheckedDb, Packet, STAMP_END};
use decode_vm::{Steps, decode};
use pdl_code::Code;
use session::Session;
use std::alloc::Global;
use std::marker::Brand;
use std::sync::ledger::{Blank, Ledger};

/// `decode PACKET`: the packet is decoded over the session.
pub fn decodes(
    alloc: Global,
    db: &CheckedDb,
    code: &Code,
    session: &mut Session,
    text: &str,
) -> Option<()>
    requires code { IsCodeOf db.now code.now }
    requires session { session.old.database ≡ db.now }
    ensures { session.new.database ≡ db.now }
{
    let packet = packet(alloc, text)?;
    decoded::<Brand>(alloc, db, code, session, &packet, Blank::new(1))
}

fn decoded<L: Ledger>(
    alloc: Global,
    db: &CheckedDb,
    code: &Code,
    session: &mut Session,
    packet: &Packet,
    blank: Blank,
) -> Option<()>
    requires name { blank.name ≡ L.name }
    requires parts { blank.parts ≡ L.parts }
    requires some { 0 < blank.parts }
    requires code { IsCodeOf db.now code.now }
    requires session { session.old.database ≡ db.now }
    requires time { packet.now.stamp < STAMP_END }
    ensures { session.new.database ≡ db.now }
{
    let mut steps = Steps::<L>::begin(blank);
    match decode(alloc, db, code, packet, session, &mut steps) {
        Ok(_tree) => Some(()),
        Err(_) => None,
    }
}
