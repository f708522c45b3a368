use db_model::{Bytes, CheckedDb, Env, MOST_QUESTIONS, MOST_TURNS, NoMemory, Packet, place_of};
use std::alloc::Global;
use std::test::Fail;

/// What the tests look at in the smallest database.
#[derive(Clone, Copy)]
struct Seen {
    is_startproto_alone: bool,
    places: [usize; 5],
    begins_full: bool,
}

fn look(alloc: Global) -> Result<Seen, NoMemory> {
    let bare = match CheckedDb::bare(alloc) {
        Ok(bare) => bare,
        Err(fail) => return Err(fail),
    };
    let seen = seen_in(alloc, &bare);
    bare.discard();
    seen
}

fn seen_in(alloc: Global, db: &CheckedDb) -> Result<Seen, NoMemory> {
    Ok(Seen {
        is_startproto_alone: is_startproto_alone(db),
        places: places_in(db),
        begins_full: begins_full(alloc, db)?,
    })
}

fn is_startproto_alone(db: &CheckedDb) -> bool {
    let protocols = &db.database().protocols;
    match protocols.get(0) {
        Some(protocol) => {
            protocols.len() == 1 && protocol.name.as_slice() == b"startproto".as_slice()
        }
        None => false,
    }
}

fn places_in(db: &CheckedDb) -> [usize; 5] {
    let database = db.database();
    [
        database.protocol_at(b"startproto"),
        database.protocol_at(b"ip"),
        place_of(b"ip", database.protocols.as_slice()),
        database.variable_at(b"src"),
        database.table_at(b"sessions"),
    ]
}

/// Three captured bytes of a packet that had 60.
fn packet(alloc: Global) -> Result<Packet, NoMemory> {
    Ok(Packet {
        number: 0,
        link: 1,
        stamp: 7,
        length: 60,
        bytes: Bytes::copy_of(alloc, b"abc")?,
    })
}

fn begins_full(alloc: Global, db: &CheckedDb) -> Result<bool, NoMemory> {
    let packet = packet(alloc)?;
    is_full_for(alloc, db, &packet)
}

fn is_full_for(alloc: Global, db: &CheckedDb, packet: &Packet) -> Result<bool, NoMemory> {
    let env = Env::start(alloc, db, packet)?;
    Ok(is_full(&env))
}

fn is_full(env: &Env) -> bool {
    env.limit == 3
        && env.turns == MOST_TURNS
        && env.questions == MOST_QUESTIONS
        && env.vars.len() == 0
        && env.hits.len() == 0
        && env.present.as_slice().is_empty()
        && env.packet.bytes.as_slice() == b"abc".as_slice()
}

#[test]
fn the_smallest_database_is_checked(rt: HostRuntime) -> Result<(), Fail> {
    let seen = look(rt.alloc())?;
    assert!(rt; seen.is_startproto_alone);
    Ok(())
}

#[test]
fn a_decoding_begins_with_full_budgets(rt: HostRuntime) -> Result<(), Fail> {
    let seen = look(rt.alloc())?;
    assert!(rt; seen.begins_full);
    Ok(())
}

#[test]
fn declarations_are_found_by_their_names(rt: HostRuntime) -> Result<(), Fail> {
    let seen = look(rt.alloc())?;
    assert!(rt; seen.places == [0, 1, 1, 0, 0]);
    Ok(())
}
