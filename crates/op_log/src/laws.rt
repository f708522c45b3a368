//! The laws of records, each the contract of a function that does nothing.

ghost use Rattle.op_log.specs.Laws.{AgreeingRecord, OwnRecord};

use db_laws::{session_of_decoding, unchanged_decoding};

/// A record from a view whose log agrees with a session is the decoding from that session.
pub fn agreeing_record()
    ensures { AgreeingRecord }
{
    unchanged_decoding();
}

/// A record's log agrees with the session from which it was decoded.
pub fn own_record()
    ensures { OwnRecord }
{
    session_of_decoding();
}
