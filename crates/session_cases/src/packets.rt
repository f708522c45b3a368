ghost use Rattle.std.specs.Prelude.{◌<◌, IfSome};

use db_model::{Bytes, MOST_BYTES, Packet, STAMP_END};
use std::alloc::Global;

/// The packet that `STAMP HEX` is: a moment in nanoseconds, and the captured bytes.
pub fn packet(alloc: Global, text: &str) -> Option<Packet>
    ensures { IfSome result (λ p. p.stamp < STAMP_END) }
{
    let (stamp, digits) = text.split_once(' ')?;
    let stamp = stamp.parse::<u64>().ok()?;
    if stamp >= STAMP_END {
        return None;
    }
    Some(Packet {
        number: 0,
        link: 1,
        stamp,
        length: 0,
        bytes: bytes(alloc, digits)?,
    })
}

fn bytes(alloc: Global, digits: &str) -> Option<Bytes> {
    let bytes = hex::decode(alloc, digits).ok()?;
    if bytes.len() > MOST_BYTES {
        return None;
    }
    Some(Bytes::from_vec(bytes))
}
