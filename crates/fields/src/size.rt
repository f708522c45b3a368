ghost use Rattle.std.specs.Prelude.{◌≡◌, ◌≤◌, length};
ghost use Rattle.db_model.specs.Extent.{extent, size};
ghost use Rattle.fields.specs.Outcome.{outcome, IsAligned};

use crate::outcome::Extent;
use crate::padding::padding;
use crate::token::{through, through_line};
use db_model::FieldKind;

/// Where a field of this kind ends that begins at the position `at` of a packet's bytes, before the position
/// `limit`, in a protocol that begins at `origin`. `n` is the size of a variable field. `Short` comes where
/// the size would pass the limit. Takes no memory.
#[tactic(auto, unfolding(db_model::specs::Extent::extent))]
pub fn extent(kind: &FieldKind, bytes: &[u8], at: u32, limit: u32, origin: u32, n: u32) -> Extent
    requires origin { origin ≤ at }
    requires position { at ≤ limit }
    requires limit { limit ≤ length bytes.now }
    requires alignment { IsAligned kind.now }
    ensures { result ≡ outcome (extent kind.now bytes.now at limit origin n) }
{
    let size = wanted_size(kind, bytes, at, limit, origin, n);
    if size <= limit - at {
        Extent::Size(size)
    } else {
        Extent::Short
    }
}

/// The size that the field wants, which may pass the limit.
fn wanted_size(kind: &FieldKind, bytes: &[u8], at: u32, limit: u32, origin: u32, n: u32) -> u32
    requires origin { origin ≤ at }
    requires position { at ≤ limit }
    requires limit { limit ≤ length bytes.now }
    requires alignment { IsAligned kind.now }
    ensures { result ≡ size kind.now bytes.now at limit origin n }
{
    let rest = &bytes[at as usize..limit as usize];
    match kind {
        FieldKind::Fixed(size) => *size,
        FieldKind::Bit { size, .. } => u32::from(*size),
        FieldKind::Variable => n,
        FieldKind::TokenEnded(token) => through(rest, token.as_slice()),
        FieldKind::Line => through_line(rest),
        FieldKind::Padding(align) => padding(*align, at - origin),
    }
}
