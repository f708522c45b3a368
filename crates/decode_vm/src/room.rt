ghost use Rattle.std.specs.Prelude.{◌≡◌, []};

use db_model::{FieldValues, Nodes, PacketTree};
use std::alloc::Global;

/// Nodes for which a protocol has room from its beginning.
const USUAL_NODES: usize = 16;
/// Fields for which a packet has room from its beginning.
const USUAL_FIELDS: usize = 24;
/// Protocols for which a packet has room from its beginning.
const USUAL_PROTOCOLS: usize = 8;

/// An empty list with room for so many, or without room where the memory for it is refused.
fn with_room<T>(alloc: Global, count: usize) -> Vec<T>
    ensures { result.items ≡ [] }
{
    match Vec::with_capacity(alloc, count) {
        Ok(items) => items,
        Err(_) => Vec::new(alloc),
    }
}

/// No nodes yet, with room for those of most protocols: a list that grows is copied.
pub fn no_nodes(alloc: Global) -> Nodes
    ensures { result ≡ [] }
{
    Nodes::from_vec(with_room(alloc, USUAL_NODES))
}

/// No fields yet, with room for those of most protocols.
pub fn no_fields(alloc: Global) -> FieldValues
    ensures { result ≡ [] }
{
    FieldValues::with_room(alloc, USUAL_FIELDS)
}

/// No protocols yet, with room for those of most packets.
pub fn no_protocols(alloc: Global) -> PacketTree
    ensures { result ≡ [] }
{
    PacketTree::from_vec(with_room(alloc, USUAL_PROTOCOLS))
}
