use crate::node::{Attribute, Node};
use sqlite_items::Items;

/// An element that is open: what was read of it but its name.
#[derive(Drop)]
pub struct Frame {
    pub line: u32,
    pub attributes: Items<Attribute>,
    pub children: Items<Node>,
}
