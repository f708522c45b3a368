use db_model::Bytes64;
use sqlite_items::Items;

/// The attributes of an element, in order.
pub type AttributeList = Items<Attribute>;

/// The elements within an element, in order.
pub type NodeList = Items<Node>;

/// One attribute: its value has its entities as their characters, and a space for each tab and line end.
#[derive(Drop)]
pub struct Attribute {
    pub name: Bytes64,
    pub value: Bytes64,
}

/// One element of a text, with the line of its `<`.
#[derive(Drop)]
pub struct Node {
    pub name: Bytes64,
    pub attributes: Items<Attribute>,
    pub children: Items<Node>,
    pub line: u32,
}
