use crate::{Bytes, Element, Literal, Name, Ty};
use sqlite_items::Items;

/// How long the value of a variable lasts: it begins anew with each packet.
#[derive(Clone, Copy, PartialEq, Eq)]
pub enum VarValidity {
    Packet,
}

/// A variable. Its name stands without the `$`.
#[derive(Drop)]
pub struct VarDecl {
    pub line: u32,
    pub name: Name,
    pub ty: Ty,
    pub value: Literal,
    pub validity: Option<VarValidity>,
}

/// A key of a table, of `size` bytes.
#[derive(Drop)]
pub struct KeyDecl {
    pub line: u32,
    pub name: Name,
    pub size: u32,
}

/// A data column of a table. One of bytes has a greatest size in bytes, and no other has one.
#[derive(Drop)]
pub struct ColumnDecl {
    pub line: u32,
    pub name: Name,
    pub ty: Ty,
    pub size: Option<u32>,
}

#[derive(Drop)]
pub struct TableDecl {
    pub line: u32,
    pub name: Name,
    pub exact_entries: u32,
    pub mask_entries: u32,
    pub keys: Items<KeyDecl>,
    pub columns: Items<ColumnDecl>,
}

#[derive(Clone, Copy, PartialEq, Eq)]
pub enum ShowType {
    Hex,
    Dec,
    Ascii,
}

/// How bytes are shown: in groups of `group` bytes, where 0 means one group, joined by `separator`.
#[derive(Drop)]
pub struct ShowTemplate {
    pub line: u32,
    pub name: Name,
    pub show_type: ShowType,
    /// 0 where it isn't written.
    pub group: u32,
    /// Empty where it isn't written.
    pub separator: Bytes,
}

/// A section of the summary.
#[derive(Drop)]
pub struct SectionDecl {
    pub line: u32,
    pub name: Name,
}

/// The sections of the summary, in order.
#[derive(Drop)]
pub struct SumStruct {
    pub line: u32,
    pub sections: Items<SectionDecl>,
}

/// What of a packet's header a summary shows.
#[derive(Clone, Copy, PartialEq, Eq)]
pub enum HeaderPart {
    Num,
    Timestamp,
    Len,
}

#[derive(Drop)]
pub enum SumItem {
    Section { line: u32, name: Name },
    Text { line: u32, value: Bytes },
    ProtoField { line: u32, name: Name },
    PacketHdr { line: u32, value: HeaderPart },
}

#[derive(Drop)]
pub struct SumTemplate {
    pub line: u32,
    pub name: Name,
    pub items: Items<SumItem>,
}

/// The elements that stand in one element of a protocol, with that element's line.
#[derive(Drop)]
pub struct ElementList {
    pub line: u32,
    pub elements: Items<Element>,
}

#[derive(Drop)]
pub struct ExecuteCode {
    pub line: u32,
    pub before: Option<ElementList>,
    pub after: Option<ElementList>,
}

/// A block that stands in a format itself. It runs only where it is included.
#[derive(Drop)]
pub struct NamedBlock {
    pub line: u32,
    pub name: Name,
    pub longname: Option<Bytes>,
    pub body: Items<Element>,
}

#[derive(Drop)]
pub struct Format {
    pub line: u32,
    pub fields: Option<ElementList>,
    pub blocks: Items<NamedBlock>,
}

#[derive(Drop)]
pub struct Protocol {
    pub line: u32,
    pub name: Name,
    pub longname: Option<Bytes>,
    pub showsum: Option<Name>,
    pub execute_code: Option<ExecuteCode>,
    pub format: Option<Format>,
    pub encapsulation: Option<ElementList>,
}

/// A protocol database as it is written, each kind of declaration in its order.
#[derive(Drop)]
pub struct Database {
    pub line: u32,
    pub name: Option<Bytes>,
    pub version: Option<Bytes>,
    pub creator: Option<Bytes>,
    pub date: Option<Bytes>,
    pub variables: Items<VarDecl>,
    pub tables: Items<TableDecl>,
    pub show_templates: Items<ShowTemplate>,
    pub sum_struct: Option<SumStruct>,
    pub sum_templates: Items<SumTemplate>,
    pub protocols: Items<Protocol>,
}

impl Database {
    /// Lets the database go. A crate in which one goes out of scope needs a function to drop each type in it, proved there
    /// once more.
    pub fn discard(self) {
        drop(self);
    }
}
