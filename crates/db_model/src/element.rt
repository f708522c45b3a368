use crate::{Bytes, Expr, Name, Validity};
use sqlite_items::Items;

/// The type of a field with the attributes that it has.
#[derive(Drop)]
pub enum FieldForm {
    Fixed { size: u32 },
    Bit { size: u32, mask: u32 },
    Variable { expr: Expr },
    TokenEnded { token: Bytes },
    Line,
    Padding { align: u32 },
}

#[derive(Clone, Copy, PartialEq, Eq)]
pub enum LoopKind {
    Size,
    Count,
    While,
}

#[derive(Clone, Copy, PartialEq, Eq)]
pub enum LoopControl {
    Break,
    Continue,
}

/// A key of an update.
#[derive(Drop)]
pub struct UpdateKey {
    pub line: u32,
    pub value: Expr,
    pub mask: Option<Bytes>,
}

/// A data value of an update.
#[derive(Drop)]
pub struct UpdateValue {
    pub line: u32,
    pub value: Expr,
}

/// A case of a switch: it holds the numbers from `value` to `maxvalue`.
#[cycle(element)]
#[derive(Drop)]
pub struct Case {
    pub line: u32,
    pub value: u32,
    /// As `value` where it isn't written.
    pub maxvalue: u32,
    pub body: Items<Element>,
}

/// The default of a switch, or what an `if` does where its expression is 0.
#[cycle(element)]
#[derive(Drop)]
pub struct Branch {
    pub line: u32,
    pub body: Items<Element>,
}

/// An element of a field list, a code list or an encapsulation list, with the line at which it begins.
#[cycle(element)]
#[derive(Drop)]
pub enum Element {
    Field {
        line: u32,
        name: Name,
        form: FieldForm,
        longname: Option<Bytes>,
        show: Option<Name>,
    },
    Block {
        line: u32,
        name: Name,
        longname: Option<Bytes>,
        body: Items<Element>,
    },
    IncludeBlock {
        line: u32,
        name: Name,
    },
    Loop {
        line: u32,
        kind: LoopKind,
        expr: Expr,
        body: Items<Element>,
    },
    LoopCtrl {
        line: u32,
        kind: LoopControl,
    },
    Switch {
        line: u32,
        expr: Expr,
        cases: Items<Case>,
        otherwise: Option<Branch>,
    },
    If {
        line: u32,
        expr: Expr,
        true_line: u32,
        if_true: Items<Element>,
        if_false: Option<Branch>,
    },
    /// The name stands without its `$`.
    Assign {
        line: u32,
        name: Name,
        value: Expr,
    },
    /// `keep` and `hit` are seconds.
    Update {
        line: u32,
        table: Name,
        validity: Validity,
        keep: Option<u32>,
        hit: Option<u32>,
        keys: Items<UpdateKey>,
        row: Items<UpdateValue>,
    },
    NextProto {
        line: u32,
        proto: Expr,
    },
}
