ghost use Rattle.std.specs.Prelude.{◌≡◌, map};
ghost use Rattle.db_model.specs.Special.{meant_in, special};

use crate::{Bytes, Name};
use sqlite_items::{Boxed, Items};

/// The operators that evaluate both sides.
#[derive(Clone, Copy, PartialEq, Eq)]
pub enum Operator {
    Add,
    Sub,
    Mul,
    Div,
    Mod,
    BitAnd,
    BitOr,
    Lt,
    Le,
    Gt,
    Ge,
    Eq,
    Ne,
}

/// The variables that are not declared and that nothing sets.
#[derive(Clone, Copy, PartialEq, Eq)]
pub enum Special {
    /// `$packet`, the captured bytes.
    Packet,
    /// `$packetlength`, how many they are.
    PacketLength,
    /// `$currentoffset`, the position.
    CurrentOffset,
    /// `$protooffset`, the position at which the protocol began.
    ProtoOffset,
    /// `$linktype`
    LinkType,
}

const SPECIALS: [(&[u8], Special); 5] = [
    (b"packet", Special::Packet),
    (b"packetlength", Special::PacketLength),
    (b"currentoffset", Special::CurrentOffset),
    (b"protooffset", Special::ProtoOffset),
    (b"linktype", Special::LinkType),
];

fn meant_in(mut table: &[(&[u8], Special)], name: &[u8]) -> Option<Special>
    ensures { result ≡ meant_in (map (λ s. (s.0.now, s.1)) table.entry.now) name.now }
{
    while let [entry, rest @ ..] = table {
        if name == entry.0 {
            return Some(entry.1);
        }
        table = rest;
    }
    None
}

impl Special {
    /// Which special variable the name, without its `$`, is.
    pub fn of(name: &[u8]) -> Option<Special>
        ensures { result ≡ special name.now }
    {
        meant_in(&SPECIALS, name)
    }
}

/// An expression as it is written, parentheses aside.
#[derive(Drop)]
pub enum Expr {
    Number(u32),
    Text(Bytes),
    /// `#name`
    Protocol(Name),
    /// A bare name: the field that was decoded last under it.
    Field(Name),
    /// `$name`, a special variable included.
    Variable(Name),
    /// `$table.column`, of the row that was last hit in the table.
    Column {
        table: Name,
        column: Name,
    },
    Not(Boxed<Expr>),
    And(Boxed<Expr>, Boxed<Expr>),
    Or(Boxed<Expr>, Boxed<Expr>),
    Binary(Operator, Boxed<Expr>, Boxed<Expr>),
    /// `base[from:count]`
    Slice {
        base: Boxed<Expr>,
        from: Boxed<Expr>,
        count: Boxed<Expr>,
    },
    /// `buf2int(bytes)`
    ToNumber(Boxed<Expr>),
    /// `buflen(bytes)`
    LengthOf(Boxed<Expr>),
    /// `int2buf(value,size)`
    ToBytes {
        value: Boxed<Expr>,
        size: u32,
    },
    /// `hasstring(within,text)`
    HasText {
        within: Boxed<Expr>,
        text: Bytes,
    },
    /// `ispresent(name)`
    IsPresent(Name),
    /// `checklookuptable(table,..)`, and `checkupdatelookuptable(table,..)`, which renews.
    LookUp {
        table: Name,
        renew: bool,
        keys: Items<Expr>,
    },
}

/// An expression that is one number, one text or one protocol.
#[derive(Drop)]
pub enum Literal {
    Number(u32),
    Text(Bytes),
    Protocol(Name),
}

/// Why an expression has no type. A name that isn't declared comes first, then a wrong number of keys.
#[derive(Clone, Copy, PartialEq, Eq)]
pub enum TypeFault {
    /// It names something that isn't declared.
    Undeclared,
    /// The types of its parts don't fit.
    Mistyped,
    /// It has a look-up with a wrong number of keys.
    Arity,
}
