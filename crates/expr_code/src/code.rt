use db_model::{Bytes, Operator, Sequence, Special};
use sqlite_items::{Boxed, Items};

/// The numbers of the fields of a protocol that bear one name, ascending. Mostly there is one.
pub type FieldNumbers = Sequence<u32>;

/// An expression whose names are resolved. The numbers are places in the database's declarations.
#[derive(Drop)]
pub enum ExprCode {
    Number(u32),
    Text(Bytes),
    Protocol(u16),
    /// The field of these that was decoded last.
    Field(FieldNumbers),
    /// Whether one of these fields was decoded.
    IsPresent(FieldNumbers),
    Special(Special),
    /// The declared variable at this place.
    Variable(usize),
    /// A data column of the row that was last hit in a table.
    Column {
        table: usize,
        column: usize,
    },
    Not(Boxed<ExprCode>),
    And(Boxed<ExprCode>, Boxed<ExprCode>),
    Or(Boxed<ExprCode>, Boxed<ExprCode>),
    Binary(Operator, Boxed<ExprCode>, Boxed<ExprCode>),
    Slice {
        base: Boxed<ExprCode>,
        from: Boxed<ExprCode>,
        count: Boxed<ExprCode>,
    },
    ToNumber(Boxed<ExprCode>),
    LengthOf(Boxed<ExprCode>),
    ToBytes {
        value: Boxed<ExprCode>,
        size: u32,
    },
    HasText {
        within: Boxed<ExprCode>,
        text: Bytes,
    },
    /// The table is a declared one.
    LookUp {
        table: usize,
        renew: bool,
        keys: Items<ExprCode>,
    },
}
