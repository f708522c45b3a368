use crate::{Bytes, Sequence};

/// The type of a value.
#[derive(Clone, Copy, PartialEq, Eq)]
pub enum Ty {
    Num,
    Buf,
    Proto,
}

/// What an expression gives: a number, some bytes, or a protocol by its number.
#[derive(Clone, Drop, PartialEq)]
pub enum Value {
    Num(u32),
    Buf(Bytes),
    Proto(u16),
}

/// The values of a row of a table, or of all variables, in the order of declaration.
pub type Row = Sequence<Value>;

/// The keys of an entry, or its masks, in the order of declaration.
pub type Keys = Sequence<Bytes>;
