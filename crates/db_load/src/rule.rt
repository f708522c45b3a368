use crate::{Kind, Word};

/// The form of an attribute's value.
#[derive(Clone, Copy)]
pub enum Form {
    /// 0 to 64 bytes.
    Text,
    /// 1 to 64 bytes.
    FilledText,
    Name,
    /// `$` and a name.
    VariableName,
    /// A number in decimal, or in hex behind `0x`.
    Number,
    Expr,
    /// An expression that is one number, one text in quotes or one protocol.
    Literal,
    /// One text in quotes.
    Quoted,
    /// 0 to 8 bytes.
    Separator,
    /// `0x` and two hex digits a byte.
    Mask,
    ValueType,
    VariableValidity,
    ShowType,
    HeaderPart,
    FieldType,
    LoopType,
    LoopControl,
    UpdateAction,
    EntryValidity,
}

/// When an attribute has to be there.
#[derive(Clone, Copy)]
pub enum Need {
    Required,
    Optional,
    /// Required where the type is this word, and else unknown.
    For(Word),
}

/// An attribute that an element has.
pub struct Rule {
    pub word: Word,
    pub need: Need,
    pub form: Form,
}

/// What may stand in an element: under this name elements of this kind, in these numbers.
#[derive(Clone, Copy)]
pub struct Child {
    pub word: Word,
    pub kind: Kind,
    pub least: usize,
    pub most: Option<usize>,
}
