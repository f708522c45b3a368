ghost use Rattle.std.specs.Prelude.{◌≡◌};
ghost use Rattle.db_cause.specs.Codes;

/// Why a database is refused. The first four are of its text, the next eight of the shape of its elements, and the
/// others of what elements say of one another.
#[derive(Clone, Copy)]
pub enum Cause {
    /// A byte with which no database text goes on.
    UnexpectedByte,
    /// The text ends early.
    UnexpectedEnd,
    /// The text is too long.
    TextTooLong,
    /// An element of the text stands too deep.
    TextTooDeep,
    /// An element is unknown, or may not stand where it does.
    MisplacedElement,
    /// An attribute is unknown for its element, or is there twice.
    StrayAttribute,
    /// An attribute that has to be there is missing.
    MissingAttribute,
    /// A value hasn't its form.
    MalformedValue,
    /// A value isn't the expression, the literal or the text in quotes that it has to be.
    MalformedExpression,
    /// The number or the order of what stands in an element is wrong.
    WrongChildren,
    /// An element stands too deep.
    ElementTooDeep,
    /// A `loopctrl` stands in no loop.
    StrayLoopControl,
    /// A name was declared before, or may not be declared.
    DeclaredAgain,
    /// A name that is used isn't declared.
    Undeclared,
    /// An expression has no type, or another than is wanted.
    WrongType,
    /// A number is out of its limits, or there are too many declarations.
    OutOfLimits,
    /// A bit field isn't followed by its like.
    UnfollowedBits,
    /// A named block includes itself.
    IncludesItself,
    /// Blocks and loops of a protocol stand too deep in one another.
    NestedTooDeep,
    /// A look-up or an update doesn't fit its table.
    TableMisfit,
}

impl Cause {
    /// The code by which the cause is told.
    pub fn code(self) -> u8
        ensures { result ≡ Codes.code self }
    {
        match self {
            Cause::UnexpectedByte => 1,
            Cause::UnexpectedEnd => 2,
            Cause::TextTooLong => 3,
            Cause::TextTooDeep => 4,
            Cause::MisplacedElement => 20,
            Cause::StrayAttribute => 21,
            Cause::MissingAttribute => 22,
            Cause::MalformedValue => 23,
            Cause::MalformedExpression => 24,
            Cause::WrongChildren => 25,
            Cause::ElementTooDeep => 26,
            Cause::StrayLoopControl => 27,
            Cause::DeclaredAgain => 40,
            Cause::Undeclared => 41,
            Cause::WrongType => 42,
            Cause::OutOfLimits => 43,
            Cause::UnfollowedBits => 44,
            Cause::IncludesItself => 45,
            Cause::NestedTooDeep => 46,
            Cause::TableMisfit => 47,
        }
    }
}
