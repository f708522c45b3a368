/// An entity of a value.
#[derive(Clone, Copy)]
pub enum Entity {
    /// `&lt;`
    Less,
    /// `&gt;`
    Greater,
    /// `&amp;`
    Ampersand,
    /// `&quot;`
    Quote,
    /// `&apos;`
    Apostrophe,
}

/// Bytes of which each has to come once the first ones came.
#[derive(Clone, Copy)]
pub enum Fixed {
    /// The byte-order mark.
    Mark,
    /// `<?xml`
    Declaration,
    /// `<!--`
    Comment,
    /// An entity of a value in these quotes.
    Entity { quote: u8, entity: Entity },
}

/// What the next byte may be.
#[derive(Clone, Copy)]
pub enum Mode {
    /// Nothing was read.
    Start,
    /// The byte-order mark was read.
    Marked,
    /// So many bytes of fixed ones were read.
    Fixed { word: Fixed, read: usize },
    Declaration,
    /// Behind the `?` that ends the declaration.
    DeclarationEnds,
    /// Between elements.
    Between,
    /// Behind a `<` on this line; `first`: a declaration may begin with it.
    Less { line: u32, first: bool },
    /// In a comment, behind so many hyphens.
    Comment { hyphens: u8 },
    /// In the name of an element that begins.
    Name,
    /// Behind space in a tag.
    Tag,
    AttributeName,
    /// Behind the name of an attribute and space.
    BeforeEquals,
    AfterEquals,
    Value { quote: u8 },
    /// Behind the `&` of a value.
    Ampersand { quote: u8 },
    /// Behind the `&a` of a value.
    AmpersandA { quote: u8 },
    BehindValue,
    /// Behind the `/` of an element without content.
    Slash,
    /// So many bytes of the name that closes an element were read.
    Closing { read: usize },
    /// Behind the name that closes an element, and space.
    Closed,
}

/// What a byte does to what was read so far.
#[derive(Clone, Copy)]
pub enum Act {
    Nothing,
    /// An element begins whose `<` stands on this line; this is the first byte of its name.
    Opens { line: u32, byte: u8 },
    /// The name of the element goes on.
    AddsToName { byte: u8 },
    /// The name of an attribute goes on.
    AddsToWord { byte: u8 },
    /// A value goes on.
    AddsToValue { byte: u8 },
    EndsAttribute,
    /// The innermost element ends.
    Closes,
}

/// What a byte does, and what the next one may be.
#[derive(Clone, Copy)]
pub struct Move {
    pub mode: Mode,
    pub act: Act,
}

/// Where a text is outside of all tags.
#[derive(Clone, Copy)]
pub enum Place {
    /// Before the top element.
    Before,
    Inside,
    /// Behind the top element.
    After,
}
