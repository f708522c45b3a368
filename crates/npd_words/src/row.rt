use crate::OptionName;

/// What the value of an option is.
#[derive(Clone, Copy)]
pub enum Form {
    /// The name of a file that is read. `-` is standard input.
    Input,
    /// The name of a file that is written. `-` is standard output.
    Output,
    /// A number of 1 to 10 decimal digits, in this range.
    Number { least: u32, most: u32 },
}

/// Whether an option has to be given.
#[derive(Clone, Copy)]
pub enum Need {
    Required,
    Optional,
    /// Where it isn't given, it is this number.
    Default(u32),
}

/// An option that a command has.
#[derive(Clone, Copy)]
pub struct OptionRow {
    pub option: OptionName,
    pub form: Form,
    pub need: Need,
}
