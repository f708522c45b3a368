ghost use Rattle.std.specs.Prelude.{◌≡◌};
ghost use Rattle.npd_words.specs.Codes;

/// Why words ask for no plan.
#[derive(Clone, Copy)]
pub enum Cause {
    /// There is no word.
    NoWord,
    /// The first word is no command.
    UnknownCommand,
    /// A word isn't an option of the command.
    UnknownOption,
    /// An option comes for the second time.
    SecondTime,
    /// No value follows.
    NoValue,
    /// The value is empty.
    EmptyValue,
    /// The value isn't a number in range.
    NoNumber,
    /// An option that has to be given is missing; the index is the number of words.
    MissingOption,
    /// Two of the files have one name; the index is that of the second one's option.
    SameName,
}

impl Cause {
    /// The code by which the cause is told.
    pub fn code(self) -> u8
        ensures { result ≡ Codes.code self }
    {
        match self {
            Cause::NoWord => 1,
            Cause::UnknownCommand => 2,
            Cause::UnknownOption => 3,
            Cause::SecondTime => 4,
            Cause::NoValue => 5,
            Cause::EmptyValue => 6,
            Cause::NoNumber => 7,
            Cause::MissingOption => 8,
            Cause::SameName => 9,
        }
    }
}
