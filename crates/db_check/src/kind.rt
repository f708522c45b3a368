ghost use Rattle.std.specs.Prelude.{◌≡◌};
ghost use Rattle.db_check.specs.Own;

use db_cause::Cause;

/// The faults that stand at elements.
#[derive(Clone, Copy)]
pub enum Kind {
    /// A name that isn't declared.
    Names,
    /// An expression of another type than is wanted.
    Types,
    /// A number that is out of its limits.
    Numbers,
    /// An update or a look-up that doesn't fit its table.
    Tables,
}

impl Kind {
    pub fn cause(self) -> Cause
        ensures { result ≡ Own.cause_of self }
    {
        match self {
            Kind::Names => Cause::Undeclared,
            Kind::Types => Cause::WrongType,
            Kind::Numbers => Cause::OutOfLimits,
            Kind::Tables => Cause::TableMisfit,
        }
    }
}
