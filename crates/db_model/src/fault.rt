ghost use Rattle.std.specs.Prelude.{◌≡◌};
ghost use Rattle.db_model.specs.LeastFault;

use crate::NoMemory;
use thiserror::Error;

/// A fault of a database: its line, from 1, and its code. 20 to 27: of the shape of its elements. 40 to 47: of
/// what they declare and use.
#[derive(Clone, Copy)]
pub struct Fault {
    pub line: u32,
    pub code: u8,
}

impl Fault {
    fn comes_first(self, other: Fault) -> bool
        ensures { result ≡ LeastFault.comes_first self other }
    {
        self.line < other.line || self.line == other.line && self.code <= other.code
    }

    /// The fault of the lesser line, and on one line that of the lesser code.
    pub fn earlier(a: Option<Fault>, b: Option<Fault>) -> Option<Fault>
        ensures { result ≡ LeastFault.earlier a b }
    {
        match (a, b) {
            (None, _) => b,
            (Some(_), None) => a,
            (Some(f), Some(g)) => { if f.comes_first(g) { a } else { b } }
        }
    }
}

/// Why a text isn't a database that a decoder may be given.
#[derive(Debug, Drop, Error)]
pub enum DbFail {
    /// A fault: its line, from 1, and its code. 1 to 4: of the text. The others are those of `Fault`.
    #[error("fault {code} at line {line}")]
    Fault { line: u32, code: u8 },
    #[error("out of memory")]
    NoMemory,
}

impl From<NoMemory> for DbFail {
    ghost use Rattle.db_model.specs.declared.fault.DbFail.TheVariants as fail;

    ghost from_gives = { λ lack e. e ≡ fail.NoMemory };

    fn from(_: NoMemory) -> DbFail {
        DbFail::NoMemory
    }
}
