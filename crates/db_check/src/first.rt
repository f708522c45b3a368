ghost use Rattle.std.specs.Prelude.{◌≡◌};
ghost use Rattle.db_check.specs.First.{first};
ghost use Rattle.db_model.specs.Lines;

use db_cause::Cause;
use db_model::Fault;

/// The fault of a cause at a line, where it stands.
pub fn at_line(line: u32, cause: Cause, stands: bool) -> Option<Fault>
    ensures { result ≡ first cause (Lines.at_line line stands) }
{
    if stands {
        Some(Fault {
            line,
            code: cause.code(),
        })
    } else {
        None
    }
}
