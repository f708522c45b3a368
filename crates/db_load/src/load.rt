ghost use Rattle.std.specs.Prelude.{◌≡◌, IfOk, true};
ghost use Rattle.db_model.specs.Shape.{is_shaped};
ghost use Rattle.db_load.specs.Answer.{Answers, Judges};

use crate::laws::loaded_is_shaped;
use crate::protocol::database_of;
use crate::walk::refusal;
use db_model::{Database, DbFail, Fault};
use db_text::{Node, TextFail, read_elements};
use std::alloc::Global;

/// The database that a top element means, or the fault that is answered.
fn judged(alloc: Global, node: &Node) -> Result<Database, DbFail>
    ensures judged { Judges node.now result }
    ensures shaped { IfOk result (λ db. is_shaped db ≡ true) }
{
    loaded_is_shaped();
    match refusal(alloc, node)? {
        Some(Fault { line, code }) => Err(DbFail::Fault { line, code }),
        None => Ok(database_of(alloc, node)?),
    }
}

/// The database that a text is; else the line and the code of the fault that is answered: that of the text, or
/// of all faults of shape the one of the least line, and there of the least code. A database that is given is shaped.
pub fn load_database(alloc: Global, text: &[u8]) -> Result<Database, DbFail>
    ensures answer { Answers text.now result }
    ensures shaped { IfOk result (λ db. is_shaped db ≡ true) }
{
    match read_elements(alloc, text) {
        Ok(node) => judged(alloc, &node),
        Err(TextFail::Fault { line, code }) => Err(DbFail::Fault { line, code }),
        Err(TextFail::NoMemory) => Err(DbFail::NoMemory),
    }
}
