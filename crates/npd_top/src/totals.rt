ghost use Rattle.std.specs.Prelude.{◌≡◌, ◌++◌, IfOk, OnOk, decimal};
ghost use Rattle.npd_top.specs.CheckRun;

use db_model::{Database, NoMemory};
use show::{push, push_number};
use std::alloc::Global;

/// How much a database declares.
#[derive(Clone, Copy)]
pub struct Totals {
    pub protocols: u64,
    pub tables: u64,
    pub variables: u64,
}

/// How much this database declares.
pub fn totals_of(db: &Database) -> Totals
    ensures { result ≡ CheckRun.totals_of db.now }
{
    Totals {
        protocols: db.protocols.as_slice().len() as u64,
        tables: db.tables.as_slice().len() as u64,
        variables: db.variables.as_slice().len() as u64,
    }
}

/// Adds a number in decimal behind a word.
fn push_count(text: &mut Vec<u8>, word: &str, number: u64) -> Result<(), NoMemory>
    ensures { OnOk result (text.new.items ≡ text.old.items ++ (word.now ++ decimal number)) }
{
    push(text, word.as_bytes())?;
    push_number(text, number)
}

/// The line that says how much a database declares.
#[tactic(auto, unfolding(crate::specs::CheckRun::totals_line))]
pub fn totals_line(alloc: Global, totals: &Totals) -> Result<Vec<u8>, NoMemory>
    ensures { IfOk result (λ text. text.items ≡ CheckRun.totals_line totals.now) }
{
    let mut text = Vec::new(alloc);
    push_count(&mut text, "protocols ", totals.protocols)?;
    push_count(&mut text, " tables ", totals.tables)?;
    push_count(&mut text, " variables ", totals.variables)?;
    push(&mut text, b"\n")?;
    Ok(text)
}
