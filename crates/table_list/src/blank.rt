ghost use Rattle.std.specs.Prelude.{◌≡◌, ◌<◌, ◌++◌, ◌∷◌, [], IfOk, length};
ghost use Rattle.std.specs.List.{All};
ghost use Rattle.table_list.specs.Ready.{ready};

use crate::room::Room;
use crate::space::Space;
use db_model::{Bytes, NoMemory, Value};
use std::alloc::Global;

/// Memory for one entry.
#[derive(Drop)]
pub struct Blank {
    pub keys: Room<Bytes>,
    pub masks: Room<Bytes>,
    pub row: Room<Value>,
}

/// Memory for one call: for the entry that it adds, and for the row that it answers.
#[derive(Drop)]
pub struct Ready {
    pub entry: Blank,
    pub answer: Room<Value>,
}

impl Ready {
    pub fn new(alloc: Global, keys: Space, row: Space) -> Result<Ready, NoMemory>
        ensures { IfOk result (λ r. r ≡ ready keys row) }
    {
        Ok(Ready {
            entry: Blank {
                keys: Room::new(alloc, keys)?,
                masks: Room::new(alloc, keys)?,
                row: Room::new(alloc, row)?,
            },
            answer: Room::new(alloc, row)?,
        })
    }

    /// Memory for so many calls.
    pub fn some(
        alloc: Global,
        keys: Space,
        row: Space,
        count: usize,
    ) -> Result<Vec<Ready>, NoMemory>
        ensures ready { IfOk result (λ rs. All (λ r. r ≡ ready keys row) rs.items) }
        ensures count { IfOk result (λ rs. length rs.items ≡ count) }
    {
        let mut some = Vec::new(alloc);
        for _place in 0..count {
            some.push(Ready::new(alloc, keys, row)?)?;
        }
        Ok(some)
    }
}

/// Takes the memory of one call.
pub fn take(ready: &mut Vec<Ready>) -> Ready
    requires { 0 < length ready.old.items }
    ensures { ready.old.items ≡ ready.new.items ++ result ∷ [] }
{
    match ready.pop() {
        Some(one) => one,
        None => unreachable!(),
    }
}
