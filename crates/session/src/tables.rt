ghost use Rattle.std.specs.Prelude.{◌≡◌, ◌≤◌, ℕ, map, OnOk, IfOk};
ghost use Rattle.std.specs.List.{All};
ghost use Rattle.session.specs.Tables.{contents, declarations};
ghost use Rattle.table_list.specs.State.{new_table};

use crate::any_table::AnyTable;
use db_model::{NoMemory, Table, TableDecl};
use std::alloc::Global;

/// One table for each declaration, to which nothing was added.
pub fn new(alloc: Global, declarations: &[TableDecl]) -> Result<Vec<AnyTable>, NoMemory>
    ensures { IfOk result (λ ts. ts.items ≡ map new_table declarations.now) }
{
    let mut tables = Vec::new(alloc);
    for declaration in declarations {
        tables.push(AnyTable::new(alloc, declaration)?)?;
    }
    Ok(tables)
}

/// Tables with the same declarations and lists.
pub fn copied(alloc: Global, tables: &[AnyTable]) -> Result<Vec<AnyTable>, NoMemory>
    ensures declarations { IfOk result (λ ts. declarations ts.items ≡ declarations tables.now) }
    ensures contents { IfOk result (λ ts. contents ts.items ≡ contents tables.now) }
{
    let mut copies = Vec::new(alloc);
    for table in tables {
        copies.push(table.copy()?)?;
    }
    Ok(copies)
}

/// Makes room for `n` calls in each table.
pub fn reserve(tables: &mut Vec<AnyTable>, n: u32) -> Result<(), NoMemory>
    ensures declarations { declarations tables.new.items ≡ declarations tables.old.items }
    ensures contents { contents tables.new.items ≡ contents tables.old.items }
    ensures room { OnOk result (All (λ t. n ≤ t.spare) tables.new.items) }
    ensures kept { (k : ℕ) → All (λ t. k ≤ t.spare) tables.old.items → All (λ t. k ≤ t.spare) tables.new.items }
{
    for place in 0..tables.len() {
        tables[place].reserve(n)?;
    }
    Ok(())
}
