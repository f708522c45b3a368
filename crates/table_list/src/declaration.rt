ghost use Rattle.std.specs.Prelude.{◌≡◌, IfOk};

use db_model::{ColumnDecl, KeyDecl, Name, NoMemory, TableDecl};
use sqlite_items::Items;
use std::alloc::Global;

/// A copy of a declaration.
pub fn copied(alloc: Global, declaration: &TableDecl) -> Result<TableDecl, NoMemory>
    ensures { IfOk result (λ d. d ≡ declaration.now) }
{
    Ok(TableDecl {
        line: declaration.line,
        name: name(alloc, &declaration.name)?,
        exact_entries: declaration.exact_entries,
        mask_entries: declaration.mask_entries,
        keys: keys(alloc, declaration.keys.as_slice())?,
        columns: columns(alloc, declaration.columns.as_slice())?,
    })
}

fn name(alloc: Global, name: &Name) -> Result<Name, NoMemory>
    ensures { IfOk result (λ n. n ≡ name.now) }
{
    Name::copy_of(alloc, name.as_slice())
}

fn keys(alloc: Global, keys: &[KeyDecl]) -> Result<Items<KeyDecl>, NoMemory>
    ensures { IfOk result (λ ks. ks ≡ keys.now) }
{
    let mut copies = Items::new(alloc);
    for key in keys {
        copies.push(KeyDecl {
            line: key.line,
            name: name(alloc, &key.name)?,
            size: key.size,
        })?;
    }
    Ok(copies)
}

fn columns(alloc: Global, columns: &[ColumnDecl]) -> Result<Items<ColumnDecl>, NoMemory>
    ensures { IfOk result (λ cs. cs ≡ columns.now) }
{
    let mut copies = Items::new(alloc);
    for column in columns {
        copies.push(ColumnDecl {
            line: column.line,
            name: name(alloc, &column.name)?,
            ty: column.ty,
            size: column.size,
        })?;
    }
    Ok(copies)
}
