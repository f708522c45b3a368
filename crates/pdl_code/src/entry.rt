//! What an update holds: the codes of its keys and of its row.

ghost use Rattle.std.specs.Prelude.{◌≡◌, map, IfOk};
ghost use Rattle.pdl_code.specs.Coding.{key_code, resolved};

use crate::KeyCode;
use crate::scope::Scope;
use db_model::{Bytes, Name, NoMemory, UpdateKey, UpdateValue, Validity};
use expr_code::{ExprCode, code_of};
use sqlite_items::Items;

/// What an update adds to a table, as it is declared. `keep` and `hit` are seconds.
#[derive(Clone, Copy)]
pub struct UpdateForm<'a> {
    pub table: &'a Name,
    pub validity: Validity,
    pub keep: Option<u32>,
    pub hit: Option<u32>,
    pub keys: &'a [UpdateKey],
    pub row: &'a [UpdateValue],
}

fn mask(of: &Option<Bytes>) -> Result<Option<Bytes>, NoMemory>
    ensures { IfOk result (λ c. c ≡ of.now) }
{
    match of {
        Some(mask) => Ok(Some(mask.clone()?)),
        None => Ok(None),
    }
}

fn key(scope: &Scope<'_>, of: &UpdateKey) -> Result<KeyCode, NoMemory>
    ensures { IfOk result (λ c. c ≡ key_code scope.now.db.now scope.now.protocol of.now) }
{
    let value = code_of(scope.alloc, &of.value, scope.db, scope.protocol)?;
    let mask = mask(&of.mask)?;
    Ok(KeyCode { value, mask })
}

/// The keys of an update, in order.
pub fn keys(scope: &Scope<'_>, of: &[UpdateKey]) -> Result<Items<KeyCode>, NoMemory>
    ensures { IfOk result (λ c. c ≡ map (key_code scope.now.db.now scope.now.protocol) of.now) }
{
    let mut codes = Items::new(scope.alloc);
    for x in of {
        codes.push(key(scope, x)?)?;
    }
    Ok(codes)
}

/// The data values of an update, in order.
pub fn row(scope: &Scope<'_>, of: &[UpdateValue]) -> Result<Items<ExprCode>, NoMemory>
    ensures { IfOk result (λ c. c ≡ map (λ v. resolved scope.now.db.now scope.now.protocol v.value) of.now) }
{
    let mut codes = Items::new(scope.alloc);
    for x in of {
        codes.push(code_of(scope.alloc, &x.value, scope.db, scope.protocol)?)?;
    }
    Ok(codes)
}
