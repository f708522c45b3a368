//! Updates that don't fit their table.

ghost use Rattle.std.specs.Prelude.{◌≡◌, map, is_some};
ghost use Rattle.std.specs.List.{list_any};
ghost use Rattle.std.specs.Option.{option_copied};
ghost use Rattle.db_model.specs.Expression.{key_sizes};
ghost use Rattle.db_model.specs.TypeFaults;
ghost use Rattle.db_model.specs.Typing;
ghost use Rattle.db_model.specs.declared.element.UpdateKey.{UpdateKey};

use db_model::{Bytes, ColumnDecl, KeyDecl, TableDecl, UpdateKey, UpdateValue, Validity};

pub fn columns_of(table: Option<&TableDecl>) -> &[ColumnDecl]
    ensures { result.now ≡ Typing.columns_in (option_copied table.entry) }
{
    match table {
        None => &[],
        Some(declared) => declared.columns.as_slice(),
    }
}

fn has_keys(table: Option<&TableDecl>, count: usize) -> bool
    ensures { result ≡ Typing.has_keys (option_copied table.entry) count }
{
    match table {
        None => true,
        Some(declared) => declared.keys.as_slice().len() == count,
    }
}

fn other_columns(table: Option<&TableDecl>, count: usize) -> bool
    ensures { result ≡ TypeFaults.other_columns (option_copied table.entry) count }
{
    match table {
        None => false,
        Some(declared) => declared.columns.as_slice().len() != count,
    }
}

fn other_length(size: u32, mask: &Option<Bytes>) -> bool
    ensures { result ≡ TypeFaults.other_length size mask.now }
{
    match mask {
        None => false,
        Some(mask) => mask.as_slice().len() != size as usize,
    }
}

fn masks_differ(table: Option<&TableDecl>, keys: &[UpdateKey]) -> bool
    ensures { result ≡ TypeFaults.masks_differ (key_sizes (option_copied table.entry)) keys.now }
{
    match table {
        None => false,
        Some(declared) => differ_from(declared.keys.as_slice(), keys),
    }
}

fn differ_from(declared: &[KeyDecl], keys: &[UpdateKey]) -> bool
    ensures { result ≡ TypeFaults.masks_differ (map (λ k. k.size) declared.now) keys.now }
{
    for (i, key) in declared.iter().enumerate() {
        match keys.get(i) {
            None => return false,
            Some(given) => {
                if other_length(key.size, &given.mask) {
                    return true;
                }
            }
        }
    }
    false
}

fn has_mask(keys: &[UpdateKey]) -> bool
    ensures { result ≡ list_any (λ (k : UpdateKey). is_some k.mask) keys.now }
{
    for key in keys {
        if key.mask.is_some() {
            return true;
        }
    }
    false
}

/// Whether the times aren't those that the kind of entry wants.
fn misses_times(validity: Validity, keep: bool, hit: bool, mask: bool) -> bool
    ensures { result ≡ TypeFaults.misses_times validity keep hit mask }
{
    match validity {
        Validity::Forever => keep || hit,
        Validity::MaxTime => !keep || hit,
        Validity::UpdateOnHit => !(keep && hit),
        Validity::AddOnHit => keep || !hit || !mask,
    }
}

/// Whether an update doesn't fit its table, where that is declared.
pub fn update_misses(
    table: Option<&TableDecl>,
    validity: Validity,
    keep: Option<u32>,
    hit: Option<u32>,
    keys: &[UpdateKey],
    row: &[UpdateValue],
) -> bool
    ensures { result ≡ TypeFaults.update_misses (option_copied table.entry) validity keep hit keys.now row.now }
{
    let misses = misses_times(validity, keep.is_some(), hit.is_some(), has_mask(keys));
    !has_keys(table, keys.len())
        || other_columns(table, row.len())
        || masks_differ(table, keys)
        || misses
}
