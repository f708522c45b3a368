ghost use Rattle.std.specs.Prelude.{◌≡◌, IfOk, is_some, map, replicate, unwrap_or};
ghost use Rattle.std.specs.List.{list_any};
ghost use Rattle.db_model.specs.Elements.{filled, masks_of};

use db_model::{Bytes, KeyDecl, Keys, MOST_BYTES, NoMemory};
use pdl_code::KeyCode;
use std::alloc::Global;

/// The masks of keys, where one of them has one.
pub fn masks(alloc: Global, sizes: &[KeyDecl], keys: &[KeyCode]) -> Result<Option<Keys>, NoMemory>
    ensures { IfOk result (λ m. m ≡ masks_of (map (λ k. k.size) sizes.now) (map (λ k. k.mask) keys.now)) }
{
    if has_mask(keys) {
        Ok(Some(fill(alloc, sizes, keys)?))
    } else {
        Ok(None)
    }
}

fn has_mask(keys: &[KeyCode]) -> bool
    ensures { result ≡ list_any is_some (map (λ k. k.mask) keys.now) }
{
    for key in keys {
        if key.mask.is_some() {
            return true;
        }
    }
    false
}

/// One mask for each size, as long as there are keys: a key that has none keeps all bits.
fn fill(alloc: Global, sizes: &[KeyDecl], keys: &[KeyCode]) -> Result<Keys, NoMemory>
    ensures { IfOk result (λ m. m ≡ filled (map (λ k. k.size) sizes.now) (map (λ k. k.mask) keys.now)) }
{
    let mut masks = Keys::new(alloc);
    for (i, size) in sizes.iter().enumerate() {
        match sqlite_items::at(keys, i) {
            Some(key) => masks.push(mask(alloc, size.size, &key.mask)?)?,
            None => return Ok(masks),
        }
    }
    Ok(masks)
}

/// A mask of a key of this size. NoMemory comes also for a size of more bytes than bytes can be, which no
/// checked database has.
fn mask(alloc: Global, size: u32, mask: &Option<Bytes>) -> Result<Bytes, NoMemory>
    ensures { IfOk result (λ m. m ≡ unwrap_or mask.now (replicate size 255)) }
{
    match mask {
        Some(bytes) => Ok(bytes.clone()?),
        None => all_bits(alloc, size),
    }
}

fn all_bits(alloc: Global, size: u32) -> Result<Bytes, NoMemory>
    ensures { IfOk result (λ m. m ≡ replicate size 255) }
{
    if size as usize > MOST_BYTES {
        return Err(NoMemory);
    }
    Ok(Bytes::from_vec(vec![in alloc; 255; size as usize]?))
}
