//! Masks in values.

ghost use Rattle.std.specs.Prelude.{◌≡◌, option_map, take, IfOk, Some};
ghost use Rattle.db_load.specs.Forms;

use db_model::{Bytes, MOST_BYTES, NoMemory};
use hex::FromHexError;
use std::alloc::Global;

/// What stands behind a `0x`.
fn behind_0x(text: &[u8]) -> Option<&[u8]>
    ensures { option_map (λ ds. ds.now) result ≡ Forms.behind_0x text.now }
{
    match text {
        [b'0', b'x', digits @ ..] => Some(digits),
        _ => None,
    }
}

fn first_bytes(mut bytes: Vec<u8>) -> Bytes
    ensures { result ≡ take MOST_BYTES bytes.items }
{
    bytes.truncate(MOST_BYTES);
    Bytes::from_vec(bytes)
}

/// The bytes that hex digits are, two digits a byte.
fn mask_in(alloc: Global, digits: &[u8]) -> Result<Option<Bytes>, NoMemory>
    ensures { IfOk result (λ m. m ≡ Forms.mask_in (Some digits.now)) }
{
    if digits.len() == 0 {
        return Ok(None);
    }
    match hex::decode(alloc, digits) {
        Ok(bytes) => Ok(Some(first_bytes(bytes))),
        Err(FromHexError::OutOfMemory) => Err(NoMemory),
        Err(_) => Ok(None),
    }
}

/// The bytes of a mask, which is `0x` and two hex digits a byte, of which there is at least one.
#[tactic(auto, unfolding(crate::specs::Forms::mask_of))]
pub fn mask_of(alloc: Global, text: &[u8]) -> Result<Option<Bytes>, NoMemory>
    ensures { IfOk result (λ m. m ≡ Forms.mask_of text.now) }
{
    match behind_0x(text) {
        Some(digits) => mask_in(alloc, digits),
        None => Ok(None),
    }
}
