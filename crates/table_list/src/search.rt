ghost use Rattle.std.specs.Prelude.{◌≡◌, ◌<◌, ◌&&◌, Some, IfSome, bytes_eq, find, length};
ghost use Rattle.db_model.specs.Table.{if_live, live, masked, masked_by, matches, same_keys, same_place, sooner, soonest};
ghost use Rattle.table_list.specs.Search.{entry_of};

use crate::deadline::is_live;
use db_model::{Bytes, Entry, Keys, Stamp};

/// An entry of a table, by its part and its number there.
#[derive(Clone, Copy)]
pub enum Place {
    Exact(usize),
    Masked(usize),
}

/// The exact entry with these keys, if it lives at the moment.
pub fn live_exact(exact: &[Entry], keys: &Keys, t: Stamp) -> Option<usize>
    ensures within { IfSome result (λ i. i < length exact.now) }
    ensures entry { entry_of exact.now result ≡ if_live t (find (λ e. same_keys keys.now e.keys) exact.now) }
{
    for (i, entry) in exact.iter().enumerate() {
        if *keys == entry.keys {
            return if is_live(entry, t) { Some(i) } else { None };
        }
    }
    None
}

/// The first masked entry that lives at the moment and matches.
pub fn first_match(masked: &[Entry], keys: &Keys, t: Stamp) -> Option<usize>
    ensures within { IfSome result (λ i. i < length masked.now) }
    ensures entry { entry_of masked.now result ≡ find (λ e. live e t && matches e keys.now) masked.now }
{
    for (i, entry) in masked.iter().enumerate() {
        if is_live(entry, t) && is_match(entry, keys) {
            return Some(i);
        }
    }
    None
}

/// The place of the entry with the keys and the masks of this one.
pub fn same_place(part: &[Entry], entry: &Entry) -> Option<usize>
    ensures within { IfSome result (λ i. i < length part.now) }
    ensures entry { entry_of part.now result ≡ find (same_place entry.now) part.now }
{
    for (i, other) in part.iter().enumerate() {
        if entry.keys == other.keys && entry.masks == other.masks {
            return Some(i);
        }
    }
    None
}

/// The least deadline of a part.
pub fn soonest(part: &[Entry]) -> Option<Stamp>
    ensures { result ≡ soonest part.now }
{
    let mut least = None;
    for entry in part {
        least = sooner(least, entry.deadline);
    }
    least
}

fn sooner(a: Option<Stamp>, b: Option<Stamp>) -> Option<Stamp>
    ensures { result ≡ sooner a b }
{
    match (a, b) {
        (Some(a), Some(b)) => Some(a.min(b)),
        (None, b) => b,
        (a, None) => a,
    }
}

/// Whether the keys, masked where the entry has masks, are its own.
fn is_match(entry: &Entry, keys: &Keys) -> bool
    ensures { result ≡ matches entry.now keys.now }
{
    match &entry.masks {
        None => *keys == entry.keys,
        Some(masks) => are_masked(masks.as_slice(), keys.as_slice(), entry.keys.as_slice()),
    }
}

/// Whether the keys are `own` where they are masked.
fn are_masked(masks: &[Bytes], keys: &[Bytes], own: &[Bytes]) -> bool
    ensures { result ≡ same_keys (masked_by (Some masks.now) keys.now) own.now }
{
    if own.len() != masks.len().min(keys.len()) {
        return false;
    }
    for i in 0..own.len() {
        if !is_masked(masks[i].as_slice(), keys[i].as_slice(), own[i].as_slice()) {
            return false;
        }
    }
    true
}

fn is_masked(mask: &[u8], bytes: &[u8], own: &[u8]) -> bool
    ensures { result ≡ bytes_eq (masked mask.now bytes.now) own.now }
{
    if own.len() != mask.len().min(bytes.len()) {
        return false;
    }
    for i in 0..own.len() {
        if mask[i] & bytes[i] != own[i] {
            return false;
        }
    }
    true
}
