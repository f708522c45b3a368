ghost use Rattle.std.specs.Prelude.{◌≡◌, ◌+◌, ◌<◌, ◌≤◌, ◌++◌, ◌∷◌, [], if◌then◌else◌, nat_lt, remove, length, vec_len, vec_capacity, IfOk, MatchOption};
ghost use Rattle.db_model.specs.Kept.{IsApart};
ghost use Rattle.db_model.specs.Table.{evict, put_in, put_in_full, soonest};

use crate::{entry, search};
use db_model::{Entry, NoMemory, Stamp};
use std::alloc::Global;

/// Puts an entry into a part that holds at most `limit` of them: in the place of the one with its keys and masks,
/// else last, where another may have to go.
pub fn put(part: &mut Vec<Entry>, limit: u32, entry: Entry)
    requires apart { IsApart part.old.items }
    requires room { vec_len part.old < vec_capacity part.old }
    ensures items { part.new.items ≡ put_in limit entry part.old.items }
    ensures len { vec_len part.new ≤ vec_len part.old + 1 }
    ensures capacity { vec_capacity part.new ≡ vec_capacity part.old }
{
    match search::same_place(part, &entry) {
        Some(at) => part[at] = entry,
        None => put_last(part, limit, entry),
    }
}

fn put_last(part: &mut Vec<Entry>, limit: u32, entry: Entry)
    requires { vec_len part.old < vec_capacity part.old }
    ensures items { part.new.items ≡ (if nat_lt (length part.old.items) limit then part.old.items
        ++ entry ∷ [] else put_in_full (soonest part.old.items) entry part.old.items) }
    ensures len { vec_len part.new ≤ vec_len part.old + 1 }
    ensures capacity { vec_capacity part.new ≡ vec_capacity part.old }
{
    if part.len() < limit as usize {
        part.push_reserved(entry);
    } else if let Some(deadline) = search::soonest(part) {
        evict(part, deadline);
        part.push_reserved(entry);
    }
}

/// Removes the first entry that has this deadline.
fn evict(part: &mut Vec<Entry>, deadline: Stamp)
    ensures items { part.new.items ≡ evict deadline part.old.items }
    ensures len { vec_len part.new ≤ vec_len part.old }
    ensures capacity { vec_capacity part.new ≡ vec_capacity part.old }
{
    if let Some(at) = first_due(part, deadline) {
        part.remove(at);
    }
}

fn first_due(part: &[Entry], deadline: Stamp) -> Option<usize>
    ensures { MatchOption result (evict deadline part.now ≡ part.now) (λ at. (at < length part.now)
        × (evict deadline part.now ≡ remove part.now at)) }
{
    for (i, entry) in part.iter().enumerate() {
        if entry.deadline == Some(deadline) {
            return Some(i);
        }
    }
    None
}

pub fn copied(alloc: Global, part: &[Entry]) -> Result<Vec<Entry>, NoMemory>
    ensures { IfOk result (λ es. es.items ≡ part.now) }
{
    let mut entries = Vec::new(alloc);
    for entry in part {
        entries.push(entry::copied(entry)?)?;
    }
    Ok(entries)
}
