ghost use Rattle.std.specs.Prelude.{◌≡◌, ℕ, ◌<◌, ◌++◌, ◌∷◌, [], length, OnOk, OnErr, slice_index, vec_len};
ghost use Rattle.db_model.specs.LastValue.{KeepsLast, has_number, last_place, place_of};

use crate::{Bytes, NoMemory};
use std::alloc::Global;
use std::marker::Model;

/// For so many numbers more than are asked for is room made at once.
const SPARE_NUMBERS: usize = 64;

/// So many values have places that can be kept. No packet has as many fields.
const MOST_VALUES: usize = u32::MAX as usize;

/// The decoded fields of a protocol in order, seen as the list of their numbers and values. It knows where the last
/// value of the field of each number stands, so that none is looked for.
#[derive(Drop)]
pub struct FieldValues {
    values: Vec<(u32, Bytes)>,
    /// For each number 1 + the place of the last value of its field, 0 where it has none.
    last: Vec<u32>,
}

impl Model for FieldValues {
    ghost use Rattle.std.specs.Prelude.{List, ℕ};
    ghost use Rattle.db_model.specs.LastValue.{KeepsLast};

    ghost Value = { List (ℕ × List ℕ) };

    ghost view = { λ f. f.values.items };

    ghost invariant = { λ f. KeepsLast f.values.items f.last.items };
}

/// What is kept of a number.
fn kept(last: &[u32], number: usize) -> u32
    ensures { result ≡ slice_index last.now number }
{
    if number < last.len() { last[number] } else { 0 }
}

fn place_of(kept: u32) -> Option<usize>
    ensures { result ≡ place_of kept }
{
    if kept == 0 {
        None
    } else {
        Some(kept as usize - 1)
    }
}

/// Makes room for a number, of which nothing is kept then.
fn make_room(last: &mut Vec<u32>, number: usize) -> Result<(), NoMemory>
    ensures same { (n : ℕ) → slice_index last.new.items n ≡ slice_index last.old.items n }
    ensures room { OnOk result (number < vec_len last.new) }
{
    if last.len() <= number {
        last.resize(number.saturating_add(SPARE_NUMBERS), 0)?;
    }
    Ok(())
}

/// Keeps nothing of the numbers of these values.
fn forget(last: &mut [u32], values: &[(u32, Bytes)])
    requires { KeepsLast values.now last.old }
    ensures { KeepsLast [] last.new }
{
    for (number, _value) in values {
        let number = *number as usize;
        if number < last.len() {
            last[number] = 0;
        }
    }
}

impl FieldValues {
    /// Takes no memory.
    pub fn new(alloc: Global) -> FieldValues
        ensures { result ≡ [] }
    {
        FieldValues {
            values: Vec::new(alloc),
            last: Vec::new(alloc),
        }
    }

    /// No values yet, with room for so many, or without room where the memory for it is refused.
    pub fn with_room(alloc: Global, count: usize) -> FieldValues
        ensures { result ≡ [] }
    {
        let values = match Vec::with_capacity(alloc, count) {
            Ok(values) => values,
            Err(_) => Vec::new(alloc),
        };
        FieldValues {
            values,
            last: Vec::new(alloc),
        }
    }

    pub fn as_slice(&self) -> &[(u32, Bytes)]
        ensures { result.now ≡ self.now }
    {
        self.values.as_slice()
    }

    /// Adds the value of the field of this number.
    pub fn push(&mut self, number: u32, value: Bytes) -> Result<(), NoMemory>
        ensures pushed { OnOk result (self.new ≡ self.old ++ (number, value) ∷ []) }
        ensures unchanged { OnErr result (self.new ≡ self.old) }
    {
        let count = self.values.len();
        if count >= MOST_VALUES {
            return Err(NoMemory);
        }
        make_room(&mut self.last, number as usize)?;
        self.values.push((number, value))?;
        self.last[number as usize] = count as u32 + 1;
        Ok(())
    }

    /// The place of the last value of the field of this number.
    pub fn last(&self, number: u32) -> Option<usize>
        ensures { result ≡ last_place number self.now }
    {
        place_of(kept(self.last.as_slice(), number as usize))
    }

    /// Whether the field of this number has a value.
    pub fn is_present(&self, number: u32) -> bool
        ensures { result ≡ has_number number self.now }
    {
        kept(self.last.as_slice(), number as usize) != 0
    }

    /// Keeps the room. Takes no memory.
    pub fn clear(&mut self)
        ensures { self.new ≡ [] }
    {
        forget(self.last.as_mut_slice(), self.values.as_slice());
        self.values.clear();
    }
}
