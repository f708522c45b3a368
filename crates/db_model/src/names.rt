ghost use Rattle.std.specs.Prelude.{◌≡◌, ◌<◌, ◌≤◌, length, IfOk, vec_len, string_bytes};

use crate::NoMemory;
use std::alloc::Global;
use std::marker::Model;

/// The most bytes that a `Name` has.
pub const MOST_NAME: usize = 64;

/// A declared name: 1 to `MOST_NAME` bytes, seen as their list.
#[derive(Drop)]
pub struct Name {
    text: Vec<u8>,
}

impl Model for Name {
    ghost use Rattle.std.specs.Prelude.{List, ℕ, ◌<◌, ◌≤◌, length};

    ghost Value = { List ℕ };

    ghost view = { λ n. n.text.items };

    ghost invariant = { λ n. (0 < length n.text.items) × (length n.text.items ≤ 64) };
}

impl Name {
    pub fn copy_of(alloc: Global, text: &[u8]) -> Result<Name, NoMemory>
        requires not_empty { 0 < length text.now }
        requires bound { length text.now ≤ MOST_NAME }
        ensures { IfOk result (λ n. n ≡ text.now) }
    {
        Ok(Name {
            text: Vec::from_slice(alloc, text)?,
        })
    }

    pub fn as_slice(&self) -> &[u8]
        ensures bytes { result.now ≡ self.now }
        ensures not_empty { 0 < length self.now }
        ensures bound { length self.now ≤ MOST_NAME }
    {
        self.text.as_slice()
    }
}

/// One word of a command line, kept as its own text and seen as its bytes.
#[derive(Drop)]
pub struct Word {
    text: String,
}

impl Model for Word {
    ghost use Rattle.std.specs.Prelude.{List, ℕ, string_bytes};

    ghost Value = { List ℕ };

    ghost view = { λ w. string_bytes w.text };
}

impl Word {
    pub fn copy_of(alloc: Global, text: &str) -> Result<Word, NoMemory>
        ensures { IfOk result (λ w. w ≡ text.now) }
    {
        Ok(Word {
            text: String::from_str(alloc, text)?,
        })
    }

    /// Takes no memory.
    pub fn as_str(&self) -> &str
        ensures { result.now ≡ self.now }
    {
        self.text.as_str()
    }
}
