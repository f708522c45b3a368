ghost use Rattle.std.specs.Prelude.{◌≡◌, ◌<◌, ◌≤◌, ◌^◌, min, IfOk, length, take, drop};

use db_model::{NoMemory, Word};
use std::alloc::Global;
use std::marker::Model;

/// An opened input, seen as its name and the bytes that it still holds.
#[derive(Drop)]
pub struct Input {
    name: Word,
    bytes: Vec<u8>,
    /// How many of the bytes were given.
    given: usize,
}

impl Model for Input {
    ghost use Rattle.std.specs.Prelude.{◌≤◌, vec_len, drop};
    ghost use Rattle.npd_host.specs.Named.{Named};

    ghost Value = { Named };

    ghost view = { λ x. record { name = x.name; bytes = drop x.given x.bytes.items } };

    ghost invariant = { λ x. x.given ≤ vec_len x.bytes };
}

impl Input {
    /// An input that holds all of these bytes.
    pub fn copy_of(alloc: Global, name: &str, bytes: &[u8]) -> Result<Input, NoMemory>
        ensures { IfOk result (λ x. x ≡ record { name = name.now; bytes = bytes.now }) }
    {
        Ok(Input {
            name: Word::copy_of(alloc, name)?,
            bytes: Vec::from_slice(alloc, bytes)?,
            given: 0,
        })
    }

    pub fn name(&self) -> &str
        ensures { result.now ≡ self.now.name }
    {
        self.name.as_str()
    }

    /// Gives bytes to the front of `buf`: as many as it holds, `buf` has room for and `most` allows.
    pub fn give(&mut self, most: u32, buf: &mut [u8]) -> usize
        ensures count { result ≡ min (min most (length buf.old)) (length self.old.bytes) }
        ensures front { take result buf.new ≡ take result self.old.bytes }
        ensures rest { self.new ≡ record self.old { bytes = drop result self.old.bytes } }
        ensures bound { length self.old.bytes < 2 ^ 64 }
    {
        let held = &self.bytes[self.given..];
        let count = (most as usize).min(buf.len()).min(held.len());
        buf[..count].copy_from_slice(&held[..count]);
        self.given += count;
        count
    }
}
