ghost use Rattle.std.specs.Prelude.{◌≡◌, ◌+◌, ◌<◌, ◌≤◌, min, length, IfOk};
ghost use Rattle.db_model.specs.Table.{masked};

use crate::space::Space;
use db_model::{Bytes, MOST_BYTES, NoMemory};
use std::alloc::Global;
use std::marker::Model;

/// Memory for one value, seen as the number of bytes for which there is room.
#[derive(Drop)]
pub struct Buffer {
    bytes: Vec<u8>,
}

impl Model for Buffer {
    ghost use Rattle.std.specs.Prelude.{ℕ, ◌≡◌, [], vec_capacity};

    ghost Value = { ℕ };

    ghost view = { λ b. vec_capacity b.bytes };

    ghost invariant = { λ b. b.bytes.items ≡ [] };
}

impl Buffer {
    fn new(alloc: Global, width: usize) -> Result<Buffer, NoMemory>
        ensures { IfOk result (λ b. b ≡ width) }
    {
        Ok(Buffer {
            bytes: Vec::with_capacity(alloc, width)?,
        })
    }

    /// The value in this memory.
    pub fn filled(self, value: &Bytes) -> Bytes
        requires { min (length value.now) MOST_BYTES ≤ self }
        ensures { result ≡ value.now }
    {
        let Buffer { mut bytes } = self;
        bytes.extend_from_slice(value.as_slice()).unwrap();
        Bytes::from_vec(bytes)
    }

    /// The bits of the value that the mask keeps, in this memory.
    pub fn filled_masked(self, mask: &Bytes, value: &Bytes) -> Bytes
        requires { length value.now ≤ self }
        ensures { result ≡ masked mask.now value.now }
    {
        let Buffer { mut bytes } = self;
        let bits = mask.as_slice();
        let kept = value.as_slice();
        for i in 0..bits.len().min(kept.len()) {
            bytes.push_reserved(bits[i] & kept[i]);
        }
        Bytes::from_vec(bytes)
    }
}

/// Memory for some values, seen as their number and the bytes for which each has room.
#[derive(Drop)]
pub struct Buffers {
    width: usize,
    list: Vec<Buffer>,
}

impl Model for Buffers {
    ghost use Rattle.std.specs.Prelude.{◌≤◌, length};
    ghost use Rattle.std.specs.List.{All};
    ghost use Rattle.table_list.specs.declared.space.Space.{Space};

    ghost Value = { Space };

    ghost view = { λ b. record { count = length b.list.items; width = b.width } };

    ghost invariant = { λ b. All (λ n. b.width ≤ n) b.list.items };
}

impl Buffers {
    pub fn new(alloc: Global, space: Space) -> Result<Buffers, NoMemory>
        ensures { IfOk result (λ b. b ≡ space) }
    {
        let mut list = Vec::new(alloc);
        for _place in 0..space.count {
            list.push(Buffer::new(alloc, space.width)?)?;
        }
        Ok(Buffers {
            width: space.width,
            list,
        })
    }

    pub fn take(&mut self) -> Buffer
        requires { 0 < self.old.count }
        ensures width { self.new.width ≡ self.old.width }
        ensures count { self.new.count + 1 ≡ self.old.count }
        ensures room { self.old.width ≤ result }
    {
        match self.list.pop() {
            Some(buffer) => buffer,
            None => unreachable!(),
        }
    }
}
