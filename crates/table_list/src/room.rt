ghost use Rattle.std.specs.Prelude.{◌≡◌, ◌+◌, ◌<◌, ◌≤◌, Some, IfOk, IfSome};
ghost use Rattle.db_model.specs.Table.{masked_by};
ghost use Rattle.table_list.specs.Space.{HoldsKeys, HoldsRow, IsShort};

use crate::buffer::Buffers;
use crate::space::Space;
use db_model::{Bytes, Keys, NoMemory, Row, Value};
use std::alloc::Global;
use std::marker::Model;

/// Memory for a list of values, seen as their number and the bytes for which each has room.
#[derive(Drop)]
pub struct Room<T> {
    list: Vec<T>,
    buffers: Buffers,
}

impl<T> Model for Room<T> {
    ghost use Rattle.std.specs.Prelude.{◌≡◌, ◌≤◌, [], vec_capacity};
    ghost use Rattle.table_list.specs.declared.space.Space.{Space};

    ghost Value = { Space };

    ghost view = { λ r. r.buffers };

    ghost invariant = { λ r. (r.list.items ≡ []) × (r.buffers.count ≤ vec_capacity r.list) };
}

impl<T> Room<T> {
    pub fn new(alloc: Global, space: Space) -> Result<Room<T>, NoMemory>
        ensures { IfOk result (λ r. r ≡ space) }
    {
        let buffers = Buffers::new(alloc, space)?;
        Ok(Room {
            list: Vec::with_capacity(alloc, space.count)?,
            buffers,
        })
    }
}

impl Room<Bytes> {
    /// The keys in this memory.
    pub fn filled(self, keys: &[Bytes]) -> Keys
        requires { HoldsKeys self keys.now }
        ensures { result ≡ keys.now }
    {
        let Room {
            mut list,
            mut buffers,
        } = self;
        for key in keys {
            list.push_reserved(buffers.take().filled(key));
        }
        Keys::from_vec(list)
    }

    /// The bits of the keys that the masks keep, in this memory.
    pub fn filled_masked(self, masks: &[Bytes], keys: &[Bytes]) -> Keys
        requires { HoldsKeys self keys.now }
        ensures { result ≡ masked_by (Some masks.now) keys.now }
    {
        let Room {
            mut list,
            mut buffers,
        } = self;
        for i in 0..masks.len().min(keys.len()) {
            list.push_reserved(buffers.take().filled_masked(&masks[i], &keys[i]));
        }
        Keys::from_vec(list)
    }

    /// The keys as an entry with these masks keeps them, in this memory.
    pub fn filled_by(self, masks: &Option<Keys>, keys: &Keys) -> Keys
        requires { HoldsKeys self keys.now }
        ensures { result ≡ masked_by masks.now keys.now }
    {
        match masks {
            None => self.filled(keys.as_slice()),
            Some(masks) => self.filled_masked(masks.as_slice(), keys.as_slice()),
        }
    }

    /// The masks in this memory, where there are some.
    pub fn filled_if(self, masks: &Option<Keys>) -> Option<Keys>
        requires { IfSome masks.now (HoldsKeys self) }
        ensures { result ≡ masks.now }
    {
        match masks {
            None => None,
            Some(masks) => Some(self.filled(masks.as_slice())),
        }
    }
}

impl Room<Value> {
    /// The row in this memory.
    pub fn filled_row(self, row: &[Value]) -> Row
        requires { HoldsRow self row.now }
        ensures { result ≡ row.now }
    {
        let Room {
            mut list,
            mut buffers,
        } = self;
        for value in row {
            list.push_reserved(value_in(&mut buffers, value));
        }
        Row::from_vec(list)
    }
}

fn value_in(buffers: &mut Buffers, value: &Value) -> Value
    requires some { 0 < buffers.old.count }
    requires short { IsShort buffers.old.width value.now }
    ensures value { result ≡ value.now }
    ensures width { buffers.new.width ≡ buffers.old.width }
    ensures count { buffers.old.count ≤ buffers.new.count + 1 }
{
    match value {
        Value::Num(n) => Value::Num(*n),
        Value::Buf(bytes) => Value::Buf(buffers.take().filled(bytes)),
        Value::Proto(number) => Value::Proto(*number),
    }
}
