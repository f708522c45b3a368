ghost use Rattle.std.specs.Prelude.{◌≤◌, IfSome, length};

use crate::files::streams::read_some;
use db_model::NoMemory;
use std::alloc::Global;
use std::io::Read;

/// What was read ahead of what was given, so that small reads cost no system call each.
#[derive(Drop)]
pub struct ReadAhead {
    bytes: Vec<u8>,
    /// How many of the bytes were given, and how many were read.
    given: usize,
    read: usize,
}

impl ReadAhead {
    /// Room for so many bytes.
    pub fn new(alloc: Global, room: usize) -> Result<ReadAhead, NoMemory> {
        match vec![in alloc; 0u8; room] {
            Ok(bytes) => Ok(ReadAhead {
                bytes,
                given: 0,
                read: 0,
            }),
            Err(_) => Err(NoMemory),
        }
    }

    /// Reads into the front of `buf` what was read ahead, or else what the stream gives in one read, and says how
    /// many bytes. None: that read failed.
    pub fn read<S: Read>(&mut self, from: &mut S, buf: &mut [u8]) -> Option<usize>
        ensures { IfSome result (λ n. n ≤ length buf.new) }
    {
        if self.left().is_empty() {
            if buf.len() >= self.bytes.len() {
                return read_some(from, buf);
            }
            let count = read_some(from, self.bytes.as_mut_slice())?;
            self.given = 0;
            self.read = count;
        }
        let left = self.left();
        let count = left.len().min(buf.len());
        buf[..count].copy_from_slice(&left[..count]);
        self.given = self.given.saturating_add(count);
        Some(count)
    }

    /// The bytes that were read and not yet given.
    fn left(&self) -> &[u8] {
        let read = self.read.min(self.bytes.len());
        let given = self.given.min(read);
        &self.bytes[given..read]
    }
}
