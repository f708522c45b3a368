ghost use Rattle.std.specs.Prelude.{◌≡◌, ◌<◌, ◌^◌, ◌++◌, IfOk, OnOk, OnErr, length};

use db_model::{NoMemory, Word};
use std::alloc::Global;
use std::marker::Model;

/// Bytes under a name: a file, or an output with what it has taken.
#[derive(Drop)]
pub struct NamedBytes {
    name: Word,
    bytes: Vec<u8>,
}

impl Model for NamedBytes {
    ghost use Rattle.npd_host.specs.Named.{Named};

    ghost Value = { Named };

    ghost view = { λ x. record { name = x.name; bytes = x.bytes.items } };
}

impl NamedBytes {
    pub fn copy_of(alloc: Global, name: &str, bytes: &[u8]) -> Result<NamedBytes, NoMemory>
        ensures { IfOk result (λ x. x ≡ record { name = name.now; bytes = bytes.now }) }
    {
        Ok(NamedBytes {
            name: Word::copy_of(alloc, name)?,
            bytes: Vec::from_slice(alloc, bytes)?,
        })
    }

    pub fn name(&self) -> &str
        ensures { result.now ≡ self.now.name }
    {
        self.name.as_str()
    }

    pub fn bytes(&self) -> &[u8]
        ensures bytes { result.now ≡ self.now.bytes }
        ensures bound { length self.now.bytes < 2 ^ 64 }
    {
        self.bytes.as_slice()
    }

    /// Adds bytes at the end.
    pub fn append(&mut self, bytes: &[u8]) -> Result<(), NoMemory>
        ensures added { OnOk result
            (self.new ≡ record self.old { bytes = self.old.bytes ++ bytes.now }) }
        ensures left { OnErr result (self.new ≡ self.old) }
    {
        self.bytes.extend_from_slice(bytes)?;
        Ok(())
    }
}
