ghost use Rattle.std.specs.Prelude.{◌≡◌};
ghost use Rattle.db_model.specs.NameFaults.{block_names};
ghost use Rattle.db_model.specs.Names.{place};
ghost use Rattle.db_check.specs.Home.{IsHome};

use db_model::{Database, NameIndex, Protocol};

/// A protocol of a database, in which a block is found by its name.
#[derive(Clone, Copy)]
pub struct Home<'a> {
    pub database: &'a Database,
    pub names: &'a NameIndex,
    pub number: usize,
    /// That of the number.
    pub protocol: &'a Protocol,
}

impl Home<'_> {
    /// The number of the first block of this name, or how many there are where none has it.
    pub fn block_at(&self, name: &[u8]) -> usize
        requires { IsHome self.now }
        ensures { result ≡ place name.now (block_names self.now.protocol.now) }
    {
        self.names.block_at(self.database, self.number, name)
    }
}
