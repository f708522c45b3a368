ghost use Rattle.std.specs.Prelude.{◌≡◌};
ghost use Rattle.db_model.specs.NameFaults.{block_names, is_template};
ghost use Rattle.db_model.specs.Numbering.{blocks_in};
ghost use Rattle.db_model.specs.Typing.{is_among};
ghost use Rattle.db_check.specs.Around.{IsAround};

use crate::parts::named_blocks;
use db_model::{Places, Protocol};
use expr_type::Scope;

/// What an element of a protocol may name.
#[derive(Clone, Copy)]
pub struct Around<'a, 'f> {
    /// What its expressions may name.
    pub scope: Scope<'a, 'f>,
    /// The places of the show templates.
    pub shows: &'a Places,
    /// The number of the protocol.
    pub number: usize,
    pub protocol: &'a Protocol,
}

impl Around<'_, '_> {
    pub fn has_template(&self, name: &[u8]) -> bool
        requires { IsAround self.now }
        ensures { result ≡ is_template self.now.scope.database.now self.now.scope.fields.now
            (block_names self.now.protocol.now) name.now }
    {
        let count = self.scope.database.show_templates.as_slice().len();
        self.shows.place_of(name, count) < count
    }

    pub fn has_block(&self, name: &[u8]) -> bool
        requires { IsAround self.now }
        ensures { result ≡ is_among name.now (block_names self.now.protocol.now) }
    {
        let place = self
            .scope
            .names
            .block_at(self.scope.database, self.number, name);
        place < named_blocks(self.protocol).len()
    }
}
