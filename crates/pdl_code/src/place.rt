ghost use Rattle.std.specs.Prelude.{◌≡◌, ◌≤◌, ◌-◌, IfOk};
ghost use Rattle.db_model.specs.Numbering.{none, plus, a_field, a_block};
ghost use Rattle.pdl_code.specs.Parts.{counts};

use db_model::NoMemory;

/// How many fields and blocks of a protocol stand before something, in the order of its text.
#[derive(Clone, Copy, PartialEq, Eq)]
pub struct Place {
    pub fields: u32,
    pub blocks: u32,
}

impl Place {
    pub fn start() -> Place
        ensures { counts result ≡ none }
    {
        Place {
            fields: 0,
            blocks: 0,
        }
    }

    /// NoMemory may come only behind 2^32 fields, which no memory holds. The same for blocks.
    pub fn behind_field(self) -> Result<Place, NoMemory>
        ensures { IfOk result (λ to. counts to ≡ plus (counts self) a_field) }
    {
        match self.fields.checked_add(1) {
            Some(fields) => Ok(Place {
                fields,
                blocks: self.blocks,
            }),
            None => Err(NoMemory),
        }
    }

    pub fn behind_block(self) -> Result<Place, NoMemory>
        ensures { IfOk result (λ to. counts to ≡ plus (counts self) a_block) }
    {
        match self.blocks.checked_add(1) {
            Some(blocks) => Ok(Place {
                fields: self.fields,
                blocks,
            }),
            None => Err(NoMemory),
        }
    }

    /// What stands between two places.
    pub fn since(self, earlier: Place) -> Place
        requires fields { earlier.fields ≤ self.fields }
        requires blocks { earlier.blocks ≤ self.blocks }
        ensures fields { result.fields ≡ self.fields - earlier.fields }
        ensures blocks { result.blocks ≡ self.blocks - earlier.blocks }
    {
        Place {
            fields: self.fields - earlier.fields,
            blocks: self.blocks - earlier.blocks,
        }
    }
}
