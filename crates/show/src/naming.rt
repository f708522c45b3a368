ghost use Rattle.std.specs.Prelude.{◌≡◌, ◌++◌, IfOk, OnOk, codes};
ghost use Rattle.show.specs.Naming;

use crate::markup::{TextForm, push_written};
use crate::text::push;
use db_model::{Bytes, Name, NoMemory};
use std::alloc::Global;
use std::marker::Model;

/// What a field is called and by what it is shown.
#[derive(Drop)]
pub struct FieldNaming {
    pub name: Name,
    pub longname: Option<Bytes>,
    /// The place of its template among the show templates of its database.
    pub template: Option<usize>,
}

/// What a block is called.
#[derive(Drop)]
pub struct BlockNaming {
    pub name: Name,
    pub longname: Option<Bytes>,
}

/// What a field is called, with the beginning of its lines, which is made once.
#[derive(Drop)]
pub struct FieldLabel {
    naming: FieldNaming,
    beginning: Vec<u8>,
}

impl Model for FieldLabel {
    ghost use Rattle.std.specs.Prelude.{◌≡◌, codes};
    ghost use Rattle.show.specs.declared.naming.FieldNaming.{FieldNaming};
    ghost use Rattle.show.specs.contracts.naming.FieldNaming as contract;
    ghost use Rattle.show.specs.Naming.{begun};

    ghost Value = { FieldNaming };

    ghost coded = { contract.the_row.coded };

    ghost view = { λ l. l.naming };

    ghost invariant = { λ l. l.beginning.items ≡ begun (codes "<field") l.naming.name l.naming.longname };
}

/// The same for a block.
#[derive(Drop)]
pub struct BlockLabel {
    naming: BlockNaming,
    beginning: Vec<u8>,
}

impl Model for BlockLabel {
    ghost use Rattle.std.specs.Prelude.{◌≡◌, codes};
    ghost use Rattle.show.specs.declared.naming.BlockNaming.{BlockNaming};
    ghost use Rattle.show.specs.contracts.naming.BlockNaming as contract;
    ghost use Rattle.show.specs.Naming.{begun};

    ghost Value = { BlockNaming };

    ghost coded = { contract.the_row.coded };

    ghost view = { λ l. l.naming };

    ghost invariant = { λ l. l.beginning.items ≡ begun (codes "<block") l.naming.name l.naming.longname };
}

impl FieldLabel {
    pub fn of(alloc: Global, naming: FieldNaming) -> Result<FieldLabel, NoMemory>
        ensures { IfOk result (λ label. label ≡ naming) }
    {
        let beginning = begun_of(alloc, b"<field", naming.name.as_slice(), &naming.longname)?;
        Ok(FieldLabel { naming, beginning })
    }

    pub fn naming(&self) -> &FieldNaming
        ensures { result.now ≡ self.now }
    {
        &self.naming
    }

    /// The beginning of its lines, up to where the position stands.
    pub fn begun(&self) -> &[u8]
        ensures { result.now ≡ Naming.begun (codes "<field") self.now.name self.now.longname }
    {
        self.beginning.as_slice()
    }
}

impl BlockLabel {
    pub fn of(alloc: Global, naming: BlockNaming) -> Result<BlockLabel, NoMemory>
        ensures { IfOk result (λ label. label ≡ naming) }
    {
        let beginning = begun_of(alloc, b"<block", naming.name.as_slice(), &naming.longname)?;
        Ok(BlockLabel { naming, beginning })
    }

    /// The beginning of its lines, up to where the position stands.
    pub fn begun(&self) -> &[u8]
        ensures { result.now ≡ Naming.begun (codes "<block") self.now.name self.now.longname }
    {
        self.beginning.as_slice()
    }
}

/// The beginning of a line with this tag.
#[tactic(auto, unfolding(crate::specs::Naming::begun))]
pub fn begun_of(
    alloc: Global,
    tag: &[u8],
    name: &[u8],
    longname: &Option<Bytes>,
) -> Result<Vec<u8>, NoMemory>
    ensures { IfOk result (λ text. text.items ≡ Naming.begun tag.now name.now longname.now) }
{
    let mut text = Vec::new(alloc);
    push(&mut text, tag)?;
    push_named(&mut text, name, longname)?;
    push(&mut text, b" pos=\"")?;
    Ok(text)
}

fn push_longname(text: &mut Vec<u8>, longname: &Option<Bytes>) -> Result<(), NoMemory>
    ensures { OnOk result (text.new.items ≡ text.old.items ++ Naming.longnamed longname.now) }
{
    match longname {
        Some(longname) => {
            push(text, b" longname=\"")?;
            push_written(text, TextForm::Markup, longname.as_slice())?;
            push(text, b"\"")
        }
        None => Ok(()),
    }
}

/// Adds a name, and a longname right behind it where there is one.
#[tactic(auto, unfolding(crate::specs::Naming::named))]
pub fn push_named(text: &mut Vec<u8>, name: &[u8], longname: &Option<Bytes>) -> Result<(), NoMemory>
    ensures { OnOk result (text.new.items ≡ text.old.items ++ Naming.named name.now longname.now) }
{
    push(text, b" name=\"")?;
    push(text, name)?;
    push(text, b"\"")?;
    push_longname(text, longname)
}
