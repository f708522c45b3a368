ghost use Rattle.std.specs.Prelude.{◌≡◌, IfOk};
ghost use Rattle.std.specs.Option.{option_copied};
ghost use Rattle.show.specs.Labels.{block_at, field_at, labels_of, line_at};
ghost use Rattle.show.specs.Labels as naming;
ghost use Rattle.show.specs.Shown.{IsShowable};

use crate::label_walk::protocol_labels;
use crate::naming::{BlockLabel, FieldLabel};
use db_model::{Bytes64, CheckedDb, NoMemory, Sequence, ShowTemplate};
use std::alloc::Global;
use std::marker::Model;

/// How the line of a protocol begins, and the labels of its fields and of its blocks, by their numbers.
#[derive(Drop)]
pub struct ProtocolLabels {
    pub line: Bytes64,
    pub fields: Sequence<FieldLabel>,
    pub blocks: Sequence<BlockLabel>,
}

/// What a database calls the fields and blocks of each of its protocols, so that no output walks over declarations.
#[derive(Drop)]
pub struct Labels {
    protocols: Sequence<ProtocolLabels>,
}

impl Model for Labels {
    ghost use Rattle.std.specs.Prelude.{List};
    ghost use Rattle.std.specs.Coded.{coded_list};
    ghost use Rattle.show.specs.declared.labels.ProtocolLabels.{ProtocolLabels};
    ghost use Rattle.show.specs.contracts.labels.ProtocolLabels as contract;

    ghost Value = { List ProtocolLabels };

    ghost coded = { coded_list contract.the_row.coded };

    ghost view = { λ l. l.protocols };
}

/// What threads may share.
trait Shared: Send + Sync {}

impl Shared for Labels {}

impl Labels {
    pub fn of(alloc: Global, db: &CheckedDb) -> Result<Labels, NoMemory>
        ensures { IfOk result (λ labels. labels ≡ labels_of db.now) }
    {
        let database = db.database();
        let mut protocols = Sequence::new(alloc);
        for protocol in database.protocols.as_slice() {
            let templates = database.show_templates.as_slice();
            protocols.push(protocol_labels(alloc, templates, protocol)?)?;
        }
        Ok(Labels { protocols })
    }

    /// How the line of the protocol of this number begins, up to where the position stands.
    #[tactic(auto, unfolding(crate::specs::Naming::begun, crate::specs::Naming::named))]
    pub fn line(&self, protocol: u16) -> &[u8]
        ensures { result.now ≡ line_at self.now protocol }
    {
        match self.protocols.get(protocol as usize) {
            Some(labels) => labels.line.as_slice(),
            None => b"<proto name=\"\" pos=\"",
        }
    }

    /// The label of the field of this number in the protocol of this number, None where there is no such field.
    pub fn field(&self, protocol: u16, number: u32) -> Option<&FieldLabel>
        ensures { option_copied result ≡ field_at self.now protocol number }
    {
        match self.protocols.get(protocol as usize) {
            Some(labels) => labels.fields.get(number as usize),
            None => None,
        }
    }

    /// The same for blocks.
    pub fn block(&self, protocol: u16, number: u32) -> Option<&BlockLabel>
        ensures { option_copied result ≡ block_at self.now protocol number }
    {
        match self.protocols.get(protocol as usize) {
            Some(labels) => labels.blocks.get(number as usize),
            None => None,
        }
    }
}

/// The template by which a field of this label is shown, None where it is shown in plain hex.
pub fn template_of<'a>(db: &'a CheckedDb, label: Option<&FieldLabel>) -> Option<&'a ShowTemplate>
    ensures template { option_copied result ≡ naming.template_of db.now (option_copied label.entry) }
    ensures showable { IsShowable (option_copied result) }
{
    match label {
        Some(label) => match label.naming().template {
            Some(place) => db.database().show_templates.get(place),
            None => None,
        },
        None => None,
    }
}
