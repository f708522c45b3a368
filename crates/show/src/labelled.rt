ghost use Rattle.std.specs.Prelude.{◌≡◌, ◌++◌, OnOk};
ghost use Rattle.std.specs.Option.{option_copied};
ghost use Rattle.show.specs.Labels as naming;
ghost use Rattle.show.specs.Labels.{block_at, field_at, field_shown, labels_of, line_at};
ghost use Rattle.show.specs.Markup.{written};
ghost use Rattle.show.specs.Shown.{IsShowable};

use crate::labels::{Labels, template_of};
use crate::markup::TextForm;
use crate::naming::{BlockLabel, FieldLabel};
use crate::value::push_shown;
use db_model::{CheckedDb, NoMemory, ShowTemplate};
use std::marker::Model;

/// A database with what it calls its fields and blocks. Seen as the database.
#[derive(Drop)]
pub struct Labelled<'a> {
    db: &'a CheckedDb,
    labels: &'a Labels,
}

impl<'a> Model for Labelled<'a> {
    ghost use Rattle.std.specs.Prelude.{◌≡◌};
    ghost use Rattle.db_model.specs.declared.database.Database.{Database};
    ghost use Rattle.db_model.specs.contracts.database.Database as contract;
    ghost use Rattle.show.specs.Labels.{labels_of};

    ghost Value = { Database };

    ghost coded = { contract.the_row.coded };

    ghost view = { λ l. l.db.now };

    ghost invariant = { λ l. l.labels.now ≡ labels_of l.db.now };
}

impl<'a> Labelled<'a> {
    /// The database with its labels.
    pub fn of(db: &'a CheckedDb, labels: &'a Labels) -> Labelled<'a>
        requires { labels.now ≡ labels_of db.now }
        ensures { result ≡ db.now }
    {
        Labelled { db, labels }
    }

    pub fn database(&self) -> &CheckedDb
        ensures { result.now ≡ self.now }
    {
        self.db
    }

    /// How the line of the protocol of this number begins, up to where the position stands.
    pub fn line(&self, protocol: u16) -> &[u8]
        ensures { result.now ≡ line_at (labels_of self.now) protocol }
    {
        self.labels.line(protocol)
    }

    /// The label of the field of this number in the protocol of this number, None where there is no such field.
    pub fn field(&self, protocol: u16, number: u32) -> Option<&FieldLabel>
        ensures { option_copied result ≡ field_at (labels_of self.now) protocol number }
    {
        self.labels.field(protocol, number)
    }

    /// The same for blocks.
    pub fn block(&self, protocol: u16, number: u32) -> Option<&BlockLabel>
        ensures { option_copied result ≡ block_at (labels_of self.now) protocol number }
    {
        self.labels.block(protocol, number)
    }

    /// The template by which a field of this label is shown, None where it is shown in plain hex.
    pub fn template_of(&self, label: Option<&FieldLabel>) -> Option<&'a ShowTemplate>
        ensures template { option_copied result ≡ naming.template_of self.now (option_copied label.entry) }
        ensures showable { IsShowable (option_copied result) }
    {
        template_of(self.db, label)
    }
}

/// Adds the value of a field of this label as it is shown.
pub fn push_field_shown(
    text: &mut Vec<u8>,
    form: TextForm,
    db: &Labelled,
    label: Option<&FieldLabel>,
    value: &[u8],
) -> Result<(), NoMemory>
    ensures { OnOk result (text.new.items ≡
        text.old.items ++ written form (field_shown db.now (option_copied label.entry) value.now)) }
{
    push_shown(text, form, db.template_of(label), value)
}
