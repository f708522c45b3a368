ghost use Rattle.std.specs.Prelude.{◌≡◌};
ghost use Rattle.psml_out.specs.Summaries as naming;
ghost use Rattle.psml_out.specs.Summaries.{summaries_of};

use crate::summaries::{Content, Summaries};
use db_model::Packet;
use show::Labelled;
use std::marker::Model;

/// A database with how it sums packets up. Seen as the database.
#[derive(Drop)]
pub struct Summed<'a> {
    labelled: Labelled<'a>,
    summaries: &'a Summaries,
}

impl<'a> Model for Summed<'a> {
    ghost use Rattle.std.specs.Prelude.{◌≡◌};
    ghost use Rattle.db_model.specs.declared.database.Database.{Database};
    ghost use Rattle.db_model.specs.contracts.database.Database as contract;
    ghost use Rattle.psml_out.specs.Summaries.{summaries_of};

    ghost Value = { Database };

    ghost coded = { contract.the_row.coded };

    ghost view = { λ s. s.labelled };

    ghost invariant = { λ s. s.summaries.now ≡ summaries_of s.labelled };
}

impl<'a> Summed<'a> {
    /// The database with its summaries.
    pub fn of(labelled: Labelled<'a>, summaries: &'a Summaries) -> Summed<'a>
        requires { summaries.now ≡ summaries_of labelled }
        ensures { result ≡ labelled.entry }
    {
        Summed {
            labelled,
            summaries,
        }
    }

    /// The database with its labels.
    pub fn labelled(&self) -> &Labelled<'a>
        ensures { result.now ≡ self.now }
    {
        &self.labelled
    }

    /// What the protocol of this number adds to the section of this number.
    pub fn contents_of(&self, protocol: u16, section: usize) -> &[Content]
        ensures { result.now ≡ naming.contents_of (summaries_of self.now) protocol section }
    {
        self.summaries.contents_of(protocol, section)
    }
}

/// What the texts of a packet are made of, beside its tree.
#[derive(Clone, Copy)]
pub struct Source<'a> {
    pub db: &'a Summed<'a>,
    pub packet: &'a Packet,
}
