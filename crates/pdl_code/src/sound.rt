ghost use Rattle.std.specs.Prelude.{◌≡◌, ◌<◌, ◌^◌, length};
ghost use Rattle.pdl_code.specs.Sound.{IsSound};

use db_model::{CaseRange, FieldKind};
use sqlite_items::Items;
use std::marker::Model;

/// The kind of a field as it may be declared: a bit field has 1 to 4 bytes and a mask other than 0, and an
/// alignment isn't 0. Seen as the kind itself.
#[derive(Drop)]
pub struct SoundKind {
    kind: FieldKind,
}

impl Model for SoundKind {
    ghost use Rattle.db_model.specs.declared.field_kind.FieldKind.{FieldKind};
    ghost use Rattle.db_model.specs.contracts.field_kind.FieldKind as contract;
    ghost use Rattle.pdl_code.specs.Sound.{IsSound};

    ghost Value = { FieldKind };

    ghost coded = { contract.the_row.coded };

    ghost view = { λ s. s.kind };

    ghost invariant = { λ s. IsSound s.kind };
}

impl SoundKind {
    /// Takes no memory.
    pub fn of(kind: FieldKind) -> SoundKind
        requires { IsSound kind }
        ensures { result ≡ kind }
    {
        SoundKind { kind }
    }

    pub fn get(&self) -> &FieldKind
        ensures kind { result.now ≡ self.now }
        ensures sound { IsSound self.now }
    {
        &self.kind
    }
}

/// The ranges of the cases of a switch, in order: fewer than 2^32. Seen as their list.
#[derive(Drop)]
pub struct Ranges {
    ranges: Items<CaseRange>,
}

impl Model for Ranges {
    ghost use Rattle.std.specs.Coded.{coded_list};
    ghost use Rattle.std.specs.Prelude.{List, ◌<◌, ◌^◌, length};
    ghost use Rattle.db_model.specs.declared.field_kind.CaseRange.{CaseRange};
    ghost use Rattle.db_model.specs.contracts.field_kind.CaseRange as contract;

    ghost Value = { List CaseRange };

    ghost coded = { coded_list contract.the_row.coded };

    ghost view = { λ r. r.ranges };

    ghost invariant = { λ r. length r.ranges < 2 ^ 32 };
}

impl Ranges {
    /// Takes no memory.
    pub fn of(ranges: Items<CaseRange>) -> Ranges
        requires { length ranges < 2 ^ 32 }
        ensures { result ≡ ranges }
    {
        Ranges { ranges }
    }

    pub fn as_slice(&self) -> &[CaseRange]
        ensures ranges { result.now ≡ self.now }
        ensures few { length self.now < 2 ^ 32 }
    {
        self.ranges.as_slice()
    }
}
