ghost use Rattle.std.specs.Prelude.{◌≡◌, map, slice_get, Some, IfOk};
ghost use Rattle.db_model.specs.Forms.{if_there};
ghost use Rattle.db_model.specs.Lines.{over};
ghost use Rattle.db_model.specs.Typing.{is_among, is_protocol};
ghost use Rattle.db_check.specs.First.{first};
ghost use Rattle.db_model.specs.NameIndex.{IsPlaces};
ghost use Rattle.db_check.specs.Known.{IsKnown, lines_by, lacks_summary, summary_fails, protocol_lines};
ghost use Rattle.db_check.specs.Own.{cause_of};

use crate::around::Around;
use crate::first::at_line;
use crate::kind::Kind;
use crate::walk::in_protocol;
use db_model::{Database, Fault, Name, NameIndex, NoMemory, Places, Protocol};
use expr_type::Scope;
use std::alloc::Global;

/// A database with what is known of it by name.
#[derive(Clone, Copy)]
pub struct Known<'a> {
    pub database: &'a Database,
    pub names: &'a NameIndex,
    /// The places of the show templates.
    pub shows: &'a Places,
    /// The places of the summary templates.
    pub sums: &'a Places,
}

impl<'a> Known<'a> {
    /// Whether a protocol of this name is declared.
    pub fn has_protocol(&self, name: &[u8]) -> bool
        requires { IsKnown self.now }
        ensures { result ≡ is_protocol self.now.database.now name.now }
    {
        let place = self.names.protocol_at(self.database, name);
        place < self.database.protocols.as_slice().len()
    }

    fn has_summary(&self, name: &[u8]) -> bool
        requires { IsKnown self.now }
        ensures { result ≡ is_among name.now (map (λ d. d.name) self.now.database.now.sum_templates) }
    {
        let count = self.database.sum_templates.as_slice().len();
        self.sums.place_of(name, count) < count
    }

    fn lacks_summary(&self, showsum: &Option<Name>) -> bool
        requires { IsKnown self.now }
        ensures { result ≡ lacks_summary self.now.database.now showsum.now }
    {
        match showsum {
            None => false,
            Some(name) => !self.has_summary(name.as_slice()),
        }
    }

    fn summary_fails(&self, kind: Kind, showsum: &Option<Name>) -> bool
        requires { IsKnown self.now }
        ensures { result ≡ summary_fails self.now.database.now kind showsum.now }
    {
        match kind {
            Kind::Names => self.lacks_summary(showsum),
            _ => false,
        }
    }

    /// The least fault of this kind in the elements of a protocol, and of the protocol itself.
    fn in_one(
        &self,
        alloc: Global,
        kind: Kind,
        number: usize,
        protocol: &'a Protocol,
    ) -> Result<Option<Fault>, NoMemory>
        requires known { IsKnown self.now }
        requires there { slice_get self.now.database.now.protocols number ≡ Some protocol.now }
        ensures { IfOk result (λ f. f
            ≡ first (cause_of kind) (protocol_lines self.now.database.now kind protocol.now)) }
    {
        let fields = self.names.fields_at(number);
        let places = Places::of(alloc, fields)?;
        Ok(in_scope(self, kind, number, protocol, fields, &places))
    }

    /// The least fault of this kind in all protocols.
    pub fn in_protocols(&self, alloc: Global, kind: Kind) -> Result<Option<Fault>, NoMemory>
        requires { IsKnown self.now }
        ensures { IfOk result (λ f. f
            ≡ first (cause_of kind) (over
            (protocol_lines self.now.database.now kind) self.now.database.now.protocols)) }
    {
        self.in_each(alloc, kind, self.database.protocols.as_slice())
    }

    fn in_each(
        &self,
        alloc: Global,
        kind: Kind,
        protocols: &'a [Protocol],
    ) -> Result<Option<Fault>, NoMemory>
        requires known { IsKnown self.now }
        requires all { protocols.now ≡ self.now.database.now.protocols }
        ensures { IfOk result (λ f. f
            ≡ first (cause_of kind) (over (protocol_lines self.now.database.now kind) protocols.now)) }
    {
        let mut found = None;
        for (number, protocol) in protocols.iter().enumerate() {
            found = Fault::earlier(found, self.in_one(alloc, kind, number, protocol)?);
        }
        Ok(found)
    }
}

/// The same, where the names of the fields are known.
fn in_scope<'a, 'f>(
    known: &Known<'a>,
    kind: Kind,
    number: usize,
    protocol: &'a Protocol,
    fields: &'f [Name],
    places: &'f Places,
) -> Option<Fault>
    requires known { IsKnown known.now }
    requires there { slice_get known.now.database.now.protocols number ≡ Some protocol.now }
    requires places { IsPlaces fields.now places.now }
    ensures { result ≡ first (cause_of kind) (lines_by known.now.database.now fields.now kind protocol.now) }
{
    let scope = Scope {
        database: known.database,
        names: known.names,
        fields,
        places,
    };
    let around = Around {
        scope,
        shows: known.shows,
        number,
        protocol,
    };
    let wrong = known.summary_fails(kind, &protocol.showsum);
    let own = at_line(protocol.line, kind.cause(), wrong);
    Fault::earlier(own, in_protocol(kind, &around))
}
