ghost use Rattle.std.specs.Prelude.{◌≡◌, ◌≤◌, length, slice_get, IfOk, None, true};
ghost use Rattle.std.specs.Option.{option_copied};
ghost use Rattle.db_model.specs.Bare.{bare};
ghost use Rattle.db_model.specs.NameIndex.{IsIndex, block_number_at};
ghost use Rattle.db_model.specs.Names.{protocol_at, startproto, variable_at, table_at, column_at};
ghost use Rattle.db_model.specs.Numbering.{names_of_protocol};
ghost use Rattle.db_model.specs.Objection.{IsChecked, objection};
ghost use Rattle.db_model.specs.Shape.{is_shaped};

use crate::{
    Database, MOST_PROTOCOLS, MOST_TABLES, MOST_VARIABLES, Name, NameIndex, NoMemory, Protocol,
};
use sqlite_items::Items;
use std::alloc::Global;
use std::marker::Model;

/// A database that is shaped and in which no fault stands, seen as that database. It knows its names, so that
/// looking one up walks over no declaration and no element.
#[derive(Drop)]
pub struct CheckedDb {
    database: Database,
    names: NameIndex,
    /// The number of the protocol with which each packet begins.
    first: u16,
}

impl Model for CheckedDb {
    ghost use Rattle.db_model.specs.declared.database.Database.{Database};
    ghost use Rattle.db_model.specs.Objection.{IsChecked};
    ghost use Rattle.db_model.specs.contracts.database.Database as contract;

    ghost Value = { Database };

    ghost coded = { contract.the_row.coded };

    ghost view = { λ c. c.database };

    ghost use Rattle.db_model.specs.NameIndex.{IsIndex};
    ghost use Rattle.std.specs.Prelude.{◌≡◌};
    ghost use Rattle.db_model.specs.Names.{protocol_at, startproto};

    ghost invariant = { λ c. IsChecked c.database × IsIndex c.database c.names × (c.first ≡ protocol_at c.database startproto) };
}

/// The number of the protocol `startproto`.
fn first_protocol(database: &Database, names: &NameIndex) -> u16
    requires accepted { objection database.now ≡ None }
    requires names { IsIndex database.now names.now }
    ensures { result ≡ protocol_at database.now startproto }
{
    names.protocol_at(database, b"startproto") as u16
}

impl CheckedDb {
    /// Takes no memory.
    pub fn seal(database: Database, names: NameIndex) -> CheckedDb
        requires shaped { is_shaped database ≡ true }
        requires accepted { objection database ≡ None }
        requires names { IsIndex database names }
        ensures { result ≡ database }
    {
        let first = first_protocol(&database, &names);
        CheckedDb {
            database,
            names,
            first,
        }
    }

    /// The smallest database: one protocol `startproto` without parts, whose number is 0.
    pub fn bare(alloc: Global) -> Result<CheckedDb, NoMemory>
        ensures { IfOk result (λ c. c ≡ bare) }
    {
        let start = Protocol {
            line: 1,
            name: Name::copy_of(alloc, b"startproto")?,
            longname: None,
            showsum: None,
            execute_code: None,
            format: None,
            encapsulation: None,
        };
        let mut protocols = Items::new(alloc);
        protocols.push(start)?;
        let database = Database {
            line: 1,
            name: None,
            version: None,
            creator: None,
            date: None,
            variables: Items::new(alloc),
            tables: Items::new(alloc),
            show_templates: Items::new(alloc),
            sum_struct: None,
            sum_templates: Items::new(alloc),
            protocols,
        };
        let names = NameIndex::of(alloc, &database)?;
        Ok(CheckedDb::seal(database, names))
    }

    /// Lets the database go with its names, as `Database::discard`.
    pub fn discard(self) {
        self.database.discard();
        self.names.discard();
    }

    pub fn database(&self) -> &Database
        ensures database { result.now ≡ self.now }
        ensures checked { IsChecked self.now }
        ensures protocols { length self.now.protocols ≤ MOST_PROTOCOLS }
        ensures variables { length self.now.variables ≤ MOST_VARIABLES }
        ensures tables { length self.now.tables ≤ MOST_TABLES }
    {
        &self.database
    }

    /// The number of the protocol of this name, or how many there are where none has it.
    pub fn protocol_at(&self, name: &[u8]) -> usize
        ensures place { result ≡ protocol_at self.now name.now }
        ensures within { result ≤ length self.now.protocols }
    {
        self.names.protocol_at(&self.database, name)
    }

    /// The number of the protocol `startproto`, with which each packet begins.
    pub fn first_protocol(&self) -> u16
        ensures { result ≡ protocol_at self.now startproto }
    {
        self.first
    }

    /// The number of the variable of this name, or how many there are where none has it. The name stands without the
    /// `$`.
    pub fn variable_at(&self, name: &[u8]) -> usize
        ensures place { result ≡ variable_at self.now name.now }
        ensures within { result ≤ length self.now.variables }
    {
        self.names.variable_at(&self.database, name)
    }

    /// The same for tables.
    pub fn table_at(&self, name: &[u8]) -> usize
        ensures place { result ≡ table_at self.now name.now }
        ensures within { result ≤ length self.now.tables }
    {
        self.names.table_at(&self.database, name)
    }

    /// The same for the data columns of the table of this number, 0 where there is no such table.
    pub fn column_at(&self, table: usize, name: &[u8]) -> usize
        ensures { result ≡ column_at (slice_get self.now.tables table) name.now }
    {
        self.names.column_at(&self.database, table, name)
    }

    /// The same for the named blocks of the protocol of this number, 0 where there is no such protocol.
    pub fn block_at(&self, protocol: usize, name: &[u8]) -> usize
        ensures { result ≡ block_number_at (slice_get self.now.protocols protocol) name.now }
    {
        self.names.block_at(&self.database, protocol, name)
    }

    /// The names of the fields of the protocol of this number, by their numbers; none where there is no such
    /// protocol.
    pub fn field_names(&self, protocol: u16) -> &[Name]
        ensures { result.now ≡ names_of_protocol self.now protocol }
    {
        self.names.field_names(protocol)
    }

    /// The name of the field of this number in the protocol of this number, None where there is no such field.
    pub fn field_name(&self, protocol: u16, number: u32) -> Option<&Name>
        ensures { option_copied result ≡ slice_get (names_of_protocol self.now protocol) number }
    {
        self.field_names(protocol).get(number as usize)
    }
}
