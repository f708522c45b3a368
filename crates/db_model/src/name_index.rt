ghost use Rattle.std.specs.Prelude.{◌≡◌, ◌≤◌, length, map, slice_get, IfOk};
ghost use Rattle.db_model.specs.declared.database.Database.{Database};
ghost use Rattle.db_model.specs.Names.{protocol_at, variable_at, table_at, column_at};
ghost use Rattle.db_model.specs.NameIndex.{AllPlaces, IsIndex, block_names, block_number_at, column_names};
ghost use Rattle.db_model.specs.Numbering;
ghost use Rattle.db_model.specs.Numbering.{names_of_protocol};

use crate::field_names::{FieldNames, field_names, named_blocks};
use crate::places::Places;
use crate::{Database, Name, NoMemory, Protocol, Sequence, TableDecl};
use std::alloc::Global;

/// What a database declares, by name: looking a name up walks over no declaration and no element.
#[derive(Drop)]
pub struct NameIndex {
    protocols: Places,
    variables: Places,
    tables: Places,
    /// Those of each table.
    columns: Sequence<Places>,
    /// Those of the named blocks of each protocol.
    blocks: Sequence<Places>,
    /// The names of the fields of each protocol, by their numbers.
    fields: Sequence<FieldNames>,
}

impl NameIndex {
    /// Where a name is declared again, its first declaration counts.
    pub fn of(alloc: Global, database: &Database) -> Result<NameIndex, NoMemory>
        ensures { IfOk result (λ index. IsIndex database.now index) }
    {
        Ok(NameIndex {
            protocols: Places::of(alloc, database.protocols.as_slice())?,
            variables: Places::of(alloc, database.variables.as_slice())?,
            tables: Places::of(alloc, database.tables.as_slice())?,
            columns: columns_of(alloc, database.tables.as_slice())?,
            blocks: blocks_of(alloc, database.protocols.as_slice())?,
            fields: fields_of(alloc, database.protocols.as_slice())?,
        })
    }

    /// The number of the first protocol of this name, or how many there are where none has it.
    pub fn protocol_at(&self, database: &Database, name: &[u8]) -> usize
        requires { IsIndex database.now self.now }
        ensures place { result ≡ protocol_at database.now name.now }
        ensures within { result ≤ length database.now.protocols }
    {
        self.protocols
            .place_of(name, database.protocols.as_slice().len())
    }

    /// The same for variables. The name stands without the `$`.
    pub fn variable_at(&self, database: &Database, name: &[u8]) -> usize
        requires { IsIndex database.now self.now }
        ensures place { result ≡ variable_at database.now name.now }
        ensures within { result ≤ length database.now.variables }
    {
        self.variables
            .place_of(name, database.variables.as_slice().len())
    }

    /// The same for tables.
    pub fn table_at(&self, database: &Database, name: &[u8]) -> usize
        requires { IsIndex database.now self.now }
        ensures place { result ≡ table_at database.now name.now }
        ensures within { result ≤ length database.now.tables }
    {
        self.tables.place_of(name, database.tables.as_slice().len())
    }

    /// The same for the data columns of the table of this number, 0 where there is no such table.
    pub fn column_at(&self, database: &Database, table: usize, name: &[u8]) -> usize
        requires { IsIndex database.now self.now }
        ensures { result ≡ column_at (slice_get database.now.tables table) name.now }
    {
        match database.tables.get(table) {
            Some(declared) => match self.columns.get(table) {
                Some(places) => places.place_of(name, declared.columns.as_slice().len()),
                None => 0,
            },
            None => 0,
        }
    }

    /// The same for the named blocks of the protocol of this number, 0 where there is no such protocol.
    pub fn block_at(&self, database: &Database, protocol: usize, name: &[u8]) -> usize
        requires { IsIndex database.now self.now }
        ensures { result ≡ block_number_at (slice_get database.now.protocols protocol) name.now }
    {
        match database.protocols.get(protocol) {
            Some(declared) => match self.blocks.get(protocol) {
                Some(places) => places.place_of(name, named_blocks(declared).len()),
                None => 0,
            },
            None => 0,
        }
    }

    /// The names of the fields of the protocol of this number, by their numbers; none where there is no such
    /// protocol.
    pub fn field_names(&self, protocol: u16) -> &[Name]
        ensures { (db : Database) → IsIndex db self.now → result.now ≡ names_of_protocol db protocol }
    {
        self.fields_at(protocol as usize)
    }

    /// The same for a number of any size.
    pub fn fields_at(&self, protocol: usize) -> &[Name]
        ensures { (db : Database) → IsIndex db self.now → result.now ≡ names_of_protocol db protocol }
    {
        match self.fields.get(protocol) {
            Some(names) => names.as_slice(),
            None => &[],
        }
    }

    /// Lets the index go, as `Database::discard`.
    pub fn discard(self) {
        drop(self);
    }
}

fn columns_of(alloc: Global, tables: &[TableDecl]) -> Result<Sequence<Places>, NoMemory>
    ensures { IfOk result (λ all. AllPlaces (map column_names tables.now) all) }
{
    let mut all = Sequence::new(alloc);
    for table in tables {
        all.push(Places::of(alloc, table.columns.as_slice())?)?;
    }
    Ok(all)
}

fn blocks_of(alloc: Global, protocols: &[Protocol]) -> Result<Sequence<Places>, NoMemory>
    ensures { IfOk result (λ all. AllPlaces (map block_names protocols.now) all) }
{
    let mut all = Sequence::new(alloc);
    for protocol in protocols {
        all.push(Places::of(alloc, named_blocks(protocol))?)?;
    }
    Ok(all)
}

fn fields_of(alloc: Global, protocols: &[Protocol]) -> Result<Sequence<FieldNames>, NoMemory>
    ensures { IfOk result (λ all. all ≡ map Numbering.field_names protocols.now) }
{
    let mut all = Sequence::new(alloc);
    for protocol in protocols {
        all.push(field_names(alloc, protocol)?)?;
    }
    Ok(all)
}
