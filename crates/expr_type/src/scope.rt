ghost use Rattle.std.specs.Prelude.{◌≡◌, ◌&&◌, map, slice_get};
ghost use Rattle.db_model.specs.Names.{table_at};
ghost use Rattle.db_model.specs.Typing.{is_among, is_protocol, is_table, is_variable, column_names};
ghost use Rattle.expr_type.specs.Scope.{IsScope};

use db_model::{Database, Name, NameIndex, Places, Special};

/// What an expression may name: what a database declares, and the fields of one protocol. Each name is looked up
/// without a walk over declarations or elements.
#[derive(Clone, Copy)]
pub struct Scope<'a, 'f> {
    pub database: &'a Database,
    /// The index of the database.
    pub names: &'a NameIndex,
    /// The names of the protocol's fields. Outside of all protocols there are none.
    pub fields: &'f [Name],
    /// Their places.
    pub places: &'f Places,
}

impl Scope<'_, '_> {
    /// Whether a protocol of this name is declared.
    pub fn has_protocol(&self, name: &[u8]) -> bool
        requires { IsScope self.now }
        ensures { result ≡ is_protocol self.now.database.now name.now }
    {
        let place = self.names.protocol_at(self.database, name);
        place < self.database.protocols.as_slice().len()
    }

    /// The same for tables.
    pub fn has_table(&self, name: &[u8]) -> bool
        requires { IsScope self.now }
        ensures { result ≡ is_table self.now.database.now name.now }
    {
        let place = self.names.table_at(self.database, name);
        place < self.database.tables.as_slice().len()
    }

    /// The same for variables, of which the special ones are not declared. The name stands without the `$`.
    pub fn declares_variable(&self, name: &[u8]) -> bool
        requires { IsScope self.now }
        ensures { result ≡ is_among name.now (map (λ d. d.name) self.now.database.now.variables) }
    {
        let place = self.names.variable_at(self.database, name);
        place < self.database.variables.as_slice().len()
    }

    /// Whether a variable of this name is declared or special.
    pub fn has_variable(&self, name: &[u8]) -> bool
        requires { IsScope self.now }
        ensures { result ≡ is_variable self.now.database.now name.now }
    {
        Special::of(name).is_some() || self.declares_variable(name)
    }

    /// Whether the protocol has a field of this name.
    #[tactic(auto, using(crate::proofs::Declared::among_is))]
    pub fn has_field(&self, name: &[u8]) -> bool
        requires { IsScope self.now }
        ensures { result ≡ is_among name.now self.now.fields.now }
    {
        let place = self.places.place_of(name, self.fields.len());
        place < self.fields.len()
    }

    /// Whether a table of this name is declared, with a data column of that name.
    pub fn has_column(&self, table: &[u8], column: &[u8]) -> bool
        requires { IsScope self.now }
        ensures { result ≡ (is_table self.now.database.now table.now && is_among column.now (column_names
            (slice_get self.now.database.now.tables (table_at self.now.database.now table.now)))) }
    {
        let at = self.names.table_at(self.database, table);
        match self.database.tables.get(at) {
            Some(declared) => {
                let place = self.names.column_at(self.database, at, column);
                place < declared.columns.as_slice().len()
            }
            None => false,
        }
    }
}
