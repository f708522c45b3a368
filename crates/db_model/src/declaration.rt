ghost use Rattle.std.specs.Prelude.{◌≡◌, ◌≤◌, length, map, Some};
ghost use Rattle.db_model.specs.Names.{place, protocol_at, variable_at, table_at, column_at};

use crate::{
    ColumnDecl, Database, KeyDecl, Name, NamedBlock, Protocol, SectionDecl, ShowTemplate,
    SumTemplate, TableDecl, VarDecl,
};

/// What is declared under a name.
pub trait Declaration {
    ghost use Rattle.std.specs.Prelude.{List, ℕ};

    ghost named: { Self → List ℕ };

    fn name(&self) -> &[u8]
        ensures { result.now ≡ named self.now };
}

impl Declaration for Protocol {
    ghost named = { λ d. d.name };

    fn name(&self) -> &[u8] {
        self.name.as_slice()
    }
}

impl Declaration for VarDecl {
    ghost named = { λ d. d.name };

    fn name(&self) -> &[u8] {
        self.name.as_slice()
    }
}

impl Declaration for TableDecl {
    ghost named = { λ d. d.name };

    fn name(&self) -> &[u8] {
        self.name.as_slice()
    }
}

impl Declaration for KeyDecl {
    ghost named = { λ d. d.name };

    fn name(&self) -> &[u8] {
        self.name.as_slice()
    }
}

impl Declaration for ColumnDecl {
    ghost named = { λ d. d.name };

    fn name(&self) -> &[u8] {
        self.name.as_slice()
    }
}

impl Declaration for ShowTemplate {
    ghost named = { λ d. d.name };

    fn name(&self) -> &[u8] {
        self.name.as_slice()
    }
}

impl Declaration for SumTemplate {
    ghost named = { λ d. d.name };

    fn name(&self) -> &[u8] {
        self.name.as_slice()
    }
}

impl Declaration for SectionDecl {
    ghost named = { λ d. d.name };

    fn name(&self) -> &[u8] {
        self.name.as_slice()
    }
}

/// A name by itself, as in the list of a protocol's field names.
impl Declaration for Name {
    ghost named = { λ n. n };

    fn name(&self) -> &[u8] {
        self.as_slice()
    }
}

impl Declaration for NamedBlock {
    ghost named = { λ d. d.name };

    fn name(&self) -> &[u8] {
        self.name.as_slice()
    }
}

/// The place of the first declaration of this name, or how many there are where none has it.
pub fn place_of<T: Declaration>(name: &[u8], declarations: &[T]) -> usize
    ensures place { result ≡ place name.now (map T.named declarations.now) }
    ensures within { result ≤ length declarations.now }
{
    for (i, declaration) in declarations.iter().enumerate() {
        if name == declaration.name() {
            return i;
        }
    }
    declarations.len()
}

impl Database {
    /// The number of the first protocol of this name, or how many there are where none has it.
    pub fn protocol_at(&self, name: &[u8]) -> usize
        ensures place { result ≡ protocol_at self.now name.now }
        ensures within { result ≤ length self.now.protocols }
    {
        place_of(name, self.protocols.as_slice())
    }

    /// The same for variables. The name stands without the `$`.
    pub fn variable_at(&self, name: &[u8]) -> usize
        ensures place { result ≡ variable_at self.now name.now }
        ensures within { result ≤ length self.now.variables }
    {
        place_of(name, self.variables.as_slice())
    }

    /// The same for tables.
    pub fn table_at(&self, name: &[u8]) -> usize
        ensures place { result ≡ table_at self.now name.now }
        ensures within { result ≤ length self.now.tables }
    {
        place_of(name, self.tables.as_slice())
    }
}

impl TableDecl {
    /// The same for the data columns of a table.
    pub fn column_at(&self, name: &[u8]) -> usize
        ensures place { result ≡ column_at (Some self.now) name.now }
        ensures within { result ≤ length self.now.columns }
    {
        place_of(name, self.columns.as_slice())
    }
}
