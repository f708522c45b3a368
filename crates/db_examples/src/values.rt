ghost use Rattle.std.specs.Prelude.{◌≡◌, ◌∷◌, [], IfOk};
ghost use Rattle.db_examples.specs.KeyedSample.{keyed_db, start};
ghost use Rattle.db_examples.specs.TableSample.{one_table};
ghost use Rattle.db_model.specs.NameIndex.{IsIndex};

use db_model::{
    CheckedDb, ColumnDecl, Database, Element, ElementList, FieldForm, Format, KeyDecl, Name,
    NameIndex, NoMemory, Protocol, TableDecl, Ty,
};
use sqlite_items::Items;
use std::alloc::Global;

/// A checked database with one table `t`, which has a key `k` and a column `d` of one byte each, and one
/// protocol `startproto` with a field `f` of one byte.
pub fn keyed_database(alloc: Global) -> Result<CheckedDb, NoMemory>
    ensures { IfOk result (λ c. c ≡ keyed_db) }
{
    let database = Database {
        line: 1,
        name: None,
        version: None,
        creator: None,
        date: None,
        variables: Items::new(alloc),
        tables: only(alloc, table(alloc)?)?,
        show_templates: Items::new(alloc),
        sum_struct: None,
        sum_templates: Items::new(alloc),
        protocols: only(alloc, start(alloc)?)?,
    };
    let names = NameIndex::of(alloc, &database)?;
    Ok(sealed(database, names))
}

#[tactic(auto, using(crate::proofs::KeyedJudged::keyed_shaped, crate::proofs::KeyedJudged::keyed_accepted))]
fn sealed(database: Database, names: NameIndex) -> CheckedDb
    requires database { database ≡ keyed_db }
    requires names { IsIndex database names }
    ensures { result ≡ keyed_db }
{
    CheckedDb::seal(database, names)
}

fn only<T: Drop>(alloc: Global, item: T) -> Result<Items<T>, NoMemory>
    ensures { IfOk result (λ xs. xs ≡ item ∷ []) }
{
    let mut items = Items::new(alloc);
    items.push(item)?;
    Ok(items)
}

fn table(alloc: Global) -> Result<TableDecl, NoMemory>
    ensures { IfOk result (λ t. t ≡ one_table) }
{
    let key = KeyDecl {
        line: 2,
        name: Name::copy_of(alloc, b"k")?,
        size: 1,
    };
    let column = ColumnDecl {
        line: 2,
        name: Name::copy_of(alloc, b"d")?,
        ty: Ty::Buf,
        size: Some(1),
    };
    Ok(TableDecl {
        line: 2,
        name: Name::copy_of(alloc, b"t")?,
        exact_entries: 2,
        mask_entries: 1,
        keys: only(alloc, key)?,
        columns: only(alloc, column)?,
    })
}

fn start(alloc: Global) -> Result<Protocol, NoMemory>
    ensures { IfOk result (λ p. p ≡ start) }
{
    let field = Element::Field {
        line: 4,
        name: Name::copy_of(alloc, b"f")?,
        form: FieldForm::Fixed { size: 1 },
        longname: None,
        show: None,
    };
    let fields = ElementList {
        line: 3,
        elements: only(alloc, field)?,
    };
    let format = Format {
        line: 3,
        fields: Some(fields),
        blocks: Items::new(alloc),
    };
    Ok(Protocol {
        line: 3,
        name: Name::copy_of(alloc, b"startproto")?,
        longname: None,
        showsum: None,
        execute_code: None,
        format: Some(format),
        encapsulation: None,
    })
}
