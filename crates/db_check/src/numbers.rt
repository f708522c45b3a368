//! Numbers of declarations that are out of their limits, and declarations of which there are too many.

ghost use Rattle.std.specs.Prelude.{◌≡◌, map};
ghost use Rattle.db_cause.specs.declared.cause.Cause.TheVariants as cause;
ghost use Rattle.db_model.specs.Lines.{over};
ghost use Rattle.db_model.specs.NumberFaults;
ghost use Rattle.db_check.specs.First.{first};
ghost use Rattle.db_check.specs.Entries.{too_many_entries, table_lines};

use crate::first::at_line;
use crate::limits::{group_is_outside, is_outside, size_is_outside};
use crate::located::Located;
use db_cause::Cause;
use db_model::{
    ColumnDecl, Fault, KeyDecl, MOST_EXACT, MOST_EXACT_OVER_ALL, MOST_KEY_SIZE, MOST_MASKED,
    ShowTemplate, TableDecl,
};

fn of_keys(keys: &[KeyDecl]) -> Option<Fault>
    ensures { result ≡ first cause.OutOfLimits (over NumberFaults.key_43 keys.now) }
{
    let mut found = None;
    for key in keys {
        let wrong = is_outside(1, MOST_KEY_SIZE, key.size);
        found = Fault::earlier(found, at_line(key.line, Cause::OutOfLimits, wrong));
    }
    found
}

fn of_columns(columns: &[ColumnDecl]) -> Option<Fault>
    ensures { result ≡ first cause.OutOfLimits (over NumberFaults.column_43 columns.now) }
{
    let mut found = None;
    for column in columns {
        let wrong = size_is_outside(column.size);
        found = Fault::earlier(found, at_line(column.line, Cause::OutOfLimits, wrong));
    }
    found
}

/// Whether a table has too many entries, where those before it have so many exact ones.
fn has_too_many_entries(before: u64, table: &TableDecl) -> bool
    ensures { result ≡ too_many_entries before table.now }
{
    is_outside(1, MOST_EXACT, table.exact_entries)
        || u64::from(MOST_EXACT_OVER_ALL) < before.saturating_add(u64::from(table.exact_entries))
        || MOST_MASKED < table.mask_entries
}

/// The least fault of a table and what it declares.
#[tactic(auto, using(crate::proofs::Declarations::limits_append))]
fn of_table(before: u64, table: &TableDecl) -> Option<Fault>
    ensures { result ≡ first cause.OutOfLimits (table_lines before table.now) }
{
    let own = at_line(
        table.line,
        Cause::OutOfLimits,
        has_too_many_entries(before, table),
    );
    let keys = of_keys(table.keys.as_slice());
    let columns = of_columns(table.columns.as_slice());
    Fault::earlier(own, Fault::earlier(keys, columns))
}

/// The exact entries of all tables together count.
pub fn of_tables(tables: &[TableDecl]) -> Option<Fault>
    ensures { result ≡ first cause.OutOfLimits (NumberFaults.tables_43 0 tables.now) }
{
    let mut found = None;
    let mut before: u64 = 0;
    for table in tables {
        found = Fault::earlier(found, of_table(before, table));
        before = before.saturating_add(u64::from(table.exact_entries));
    }
    found
}

pub fn of_templates(templates: &[ShowTemplate]) -> Option<Fault>
    ensures { result ≡ first cause.OutOfLimits (over NumberFaults.template_43 templates.now) }
{
    let mut found = None;
    for template in templates {
        let wrong = group_is_outside(template.show_type, template.group);
        found = Fault::earlier(found, at_line(template.line, Cause::OutOfLimits, wrong));
    }
    found
}

/// The first declaration too many.
pub fn too_many<T: Located>(most: u32, declared: &[T]) -> Option<Fault>
    ensures { result ≡ first cause.OutOfLimits (NumberFaults.too_many most (map T.at declared.now)) }
{
    match declared.get(most as usize) {
        Some(declaration) => at_line(declaration.line(), Cause::OutOfLimits, true),
        None => None,
    }
}
