ghost use Rattle.std.specs.Prelude.{◌≡◌, map};
ghost use Rattle.table_list.specs.Space.{widest, column_width, key_space, row_space};

use db_model::{ColumnDecl, KeyDecl, MOST_BYTES, TableDecl, Ty};

/// How many values there are, and the most bytes that one of them has.
#[derive(Clone, Copy)]
pub struct Space {
    pub count: usize,
    pub width: usize,
}

/// What the keys of an entry take, and so its masks.
pub fn key_space(declaration: &TableDecl) -> Space
    ensures { result ≡ key_space declaration.now }
{
    let keys = declaration.keys.as_slice();
    Space {
        count: keys.len(),
        width: widest_key(keys),
    }
}

/// What the row of an entry takes.
pub fn row_space(declaration: &TableDecl) -> Space
    ensures { result ≡ row_space declaration.now }
{
    let columns = declaration.columns.as_slice();
    Space {
        count: columns.len(),
        width: widest_column(columns),
    }
}

fn widest_key(keys: &[KeyDecl]) -> usize
    ensures { result ≡ widest (map (λ k. k.size) keys.now) }
{
    let mut width = 0;
    for key in keys {
        width = width.max(key.size as usize);
    }
    width
}

fn widest_column(columns: &[ColumnDecl]) -> usize
    ensures { result ≡ widest (map column_width columns.now) }
{
    let mut width = 0;
    for column in columns {
        width = width.max(column_width(column));
    }
    width
}

/// A value of bytes without a declared size may have as many bytes as there can be. No other value takes any.
fn column_width(column: &ColumnDecl) -> usize
    ensures { result ≡ column_width column.now }
{
    match (column.ty, column.size) {
        (Ty::Buf, Some(size)) => size as usize,
        (Ty::Buf, None) => MOST_BYTES,
        (Ty::Num | Ty::Proto, _) => 0,
    }
}
