ghost use Rattle.std.specs.Prelude.{◌≡◌, ◌+◌, max, map, sum};
ghost use Rattle.db_model.specs.Forms;
ghost use Rattle.db_model.specs.Forms.{nodes_of, depth_of};
ghost use Rattle.expr_text.specs.Sizes.{capped, small};

use db_model::{Expr, MOST_EXPRESSION_DEPTH, MOST_EXPRESSION_NODES};

fn more(n: u32) -> u32
    ensures { result ≡ capped (1 + n) }
{
    n.saturating_add(1)
}

fn total(a: u32, b: u32) -> u32
    ensures { result ≡ capped (a + b) }
{
    a.saturating_add(b)
}

fn greatest(a: u32, b: u32) -> u32
    ensures { result ≡ max a b }
{
    if a < b { b } else { a }
}

/// How many nodes an expression has, or the greatest number where it has more.
#[cycle(nodes)]
fn nodes(e: &Expr) -> u32
    ensures { result ≡ capped (nodes_of e.now) }
{
    match e {
        Expr::Number(_) => 1,
        Expr::Text(_) => 1,
        Expr::Protocol(_) => 1,
        Expr::Field(_) => 1,
        Expr::Variable(_) => 1,
        Expr::Column { .. } => 1,
        Expr::IsPresent(_) => 1,
        Expr::Not(a) => more(nodes(a.get())),
        Expr::And(a, b) => more(total(nodes(a.get()), nodes(b.get()))),
        Expr::Or(a, b) => more(total(nodes(a.get()), nodes(b.get()))),
        Expr::Binary(_, a, b) => more(total(nodes(a.get()), nodes(b.get()))),
        Expr::Slice { base, from, count } => more(total(
            nodes(base.get()),
            total(nodes(from.get()), nodes(count.get())),
        )),
        Expr::ToNumber(a) => more(nodes(a.get())),
        Expr::LengthOf(a) => more(nodes(a.get())),
        Expr::ToBytes { value, .. } => more(nodes(value.get())),
        Expr::HasText { within, .. } => more(nodes(within.get())),
        Expr::LookUp { keys, .. } => more(nodes_in(keys.as_slice())),
    }
}

#[cycle(nodes)]
fn nodes_in(keys: &[Expr]) -> u32
    ensures { result ≡ capped (sum (map nodes_of keys.now)) }
{
    let mut sum: u32 = 0;
    for key in keys {
        sum = total(sum, nodes(key));
    }
    sum
}

/// How deep an expression is, or the greatest number where it is deeper.
#[cycle(depth)]
fn depth(e: &Expr) -> u32
    ensures { result ≡ capped (depth_of e.now) }
{
    match e {
        Expr::Number(_) => 1,
        Expr::Text(_) => 1,
        Expr::Protocol(_) => 1,
        Expr::Field(_) => 1,
        Expr::Variable(_) => 1,
        Expr::Column { .. } => 1,
        Expr::IsPresent(_) => 1,
        Expr::Not(a) => more(depth(a.get())),
        Expr::And(a, b) => more(greatest(depth(a.get()), depth(b.get()))),
        Expr::Or(a, b) => more(greatest(depth(a.get()), depth(b.get()))),
        Expr::Binary(_, a, b) => more(greatest(depth(a.get()), depth(b.get()))),
        Expr::Slice { base, from, count } => more(greatest(
            depth(base.get()),
            greatest(depth(from.get()), depth(count.get())),
        )),
        Expr::ToNumber(a) => more(depth(a.get())),
        Expr::LengthOf(a) => more(depth(a.get())),
        Expr::ToBytes { value, .. } => more(depth(value.get())),
        Expr::HasText { within, .. } => more(depth(within.get())),
        Expr::LookUp { keys, .. } => more(deepest(keys.as_slice())),
    }
}

#[cycle(depth)]
fn deepest(keys: &[Expr]) -> u32
    ensures { result ≡ capped (Forms.deepest (map depth_of keys.now)) }
{
    let mut most: u32 = 0;
    for key in keys {
        most = greatest(most, depth(key));
    }
    most
}

/// Whether an expression has few enough nodes and isn't too deep.
pub fn is_small(e: &Expr) -> bool
    ensures { result ≡ small e.now }
{
    nodes(e) <= MOST_EXPRESSION_NODES && depth(e) <= MOST_EXPRESSION_DEPTH
}
