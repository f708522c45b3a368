//! The operations of elements, put behind those that are there. What stands before an element is a `Place`, and
//! what stands before the next is given. After want of memory the operations are of no use. The functions go as
//! deep as the elements nest.

ghost use Rattle.std.specs.Prelude.{IfOk};
ghost use Rattle.pdl_code.specs.Written.{WroteElement, WroteList, WroteBody, WroteBlock, WroteLoop};
ghost use Rattle.pdl_code.specs.Written.{WroteCases, WroteOther};

use crate::entry::UpdateForm;
use crate::place::Place;
use crate::scope::Scope;
use crate::written::{Bodies, ranges_of, write_switch, write_test};
use crate::{Op, leaf};
use db_model::{Branch, Case, Element, Expr, LoopKind, NoMemory};
use expr_code::code_of;
use sqlite_items::Items;

#[cycle(emit)]
fn element(
    scope: &Scope<'_>,
    x: &Element,
    at: Place,
    ops: &mut Items<Op>,
) -> Result<Place, NoMemory>
    ensures { IfOk result (λ to. WroteElement scope.now x.now ops.old ops.new at to) }
{
    match x {
        Element::Field { form, .. } => leaf::field(scope, form, at, ops),
        Element::Block { body, .. } => block(scope, body.as_slice(), at, ops),
        Element::IncludeBlock { name, .. } => leaf::include(scope, name, at, ops),
        Element::Loop {
            kind,
            expr,
            body,
            ..
        } => looped(scope, body.as_slice(), *kind, expr, at, ops),
        Element::LoopCtrl { kind, .. } => leaf::put(Op::Leave { kind: *kind }, at, ops),
        Element::Switch {
            expr,
            cases,
            otherwise,
            ..
        } => {
            let start = ops.len();
            ops.push(Op::End)?;
            let bodies = bodies(scope, cases.as_slice(), at, ops)?;
            let middle = ops.len();
            let to = other(scope, otherwise, bodies.to, ops)?;
            let value = code_of(scope.alloc, expr, scope.db, scope.protocol)?;
            let ranges = ranges_of(scope.alloc, cases.as_slice())?;
            write_switch(value, ranges, bodies, start, middle, ops);
            Ok(to)
        }
        Element::If {
            expr,
            if_true,
            if_false,
            ..
        } => {
            let start = ops.len();
            ops.push(Op::End)?;
            let behind = list(scope, if_true.as_slice(), at, ops)?;
            let middle = ops.len();
            ops.push(Op::End)?;
            let to = other(scope, if_false, behind, ops)?;
            let value = code_of(scope.alloc, expr, scope.db, scope.protocol)?;
            write_test(value, start, middle, ops);
            Ok(to)
        }
        Element::Assign { name, value, .. } => leaf::assign(scope, name, value, at, ops),
        Element::Update {
            table,
            validity,
            keep,
            hit,
            keys,
            row,
            ..
        } => {
            let form = UpdateForm {
                table,
                validity: *validity,
                keep: *keep,
                hit: *hit,
                keys: keys.as_slice(),
                row: row.as_slice(),
            };
            leaf::update(scope, &form, at, ops)
        }
        Element::NextProto { proto, .. } => leaf::next_proto(scope, proto, at, ops),
    }
}

/// The operations of a list.
#[cycle(emit)]
pub fn list(
    scope: &Scope<'_>,
    xs: &[Element],
    at: Place,
    ops: &mut Items<Op>,
) -> Result<Place, NoMemory>
    ensures { IfOk result (λ to. WroteList scope.now xs.now ops.old ops.new at to) }
{
    let mut to = at;
    for x in xs {
        to = element(scope, x, to, ops)?;
    }
    Ok(to)
}

/// A list that ends, behind the room for one operation.
#[cycle(emit)]
fn body(
    scope: &Scope<'_>,
    xs: &[Element],
    at: Place,
    ops: &mut Items<Op>,
) -> Result<Place, NoMemory>
    ensures { IfOk result (λ to. WroteBody scope.now xs.now ops.old ops.new at to) }
{
    ops.push(Op::End)?;
    let to = list(scope, xs, at, ops)?;
    ops.push(Op::End)?;
    Ok(to)
}

#[cycle(emit)]
fn block(
    scope: &Scope<'_>,
    xs: &[Element],
    at: Place,
    ops: &mut Items<Op>,
) -> Result<Place, NoMemory>
    ensures { IfOk result (λ to. WroteBlock scope.now xs.now ops.old ops.new at to) }
{
    let start = ops.len();
    let inside = at.behind_block()?;
    let to = body(scope, xs, inside, ops)?;
    let after = ops.len() - start - 1;
    ops.set(
        start,
        Op::Block {
            number: at.blocks,
            after,
        },
    );
    Ok(to)
}

#[cycle(emit)]
fn looped(
    scope: &Scope<'_>,
    xs: &[Element],
    kind: LoopKind,
    value: &Expr,
    at: Place,
    ops: &mut Items<Op>,
) -> Result<Place, NoMemory>
    ensures { IfOk result (λ to. WroteLoop scope.now kind value.now xs.now ops.old ops.new at to) }
{
    let start = ops.len();
    let to = body(scope, xs, at, ops)?;
    let value = code_of(scope.alloc, value, scope.db, scope.protocol)?;
    let after = ops.len() - start - 1;
    ops.set(start, Op::Loop { kind, value, after });
    Ok(to)
}

/// The bodies of the cases, each with the room for a jump behind it.
#[cycle(emit)]
fn bodies(
    scope: &Scope<'_>,
    cases: &[Case],
    at: Place,
    ops: &mut Items<Op>,
) -> Result<Bodies, NoMemory>
    ensures { IfOk result (λ bodies. WroteCases scope.now cases.now ops.old ops.new at bodies) }
{
    let first = ops.len();
    let mut begins = Items::new(scope.alloc);
    let mut ends = Items::new(scope.alloc);
    let mut to = at;
    for case in cases {
        begins.push(ops.len() - first)?;
        to = list(scope, case.body.as_slice(), to, ops)?;
        ends.push(ops.len())?;
        ops.push(Op::End)?;
    }
    Ok(Bodies { begins, ends, to })
}

/// The default of a switch, or what a condition does otherwise.
#[cycle(emit)]
fn other(
    scope: &Scope<'_>,
    branch: &Option<Branch>,
    at: Place,
    ops: &mut Items<Op>,
) -> Result<Place, NoMemory>
    ensures { IfOk result (λ to. WroteOther scope.now branch.now ops.old ops.new at to) }
{
    match branch {
        Some(branch) => list(scope, branch.body.as_slice(), at, ops),
        None => Ok(at),
    }
}
