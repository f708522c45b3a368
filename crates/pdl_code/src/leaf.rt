//! The operations of elements in which no others stand.

ghost use Rattle.std.specs.Prelude.{◌≡◌, true, slice_get, IfOk};
ghost use Rattle.pdl_code.specs.Coding.{is_sound, field_op, block_count};
ghost use Rattle.pdl_code.specs.Written.{WroteField, WroteOp, WroteInclude, WroteAssign, WroteUpdate, WroteNext};

use crate::entry::{self, UpdateForm};
use crate::place::Place;
use crate::scope::Scope;
use crate::{Op, SoundKind, UpdateCode};
use db_model::{
    CheckedDb, Expr, FieldForm, FieldKind, LEAST_ALIGNMENT, MOST_ALIGNMENT, MOST_BIT_SIZE, Name,
    NoMemory, Protocol,
};
use expr_code::code_of;
use sqlite_items::Items;

/// Whether a field of this form can be read: a bit field has 1 to 4 bytes and a mask other than 0, and an alignment
/// is within its limits.
fn is_sound(form: &FieldForm) -> bool
    ensures { result ≡ is_sound form.now }
{
    match form {
        FieldForm::Bit { size, mask } => 1 <= *size && *size <= MOST_BIT_SIZE && *mask != 0,
        FieldForm::Padding { align } => LEAST_ALIGNMENT <= *align && *align <= MOST_ALIGNMENT,
        FieldForm::Fixed { .. } => true,
        FieldForm::Variable { .. } => true,
        FieldForm::TokenEnded { .. } => true,
        FieldForm::Line => true,
    }
}

fn field_op(scope: &Scope<'_>, form: &FieldForm, number: u32) -> Result<Op, NoMemory>
    requires { is_sound form.now ≡ true }
    ensures { IfOk result (λ o. o ≡ field_op scope.now.db.now scope.now.protocol form.now number) }
{
    match form {
        FieldForm::Fixed { size } => Ok(Op::Field {
            number,
            kind: SoundKind::of(FieldKind::Fixed(*size)),
        }),
        FieldForm::Bit { size, mask } => Ok(Op::Field {
            number,
            kind: SoundKind::of(FieldKind::Bit {
                size: *size as u8,
                mask: *mask,
            }),
        }),
        FieldForm::Variable { expr } => Ok(Op::SizedField {
            number,
            size: code_of(scope.alloc, expr, scope.db, scope.protocol)?,
        }),
        FieldForm::TokenEnded { token } => Ok(Op::Field {
            number,
            kind: SoundKind::of(FieldKind::TokenEnded(token.clone()?)),
        }),
        FieldForm::Line => Ok(Op::Field {
            number,
            kind: SoundKind::of(FieldKind::Line),
        }),
        FieldForm::Padding { align } => Ok(Op::Field {
            number,
            kind: SoundKind::of(FieldKind::Padding(*align)),
        }),
    }
}

/// A field; nothing where it can't be read.
pub fn field(
    scope: &Scope<'_>,
    form: &FieldForm,
    at: Place,
    ops: &mut Items<Op>,
) -> Result<Place, NoMemory>
    ensures { IfOk result (λ to. WroteField scope.now form.now ops.old ops.new at to) }
{
    let to = at.behind_field()?;
    if !is_sound(form) {
        return Ok(to);
    }
    ops.push(field_op(scope, form, at.fields)?)?;
    Ok(to)
}

/// An operation behind those that are there.
pub fn put(op: Op, at: Place, ops: &mut Items<Op>) -> Result<Place, NoMemory>
    ensures { IfOk result (λ to. WroteOp op ops.old ops.new at to) }
{
    ops.push(op)?;
    Ok(at)
}

/// How many named blocks the protocol of this number has.
fn block_count(db: &CheckedDb, protocol: u16) -> usize
    ensures { result ≡ block_count (slice_get db.now.protocols protocol) }
{
    match db.database().protocols.get(protocol as usize) {
        Some(protocol) => count_of(protocol),
        None => 0,
    }
}

fn count_of(protocol: &Protocol) -> usize
    ensures { result ≡ block_count (Some protocol.now) }
{
    match &protocol.format {
        Some(format) => format.blocks.len(),
        None => 0,
    }
}

/// An included block; nothing where it isn't declared.
pub fn include(
    scope: &Scope<'_>,
    name: &Name,
    at: Place,
    ops: &mut Items<Op>,
) -> Result<Place, NoMemory>
    ensures { IfOk result (λ to. WroteInclude scope.now name.now ops.old ops.new at to) }
{
    let block = scope.db.block_at(scope.protocol as usize, name.as_slice());
    if block < block_count(scope.db, scope.protocol) {
        return put(Op::Include { block }, at, ops);
    }
    Ok(at)
}

pub fn assign(
    scope: &Scope<'_>,
    name: &Name,
    value: &Expr,
    at: Place,
    ops: &mut Items<Op>,
) -> Result<Place, NoMemory>
    ensures { IfOk result (λ to. WroteAssign scope.now name.now value.now ops.old ops.new at to) }
{
    let variable = scope.db.variable_at(name.as_slice());
    let value = code_of(scope.alloc, value, scope.db, scope.protocol)?;
    put(Op::Assign { variable, value }, at, ops)
}

pub fn update(
    scope: &Scope<'_>,
    form: &UpdateForm<'_>,
    at: Place,
    ops: &mut Items<Op>,
) -> Result<Place, NoMemory>
    ensures { IfOk result (λ to. WroteUpdate scope.now form.now ops.old ops.new at to) }
{
    let table = scope.db.table_at(form.table.as_slice());
    let keys = entry::keys(scope, form.keys)?;
    let row = entry::row(scope, form.row)?;
    let update = UpdateCode {
        table,
        validity: form.validity,
        keep: form.keep,
        hit: form.hit,
        keys,
        row,
    };
    put(Op::Update(update), at, ops)
}

pub fn next_proto(
    scope: &Scope<'_>,
    value: &Expr,
    at: Place,
    ops: &mut Items<Op>,
) -> Result<Place, NoMemory>
    ensures { IfOk result (λ to. WroteNext scope.now value.now ops.old ops.new at to) }
{
    let value = code_of(scope.alloc, value, scope.db, scope.protocol)?;
    put(Op::NextProto { value }, at, ops)
}
