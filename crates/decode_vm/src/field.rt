ghost use Rattle.std.specs.Prelude.{◌≡◌, ◌+◌, ◌≤◌, IfOk, OnOk, drop, length, take};
ghost use Rattle.db_model.specs.Extent.{step_by, value_by};
ghost use Rattle.db_model.specs.Runs.{add_field, place_field, spend_node};
ghost use Rattle.decode_vm.specs.Field.{IsSized, fielded};
ghost use Rattle.decode_vm.specs.Machine.{Ran};
ghost use Rattle.decode_vm.specs.Sound.{Sound};
ghost use Rattle.pdl_code.specs.Sound.{IsSound};

use crate::machine::{Machine, Mode};
use crate::values::halt;
use db_model::{Bytes, FieldKind, MOST_BYTES, NoMemory, Node, Reason};
use fields::{Extent, bit_value, extent};
use std::alloc::Global;

/// Adds a field of this kind, or ends the decoding where its size passes the limit or no node is left. `n` is the
/// size of a variable field, and its list goes on at the place `after`.
pub fn place_field(
    alloc: Global,
    number: u32,
    kind: &FieldKind,
    n: u32,
    after: usize,
    m: &mut Machine,
) -> Result<(), NoMemory>
    requires kind { IsSound kind.now }
    requires sound { Sound m.old }
    ensures { OnOk result (Ran (place_field kind.now number n) after m.old m.new) }
{
    let env = &m.frame.env;
    match extent(
        kind,
        env.packet.bytes.as_slice(),
        env.at,
        env.limit,
        env.origin,
        n,
    ) {
        Extent::Short => halt(m, Reason::Short),
        Extent::Size(size) => spend(alloc, number, kind, size, after, m),
    }
}

/// Spends a node for a field whose size is known.
fn spend(
    alloc: Global,
    number: u32,
    kind: &FieldKind,
    size: u32,
    after: usize,
    m: &mut Machine,
) -> Result<(), NoMemory>
    requires kind { IsSound kind.now }
    requires sized { IsSized kind.now size }
    requires position { m.old.frame.env.at + size ≤ m.old.frame.env.limit }
    requires limit { m.old.frame.env.limit ≤ length m.old.frame.env.packet.bytes }
    ensures { OnOk result (Ran (spend_node (add_field kind.now number size)) after m.old m.new) }
{
    if m.frame.nodes == 0 {
        return halt(m, Reason::Nodes);
    }
    m.frame.nodes -= 1;
    add(alloc, number, kind, size, after, m)
}

/// Its node, its value among the decoded fields, and the position behind it.
fn add(
    alloc: Global,
    number: u32,
    kind: &FieldKind,
    size: u32,
    after: usize,
    m: &mut Machine,
) -> Result<(), NoMemory>
    requires kind { IsSound kind.now }
    requires sized { IsSized kind.now size }
    requires position { m.old.frame.env.at + size ≤ m.old.frame.env.limit }
    requires limit { m.old.frame.env.limit ≤ length m.old.frame.env.packet.bytes }
    ensures { OnOk result (m.new ≡ fielded kind.now number size after m.old) }
{
    let pos = m.frame.env.at;
    let value = value_of(alloc, kind, piece(&m.frame.env.packet.bytes, pos, size))?;
    m.frame.env.present.push(number, value.clone()?)?;
    m.nodes.push(Node::Field {
        field: number,
        pos,
        size,
        value,
    })?;
    m.frame.env.at = pos + step(kind, size);
    m.mode = Mode::At(after);
    Ok(())
}

/// So many bytes from a position on.
fn piece(bytes: &Bytes, at: u32, size: u32) -> &[u8]
    requires { at + size ≤ length bytes.now }
    ensures bytes { result.now ≡ take size (drop at bytes.now) }
    ensures bound { length result.now ≤ MOST_BYTES }
    ensures whole { length bytes.now ≤ MOST_BYTES }
{
    let rest = &bytes.as_slice()[at as usize..];
    &rest[..size as usize]
}

/// The value of a field of these bytes.
fn value_of(alloc: Global, kind: &FieldKind, bytes: &[u8]) -> Result<Bytes, NoMemory>
    requires kind { IsSound kind.now }
    requires sized { IsSized kind.now (length bytes.now) }
    requires bound { length bytes.now ≤ MOST_BYTES }
    ensures { IfOk result (λ v. v ≡ value_by kind.now bytes.now) }
{
    match kind {
        FieldKind::Bit { mask, .. } => Bytes::copy_of(alloc, bit_value(bytes, *mask).as_slice()),
        FieldKind::Fixed(_)
        | FieldKind::Variable
        | FieldKind::TokenEnded(_)
        | FieldKind::Line
        | FieldKind::Padding(_) => Bytes::copy_of(alloc, bytes),
    }
}

/// How far the position moves behind a field of this size.
fn step(kind: &FieldKind, size: u32) -> u32
    ensures step { result ≡ step_by kind.now size }
    ensures within { result ≤ size }
{
    match kind {
        FieldKind::Bit { mask, .. } if *mask % 2 == 0 => 0,
        FieldKind::Bit { .. }
        | FieldKind::Fixed(_)
        | FieldKind::Variable
        | FieldKind::TokenEnded(_)
        | FieldKind::Line
        | FieldKind::Padding(_) => size,
    }
}
