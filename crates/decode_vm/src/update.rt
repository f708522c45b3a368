ghost use Rattle.std.specs.Prelude.{◌≡◌, ◌≤◌, ◌<◌, ◌==◌, [], Some, length, map, slice_get};
ghost use Rattle.db_model.specs.Elements.{fits_column, row_from};
ghost use Rattle.db_model.specs.Expression.{asks, buf, declared_or_first, keys_from, taken_as, when};
ghost use Rattle.db_model.specs.Over.{point};
ghost use Rattle.db_model.specs.declared.question.Question.TheVariants.{Add};
ghost use Rattle.db_model.specs.declared.tree.Reason.TheVariants.{DataSize, KeySize};
ghost use Rattle.decode_vm.specs.Left.{AllFit};
ghost use Rattle.decode_vm.specs.Program.{IsRunning, Steps};
ghost use Rattle.decode_vm.specs.declared.machine.Mode.TheVariants.{At};
ghost use Rattle.expr_eval.specs.Evaluates.{Evaluates, Gave, itself};
ghost use Rattle.expr_code.specs.Meaning.{code_val};
ghost use Rattle.pdl_code.specs.Does.{added};
ghost use Rattle.pdl_code.specs.declared.code.Op.TheVariants.{Update};

use crate::choose::behind;
use crate::machine::{Machine, Mode};
use crate::masks::masks;
use crate::program::Program;
use crate::values::{number_of, protocol_of, settle};
use db_model::{
    Answer, Answers, Bytes, CheckedDb, ColumnDecl, Env, KeyDecl, Keys, MOST_PROTOCOLS, NewEntry,
    NoMemory, Question, Reason, Row, STAMP_END, Ty, Value,
};
use expr_code::ExprCode;
use expr_eval::{EvalEnd, eval};
use pdl_code::{KeyCode, UpdateCode};
use std::alloc::Global;

/// Adds an entry to a table.
pub fn add_entry<A: Answers>(
    program: &Program<'_>,
    pc: usize,
    update: &UpdateCode,
    m: &mut Machine,
    answers: &mut A,
) -> Result<(), NoMemory>
    requires database { A.database answers.old ≡ program.now.db.now }
    requires time { m.old.frame.env.packet.stamp < STAMP_END }
    requires mode { m.old.mode ≡ At pc }
    requires stands { slice_get program.now.code.now.ops pc ≡ Some (Update update.now) }
    requires running { IsRunning A.content A.told program.now (m.old, answers.old) }
    ensures database { A.database answers.new ≡ program.now.db.now }
    ensures moves { Steps A.content A.told program.now (m.old, answers.old) result (m.new, answers.new) }
{
    let answer = added(program.alloc, program.db, update, &mut m.frame.env, answers);
    match settle(m, answer)? {
        Some(_done) => {
            m.mode = Mode::At(behind(program.code, pc, 0));
            Ok(())
        }
        None => Ok(()),
    }
}

/// The keys, then the row, then one question. A table that isn't declared has no entries.
fn added<A: Answers>(
    alloc: Global,
    db: &CheckedDb,
    update: &UpdateCode,
    env: &mut Env,
    answers: &mut A,
) -> Result<Answer, EvalEnd>
    requires database { A.database answers.old ≡ db.now }
    requires time { env.old.packet.stamp < STAMP_END }
    requires fit { AllFit db.now (added db.now (slice_get db.now.tables update.now.table) update.now env.old) }
    ensures database { A.database answers.new ≡ db.now }
    ensures value { Evaluates db.now (added db.now (slice_get db.now.tables update.now.table) update.now) itself
        (point env.old (A.content answers.old) (A.told answers.old)) result
        (point env.new (A.content answers.new) (A.told answers.new)) }
{
    match db.database().tables.get(update.table) {
        Some(declared) => {
            let sizes = declared.keys.as_slice();
            let keys = update.keys.as_slice();
            let these = keys_of(alloc, db, keys, sizes, env, answers)?;
            let columns = declared.columns.as_slice();
            let values = row_of(alloc, db, update.row.as_slice(), columns, env, answers)?;
            let entry = NewEntry {
                keys: these,
                masks: masks(alloc, sizes, keys)?,
                validity: update.validity,
                keep: update.keep.unwrap_or(0),
                hit: update.hit.unwrap_or(0),
                row: values,
            };
            ask(update.table as u8, entry, env, answers)
        }
        None => Ok(Answer::Done),
    }
}

/// The keys, each checked for its size right after it is evaluated. KeySize: one has a wrong size, or is missing.
fn keys_of<A: Answers>(
    alloc: Global,
    db: &CheckedDb,
    parts: &[KeyCode],
    sizes: &[KeyDecl],
    env: &mut Env,
    answers: &mut A,
) -> Result<Keys, EvalEnd>
    requires database { A.database answers.old ≡ db.now }
    requires time { env.old.packet.stamp < STAMP_END }
    ensures database { A.database answers.new ≡ db.now }
    ensures value { Evaluates db.now
        (keys_from [] (map (λ k. k.size) sizes.now) (map (λ k. code_val db.now k.value) parts.now)) itself
        (point env.old (A.content answers.old) (A.told answers.old)) result
        (point env.new (A.content answers.new) (A.told answers.new)) }
{
    let mut keys = Keys::new(alloc);
    for (i, part) in parts.iter().enumerate() {
        let size = match sqlite_items::at(sizes, i) {
            Some(declaration) => declaration.size,
            None => return Ok(keys),
        };
        let value = eval(alloc, &part.value, db, env, answers)?;
        keys.push(key(alloc, value, size)?)?;
    }
    if parts.len() < sizes.len() {
        return Err(EvalEnd::Fault(Reason::KeySize));
    }
    Ok(keys)
}

/// The bytes of a key, which has so many.
fn key(alloc: Global, value: Value, size: u32) -> Result<Bytes, EvalEnd>
    ensures { Gave (λ k. k) (when (length (buf value) == size) KeySize (buf value)) result }
{
    let bytes = bytes_in(alloc, value);
    if bytes.as_slice().len() != size as usize {
        return Err(EvalEnd::Fault(Reason::KeySize));
    }
    Ok(bytes)
}

/// No bytes where it has none. Takes no memory.
fn bytes_in(alloc: Global, value: Value) -> Bytes
    ensures { result ≡ buf value }
{
    match value {
        Value::Buf(bytes) => bytes,
        Value::Num(_) | Value::Proto(_) => Bytes::from_vec(Vec::new(alloc)),
    }
}

/// The row, each value checked for its size right after it is evaluated. DataSize: one is longer than its column,
/// or is missing.
fn row_of<A: Answers>(
    alloc: Global,
    db: &CheckedDb,
    parts: &[ExprCode],
    columns: &[ColumnDecl],
    env: &mut Env,
    answers: &mut A,
) -> Result<Row, EvalEnd>
    requires database { A.database answers.old ≡ db.now }
    requires time { env.old.packet.stamp < STAMP_END }
    ensures database { A.database answers.new ≡ db.now }
    ensures value { Evaluates db.now
        (row_from (length db.now.protocols) [] columns.now (map (code_val db.now) parts.now)) itself
        (point env.old (A.content answers.old) (A.told answers.old)) result
        (point env.new (A.content answers.new) (A.told answers.new)) }
{
    let protocols = db.database().protocols.len();
    let mut row = Row::new(alloc);
    for (i, part) in parts.iter().enumerate() {
        let column = match sqlite_items::at(columns, i) {
            Some(column) => column,
            None => return Ok(row),
        };
        let value = eval(alloc, part, db, env, answers)?;
        row.push(data(alloc, value, column, protocols)?)?;
    }
    if parts.len() < columns.len() {
        return Err(EvalEnd::Fault(Reason::DataSize));
    }
    Ok(row)
}

/// A value as its column's, which has a greatest size. `protocols` are declared.
fn data(
    alloc: Global,
    value: Value,
    column: &ColumnDecl,
    protocols: usize,
) -> Result<Value, EvalEnd>
    requires { protocols ≤ MOST_PROTOCOLS }
    ensures { Gave (λ v. v) (when (fits_column column.now.size (taken_as protocols column.now.ty value)) DataSize
        (taken_as protocols column.now.ty value)) result }
{
    let value = taken(alloc, value, column.ty, protocols);
    if fits(&value, column.size) {
        Ok(value)
    } else {
        Err(EvalEnd::Fault(Reason::DataSize))
    }
}

fn fits(value: &Value, most: Option<u32>) -> bool
    ensures { result ≡ fits_column most value.now }
{
    match most {
        Some(most) => len(value) <= most as usize,
        None => true,
    }
}

fn len(value: &Value) -> usize
    ensures { result ≡ length (buf value.now) }
{
    match value {
        Value::Buf(bytes) => bytes.as_slice().len(),
        Value::Num(_) | Value::Proto(_) => 0,
    }
}

/// A value as one of a type. A protocol that isn't one of the declared ones is the first.
fn taken(alloc: Global, value: Value, ty: Ty, protocols: usize) -> Value
    ensures { result ≡ taken_as protocols ty value }
{
    match ty {
        Ty::Num => Value::Num(number_of(&value)),
        Ty::Buf => Value::Buf(bytes_in(alloc, value)),
        Ty::Proto => Value::Proto(declared_or_first(protocol_of(&value), protocols)),
    }
}

fn declared_or_first(protocol: u16, protocols: usize) -> u16
    ensures { result ≡ declared_or_first protocols protocol }
{
    if (protocol as usize) < protocols {
        protocol
    } else {
        0
    }
}

/// Asks for an addition. Questions: none is left.
fn ask<A: Answers>(
    table: u8,
    entry: NewEntry,
    env: &mut Env,
    answers: &mut A,
) -> Result<Answer, EvalEnd>
    requires time { env.old.packet.stamp < STAMP_END }
    requires fit { AllFit (A.database answers.old) (asks (Add table entry) env.old) }
    ensures database { A.database answers.new ≡ A.database answers.old }
    ensures value { Evaluates (A.database answers.old) (asks (Add table entry)) itself
        (point env.old (A.content answers.old) (A.told answers.old)) result
        (point env.new (A.content answers.new) (A.told answers.new)) }
{
    if env.questions == 0 {
        return Err(EvalEnd::Fault(Reason::Questions));
    }
    env.questions -= 1;
    let question = Question::Add { table, entry };
    Ok(answers.ask(&question, env.packet.stamp)?)
}
