ghost use Rattle.std.specs.Prelude.{◌≡◌, ◌<◌, true, slice_get, map, [], IfOk};
ghost use Rattle.db_model.specs.Expression;
ghost use Rattle.db_model.specs.Expression.{keys_from};
ghost use Rattle.db_model.specs.Fitting.{keys_fit};
ghost use Rattle.db_model.specs.Over.{point};
ghost use Rattle.expr_code.specs.declared.code.ExprCode.TheOpen as layer;
ghost use Rattle.expr_code.specs.Meaning.{code_val, code_value};
ghost use Rattle.expr_eval.specs.Evaluates.{Evaluates, Stays, itself, number_of};
ghost use Rattle.expr_eval.specs.Yields.{Counts, Numbers, Yields};

use crate::numbers::{by_numbers, is_so, of_numbers, of_truth};
use crate::operand::{Operand, as_operand};
use crate::tables::{Asked, look};
use crate::{EvalEnd, operators, reads, values};
use db_model::{Answers, Bytes, CheckedDb, Env, KeyDecl, Keys, Operator, Reason, STAMP_END, Value};
use expr_code::ExprCode;
use std::alloc::Global;

/// Evaluates the code of an expression. Fault: the expression has no value, for this reason. What was asked before
/// has been answered and stays. NoMemory may always come, and does for a number that is to be written in more bytes
/// than bytes can be. It goes as deep as the expression, which in a checked database is at most 32 deep.
pub fn eval<A: Answers>(
    alloc: Global,
    code: &ExprCode,
    db: &CheckedDb,
    env: &mut Env,
    answers: &mut A,
) -> Result<Value, EvalEnd>
    requires database { A.database answers.old ≡ db.now }
    requires time { env.old.packet.stamp < STAMP_END }
    ensures database { A.database answers.new ≡ db.now }
    ensures stays { Stays env.old env.new }
    ensures value { Evaluates db.now (code_val db.now code.now) itself
        (point env.old (A.content answers.old) (A.told answers.old)) result
        (point env.new (A.content answers.new) (A.told answers.new)) }
{
    let operand = evaluate(alloc, code, db, env, answers)?;
    operand.into_value(alloc, env)
}

/// The same as a number, 0 where the value is none. No value is made on the way where only numbers are needed.
pub fn eval_number<A: Answers>(
    alloc: Global,
    code: &ExprCode,
    db: &CheckedDb,
    env: &mut Env,
    answers: &mut A,
) -> Result<u32, EvalEnd>
    requires database { A.database answers.old ≡ db.now }
    requires time { env.old.packet.stamp < STAMP_END }
    ensures database { A.database answers.new ≡ db.now }
    ensures stays { Stays env.old env.new }
    ensures value { Evaluates db.now (number_of (code_val db.now code.now)) itself
        (point env.old (A.content answers.old) (A.told answers.old)) result
        (point env.new (A.content answers.new) (A.told answers.new)) }
{
    evaluate_number(alloc, code, db, env, answers)
}

#[cycle(parts)]
fn evaluate<A: Answers>(
    alloc: Global,
    code: &ExprCode,
    db: &CheckedDb,
    env: &mut Env,
    answers: &mut A,
) -> Result<Operand, EvalEnd>
    requires database { A.database answers.old ≡ db.now }
    requires time { env.old.packet.stamp < STAMP_END }
    ensures database { A.database answers.new ≡ A.database answers.old }
    ensures packet { env.new.packet ≡ env.old.packet }
    ensures value { Yields A.content A.told db.now
        (code_val db.now code.now)
        (env.old, answers.old) result (env.new, answers.new) }
{
    match code {
        ExprCode::Number(n) => Ok(Operand::of_number(*n)),
        ExprCode::Text(text) => reads::text(text),
        ExprCode::Protocol(number) => Ok(Operand::Own(Value::Proto(*number))),
        ExprCode::Field(numbers) => reads::field(numbers, env),
        ExprCode::IsPresent(numbers) => Ok(Operand::of_number(reads::presence(numbers, env))),
        ExprCode::Special(special) => Ok(reads::special(*special, env)),
        ExprCode::Variable(place) => Ok(reads::variable(*place, env)),
        ExprCode::Column { table, column } => reads::column(*table, *column, env),
        ExprCode::Not(x) => as_operand(negation(alloc, x.get(), db, env, answers)),
        ExprCode::And(x, y) => as_operand(conjunction(alloc, x.get(), y.get(), db, env, answers)),
        ExprCode::Or(x, y) => as_operand(disjunction(alloc, x.get(), y.get(), db, env, answers)),
        ExprCode::Binary(op, x, y) => {
            as_operand(operation(alloc, *op, (x.get(), y.get()), db, env, answers))
        }
        ExprCode::Slice { base, from, count } => {
            slice(
                alloc,
                base.get(),
                (from.get(), count.get()),
                db,
                env,
                answers,
            )
        }
        ExprCode::ToNumber(x) => as_operand(to_number(alloc, x.get(), db, env, answers)),
        ExprCode::LengthOf(x) => as_operand(length_of(alloc, x.get(), db, env, answers)),
        ExprCode::ToBytes { value, size } => {
            to_bytes(alloc, value.get(), *size, db, env, answers)
        }
        ExprCode::HasText { within, text } => {
            as_operand(has_text(alloc, within.get(), text, db, env, answers))
        }
        ExprCode::LookUp { table, renew, keys } => {
            let asked = Asked {
                table: *table,
                renew: *renew,
            };
            as_operand(look_up(alloc, asked, keys.as_slice(), db, env, answers))
        }
    }
}

/// What an expression gives as a number. The forms that give numbers make no value; what the state holds is read in
/// place.
#[cycle(parts)]
fn evaluate_number<A: Answers>(
    alloc: Global,
    code: &ExprCode,
    db: &CheckedDb,
    env: &mut Env,
    answers: &mut A,
) -> Result<u32, EvalEnd>
    requires database { A.database answers.old ≡ db.now }
    requires time { env.old.packet.stamp < STAMP_END }
    ensures database { A.database answers.new ≡ A.database answers.old }
    ensures packet { env.new.packet ≡ env.old.packet }
    ensures value { Numbers A.content A.told db.now
        (code_val db.now code.now)
        (env.old, answers.old) result (env.new, answers.new) }
{
    match code {
        ExprCode::Number(n) => Ok(*n),
        ExprCode::IsPresent(numbers) => Ok(reads::presence(numbers, env)),
        ExprCode::Special(special) => Ok(reads::special_number(*special, env)),
        ExprCode::Variable(place) => Ok(reads::variable_number(*place, env)),
        ExprCode::Not(x) => negation(alloc, x.get(), db, env, answers),
        ExprCode::And(x, y) => conjunction(alloc, x.get(), y.get(), db, env, answers),
        ExprCode::Or(x, y) => disjunction(alloc, x.get(), y.get(), db, env, answers),
        ExprCode::Binary(op, x, y) => operation(alloc, *op, (x.get(), y.get()), db, env, answers),
        ExprCode::ToNumber(x) => to_number(alloc, x.get(), db, env, answers),
        ExprCode::LengthOf(x) => length_of(alloc, x.get(), db, env, answers),
        ExprCode::HasText { within, text } => {
            has_text(alloc, within.get(), text, db, env, answers)
        }
        ExprCode::LookUp { table, renew, keys } => {
            let asked = Asked {
                table: *table,
                renew: *renew,
            };
            look_up(alloc, asked, keys.as_slice(), db, env, answers)
        }
        ExprCode::Text(_)
        | ExprCode::Protocol(_)
        | ExprCode::Field(_)
        | ExprCode::Column { .. }
        | ExprCode::Slice { .. }
        | ExprCode::ToBytes { .. } => taken_number(alloc, code, db, env, answers),
    }
}

/// The same by way of what the expression gives.
#[cycle(parts)]
fn taken_number<A: Answers>(
    alloc: Global,
    code: &ExprCode,
    db: &CheckedDb,
    env: &mut Env,
    answers: &mut A,
) -> Result<u32, EvalEnd>
    requires database { A.database answers.old ≡ db.now }
    requires time { env.old.packet.stamp < STAMP_END }
    ensures database { A.database answers.new ≡ A.database answers.old }
    ensures packet { env.new.packet ≡ env.old.packet }
    ensures value { Numbers A.content A.told db.now
        (code_val db.now code.now)
        (env.old, answers.old) result (env.new, answers.new) }
{
    let x = evaluate(alloc, code, db, env, answers)?;
    Ok(x.number())
}

/// The negation of what a part gives, as a number. Each form with parts has a function of its own, as a function sets
/// the room of all its values to zero at its entry. The same for those below.
#[cycle(parts)]
fn negation<A: Answers>(
    alloc: Global,
    x: &ExprCode,
    db: &CheckedDb,
    env: &mut Env,
    answers: &mut A,
) -> Result<u32, EvalEnd>
    requires database { A.database answers.old ≡ db.now }
    requires time { env.old.packet.stamp < STAMP_END }
    ensures database { A.database answers.new ≡ A.database answers.old }
    ensures packet { env.new.packet ≡ env.old.packet }
    ensures value { Counts A.content A.told db.now
        (code_value db.now (layer.Not (code_val db.now x.now)))
        (env.old, answers.old) result (env.new, answers.new) }
{
    let x = evaluate_number(alloc, x, db, env, answers)?;
    Ok(of_truth(!is_so(x)))
}

#[cycle(parts)]
fn conjunction<A: Answers>(
    alloc: Global,
    x: &ExprCode,
    y: &ExprCode,
    db: &CheckedDb,
    env: &mut Env,
    answers: &mut A,
) -> Result<u32, EvalEnd>
    requires database { A.database answers.old ≡ db.now }
    requires time { env.old.packet.stamp < STAMP_END }
    ensures database { A.database answers.new ≡ A.database answers.old }
    ensures packet { env.new.packet ≡ env.old.packet }
    ensures value { Counts A.content A.told db.now
        (code_value db.now (layer.And (code_val db.now x.now) (code_val db.now y.now)))
        (env.old, answers.old) result (env.new, answers.new) }
{
    let x = evaluate_number(alloc, x, db, env, answers)?;
    if !is_so(x) {
        return Ok(0);
    }
    let y = evaluate_number(alloc, y, db, env, answers)?;
    Ok(of_truth(is_so(y)))
}

#[cycle(parts)]
fn disjunction<A: Answers>(
    alloc: Global,
    x: &ExprCode,
    y: &ExprCode,
    db: &CheckedDb,
    env: &mut Env,
    answers: &mut A,
) -> Result<u32, EvalEnd>
    requires database { A.database answers.old ≡ db.now }
    requires time { env.old.packet.stamp < STAMP_END }
    ensures database { A.database answers.new ≡ A.database answers.old }
    ensures packet { env.new.packet ≡ env.old.packet }
    ensures value { Counts A.content A.told db.now
        (code_value db.now (layer.Or (code_val db.now x.now) (code_val db.now y.now)))
        (env.old, answers.old) result (env.new, answers.new) }
{
    let x = evaluate_number(alloc, x, db, env, answers)?;
    if is_so(x) {
        return Ok(1);
    }
    let y = evaluate_number(alloc, y, db, env, answers)?;
    Ok(of_truth(is_so(y)))
}

#[cycle(parts)]
fn operation<A: Answers>(
    alloc: Global,
    op: Operator,
    parts: (&ExprCode, &ExprCode),
    db: &CheckedDb,
    env: &mut Env,
    answers: &mut A,
) -> Result<u32, EvalEnd>
    requires database { A.database answers.old ≡ db.now }
    requires time { env.old.packet.stamp < STAMP_END }
    ensures database { A.database answers.new ≡ A.database answers.old }
    ensures packet { env.new.packet ≡ env.old.packet }
    ensures value { Counts A.content A.told db.now
        (code_value db.now (layer.Binary op (code_val db.now parts.entry.0.now) (code_val db.now parts.entry.1.now)))
        (env.old, answers.old) result (env.new, answers.new) }
{
    if !by_numbers(op, parts.0, parts.1) {
        return comparison(alloc, op, parts, db, env, answers);
    }
    let x = evaluate_number(alloc, parts.0, db, env, answers)?;
    let y = evaluate_number(alloc, parts.1, db, env, answers)?;
    of_numbers(op, x, y)
}

/// The same where the parts may be no numbers.
#[cycle(parts)]
fn comparison<A: Answers>(
    alloc: Global,
    op: Operator,
    parts: (&ExprCode, &ExprCode),
    db: &CheckedDb,
    env: &mut Env,
    answers: &mut A,
) -> Result<u32, EvalEnd>
    requires database { A.database answers.old ≡ db.now }
    requires time { env.old.packet.stamp < STAMP_END }
    ensures database { A.database answers.new ≡ A.database answers.old }
    ensures packet { env.new.packet ≡ env.old.packet }
    ensures value { Counts A.content A.told db.now
        (code_value db.now (layer.Binary op (code_val db.now parts.entry.0.now) (code_val db.now parts.entry.1.now)))
        (env.old, answers.old) result (env.new, answers.new) }
{
    let x = evaluate(alloc, parts.0, db, env, answers)?;
    let y = evaluate(alloc, parts.1, db, env, answers)?;
    operators::binary(op, &x, &y, env)
}

/// The range is where the slice begins, and how many bytes it has.
#[cycle(parts)]
fn slice<A: Answers>(
    alloc: Global,
    base: &ExprCode,
    range: (&ExprCode, &ExprCode),
    db: &CheckedDb,
    env: &mut Env,
    answers: &mut A,
) -> Result<Operand, EvalEnd>
    requires database { A.database answers.old ≡ db.now }
    requires time { env.old.packet.stamp < STAMP_END }
    ensures database { A.database answers.new ≡ A.database answers.old }
    ensures packet { env.new.packet ≡ env.old.packet }
    ensures value { Yields A.content A.told db.now
        (code_value db.now (layer.Slice (code_val db.now base.now)
        (code_val db.now range.entry.0.now) (code_val db.now range.entry.1.now)))
        (env.old, answers.old) result (env.new, answers.new) }
{
    let base = evaluate(alloc, base, db, env, answers)?;
    let from = evaluate_number(alloc, range.0, db, env, answers)?;
    let count = evaluate_number(alloc, range.1, db, env, answers)?;
    values::slice(alloc, &base, env, from, count)
}

#[cycle(parts)]
fn to_number<A: Answers>(
    alloc: Global,
    x: &ExprCode,
    db: &CheckedDb,
    env: &mut Env,
    answers: &mut A,
) -> Result<u32, EvalEnd>
    requires database { A.database answers.old ≡ db.now }
    requires time { env.old.packet.stamp < STAMP_END }
    ensures database { A.database answers.new ≡ A.database answers.old }
    ensures packet { env.new.packet ≡ env.old.packet }
    ensures value { Counts A.content A.told db.now
        (code_value db.now (layer.ToNumber (code_val db.now x.now)))
        (env.old, answers.old) result (env.new, answers.new) }
{
    match x {
        ExprCode::Field(numbers) => reads::field_number(numbers, env),
        _ => converted(alloc, x, db, env, answers),
    }
}

/// The same by way of what the part gives.
#[cycle(parts)]
fn converted<A: Answers>(
    alloc: Global,
    x: &ExprCode,
    db: &CheckedDb,
    env: &mut Env,
    answers: &mut A,
) -> Result<u32, EvalEnd>
    requires database { A.database answers.old ≡ db.now }
    requires time { env.old.packet.stamp < STAMP_END }
    ensures database { A.database answers.new ≡ A.database answers.old }
    ensures packet { env.new.packet ≡ env.old.packet }
    ensures value { Counts A.content A.told db.now
        (code_value db.now (layer.ToNumber (code_val db.now x.now)))
        (env.old, answers.old) result (env.new, answers.new) }
{
    let x = evaluate(alloc, x, db, env, answers)?;
    operators::to_number(&x, env)
}

#[cycle(parts)]
fn length_of<A: Answers>(
    alloc: Global,
    x: &ExprCode,
    db: &CheckedDb,
    env: &mut Env,
    answers: &mut A,
) -> Result<u32, EvalEnd>
    requires database { A.database answers.old ≡ db.now }
    requires time { env.old.packet.stamp < STAMP_END }
    ensures database { A.database answers.new ≡ A.database answers.old }
    ensures packet { env.new.packet ≡ env.old.packet }
    ensures value { Counts A.content A.told db.now
        (code_value db.now (layer.LengthOf (code_val db.now x.now)))
        (env.old, answers.old) result (env.new, answers.new) }
{
    let x = evaluate(alloc, x, db, env, answers)?;
    Ok(operators::length_of(&x, env))
}

#[cycle(parts)]
fn to_bytes<A: Answers>(
    alloc: Global,
    x: &ExprCode,
    size: u32,
    db: &CheckedDb,
    env: &mut Env,
    answers: &mut A,
) -> Result<Operand, EvalEnd>
    requires database { A.database answers.old ≡ db.now }
    requires time { env.old.packet.stamp < STAMP_END }
    ensures database { A.database answers.new ≡ A.database answers.old }
    ensures packet { env.new.packet ≡ env.old.packet }
    ensures value { Yields A.content A.told db.now
        (code_value db.now (layer.ToBytes (code_val db.now x.now) size))
        (env.old, answers.old) result (env.new, answers.new) }
{
    let x = evaluate_number(alloc, x, db, env, answers)?;
    values::to_bytes(alloc, x, size)
}

#[cycle(parts)]
fn has_text<A: Answers>(
    alloc: Global,
    x: &ExprCode,
    text: &Bytes,
    db: &CheckedDb,
    env: &mut Env,
    answers: &mut A,
) -> Result<u32, EvalEnd>
    requires database { A.database answers.old ≡ db.now }
    requires time { env.old.packet.stamp < STAMP_END }
    ensures database { A.database answers.new ≡ A.database answers.old }
    ensures packet { env.new.packet ≡ env.old.packet }
    ensures value { Counts A.content A.told db.now
        (code_value db.now (layer.HasText (code_val db.now x.now) text.now))
        (env.old, answers.old) result (env.new, answers.new) }
{
    let x = evaluate(alloc, x, db, env, answers)?;
    Ok(operators::has_text(&x, text, env))
}

/// A look-up: its keys, and then one question. A table that isn't declared has nothing to hit, and then no key is
/// evaluated.
#[cycle(parts)]
fn look_up<A: Answers>(
    alloc: Global,
    asked: Asked,
    parts: &[ExprCode],
    db: &CheckedDb,
    env: &mut Env,
    answers: &mut A,
) -> Result<u32, EvalEnd>
    requires database { A.database answers.old ≡ db.now }
    requires time { env.old.packet.stamp < STAMP_END }
    ensures database { A.database answers.new ≡ A.database answers.old }
    ensures packet { env.new.packet ≡ env.old.packet }
    ensures value { Counts A.content A.told db.now
        (Expression.look_up (slice_get db.now.tables asked.table) asked.table asked.renew
        (map (code_val db.now) parts.now))
        (env.old, answers.old) result (env.new, answers.new) }
{
    match db.database().tables.get(asked.table) {
        Some(declared) => {
            let sizes = declared.keys.as_slice();
            let keys = keys(alloc, parts, sizes, db, env, answers)?;
            look(db, asked.table as u8, keys, asked.renew, env, answers)
        }
        None => Ok(0),
    }
}

/// The keys of a look-up, each checked for its size right after it is evaluated. KeySize: one has a wrong size,
/// or is missing.
#[cycle(parts)]
fn keys<A: Answers>(
    alloc: Global,
    parts: &[ExprCode],
    sizes: &[KeyDecl],
    db: &CheckedDb,
    env: &mut Env,
    answers: &mut A,
) -> Result<Keys, EvalEnd>
    requires database { A.database answers.old ≡ db.now }
    requires time { env.old.packet.stamp < STAMP_END }
    ensures database { A.database answers.new ≡ A.database answers.old }
    ensures packet { env.new.packet ≡ env.old.packet }
    ensures fits { IfOk result (λ ks. keys_fit (map (λ k. k.size) sizes.now) ks ≡ true) }
    ensures value { Evaluates db.now
        (keys_from [] (map (λ k. k.size) sizes.now) (map (code_val db.now) parts.now)) itself
        (point env.old (A.content answers.old) (A.told answers.old)) result
        (point env.new (A.content answers.new) (A.told answers.new)) }
{
    let mut keys = Keys::new(alloc);
    for (i, part) in parts.iter().enumerate() {
        let size = match sqlite_items::at(sizes, i) {
            Some(declaration) => declaration.size,
            None => return Ok(keys),
        };
        let x = evaluate(alloc, part, db, env, answers)?;
        keys.push(operators::key(alloc, &x, size, env)?)?;
    }
    if parts.len() < sizes.len() {
        return Err(EvalEnd::Fault(Reason::KeySize));
    }
    Ok(keys)
}
