ghost use Rattle.std.specs.Prelude.{◌≡◌, [], Some, IfOk};

use db_examples::keyed_database;
use db_model::{
    Answer, Answers, Bytes, CheckedDb, Env, Expr, FieldValues, MOST_BYTES, NoMemory, Packet,
    Question, Reason, Sequence, Stamp, Value,
};
use expr_code::code_of;
use expr_eval::{EvalEnd, eval};
use expr_text::{ExprFail, parse_expr};
use std::alloc::Global;
use std::test::Fail;

/// Answers out of a session without tables, and tells each pair.
#[derive(Drop)]
struct NoTables<'a> {
    db: &'a CheckedDb,
    pairs: Sequence<(Question, Answer)>,
}

impl Answers for NoTables<'_> {
    ghost database = { λ s. s.db.now };

    ghost content = { λ s. [] };

    ghost told = { λ s. Some s.pairs };

    fn ask(&mut self, question: &Question, _t: Stamp) -> Result<Answer, NoMemory> {
        let answer = match question {
            Question::Look { .. } => Answer::Miss,
            Question::Add { .. } => Answer::Done,
        };
        self.pairs.push(pair(question, &answer)?)?;
        Ok(answer)
    }
}

fn pair(question: &Question, answer: &Answer) -> Result<(Question, Answer), NoMemory>
    ensures { IfOk result (λ p. p ≡ (question.now, answer.now)) }
{
    Ok((question.clone()?, answer.clone()?))
}

/// What an expression comes to.
#[derive(Clone, Copy)]
enum Wanted {
    Num(u32),
    Buf(&'static [u8]),
    Lacks(Reason),
}

/// The values of the protocol's first field that are decoded.
type Decoded = &'static [&'static [u8]];

/// An expression, how many questions are left, which values of the field `f` are decoded, what it comes to, and how
/// many questions it asks.
type Case = (&'static [u8], u32, Decoded, Wanted, usize);

/// Expressions over the database with one table and the packet `abcde`.
const CASES: [Case; 17] = [
    (b"1+2*3", 9, &[], Wanted::Num(7), 0),
    (b"'abc'[1:2]", 9, &[], Wanted::Buf(b"\x62\x63"), 0),
    (b"$packet[1:4][1:3]", 9, &[], Wanted::Buf(b"cde"), 0),
    (b"buf2int('\\x01\\x02')", 9, &[], Wanted::Num(258), 0),
    (b"3-5", 9, &[], Wanted::Lacks(Reason::Range), 0),
    (b"7 mod 0", 9, &[], Wanted::Lacks(Reason::Zero), 0),
    (b"'abc'[1:3]", 9, &[], Wanted::Lacks(Reason::Slice), 0),
    (b"buf2int('')", 9, &[], Wanted::Lacks(Reason::Size), 0),
    (b"int2buf(256,1)", 9, &[], Wanted::Lacks(Reason::Range), 0),
    (b"f", 1, &[], Wanted::Lacks(Reason::NoField), 0),
    (b"f", 1, &[b"one", b"two"], Wanted::Buf(b"two"), 0),
    (b"$t.d", 1, &[], Wanted::Lacks(Reason::NoHit), 0),
    (
        b"checklookuptable(t,'ab')",
        1,
        &[],
        Wanted::Lacks(Reason::KeySize),
        0,
    ),
    (
        b"checklookuptable(t)",
        1,
        &[],
        Wanted::Lacks(Reason::KeySize),
        0,
    ),
    (b"checklookuptable(t,'a')", 1, &[], Wanted::Num(0), 1),
    (
        b"checklookuptable(t,'a')",
        0,
        &[],
        Wanted::Lacks(Reason::Questions),
        0,
    ),
    (b"checklookuptable(other,'ab')", 1, &[], Wanted::Num(0), 0),
];

/// No bytes where there are too many.
fn copy(alloc: Global, bytes: &[u8]) -> Result<Bytes, NoMemory> {
    if bytes.len() > MOST_BYTES {
        return Bytes::copy_of(alloc, b"");
    }
    Bytes::copy_of(alloc, bytes)
}

fn packet(alloc: Global) -> Result<Packet, NoMemory>
    ensures { IfOk result (λ p. p.stamp ≡ 5) }
{
    Ok(Packet {
        number: 0,
        link: 1,
        stamp: 5,
        length: 60,
        bytes: copy(alloc, b"abcde")?,
    })
}

fn present(alloc: Global, decoded: Decoded) -> Result<FieldValues, NoMemory> {
    let mut values = FieldValues::new(alloc);
    for value in decoded {
        values.push(0, copy(alloc, value)?)?;
    }
    Ok(values)
}

/// What an expression gives with so many questions left, and how many it asked.
fn evaluated(
    alloc: Global,
    db: &CheckedDb,
    e: &Expr,
    questions: u32,
    decoded: Decoded,
) -> Result<(Result<Value, EvalEnd>, usize), NoMemory> {
    let packet = packet(alloc)?;
    let mut env = Env::start(alloc, db, &packet)?;
    env.questions = questions;
    env.present = present(alloc, decoded)?;
    let mut answers = NoTables {
        db,
        pairs: Sequence::new(alloc),
    };
    let code = code_of(alloc, e, db, 0)?;
    let value = eval(alloc, &code, db, &mut env, &mut answers);
    Ok((value, answers.pairs.len()))
}

fn is_wanted(end: &Result<Value, EvalEnd>, wanted: Wanted) -> bool {
    match (end, wanted) {
        (Ok(Value::Num(n)), Wanted::Num(m)) => *n == m,
        (Ok(Value::Buf(bytes)), Wanted::Buf(others)) => bytes.as_slice() == others,
        (Err(EvalEnd::Fault(reason)), Wanted::Lacks(other)) => *reason == other,
        _ => false,
    }
}

/// Whether the expression of a case comes to what is wanted, and asks so many questions.
fn comes_to(alloc: Global, db: &CheckedDb, case: &Case) -> Result<bool, ExprFail> {
    let (text, questions, decoded, wanted, asked) = *case;
    let e = parse_expr(alloc, text)?;
    let found = evaluated(alloc, db, &e, questions, decoded);
    drop(e);
    let (end, count) = found?;
    Ok(is_wanted(&end, wanted) && count == asked)
}

/// The place of the first case that comes to something else.
fn first_wrong(alloc: Global, db: &CheckedDb) -> Result<Option<usize>, ExprFail> {
    for (i, case) in CASES.iter().enumerate() {
        if !comes_to(alloc, db, case)? {
            return Ok(Some(i));
        }
    }
    Ok(None)
}

fn first_wrong_over_the_sample(alloc: Global) -> Result<Option<usize>, ExprFail> {
    let db = match keyed_database(alloc) {
        Ok(db) => db,
        Err(fail) => return Err(ExprFail::from(fail)),
    };
    let wrong = first_wrong(alloc, &db);
    db.discard();
    wrong
}

#[test]
fn expressions_come_to_what_is_wanted(rt: HostRuntime) -> Result<(), Fail> {
    let wrong = first_wrong_over_the_sample(rt.alloc())?;
    assert!(rt; wrong.is_none());
    Ok(())
}
