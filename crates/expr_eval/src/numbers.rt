ghost use Rattle.std.specs.Prelude.{◌≡◌, ◌+◌, ◌*◌, ◌^◌, ◌<◌, true, Ok, Err, MatchOption};
ghost use Rattle.db_model.specs.declared.database.Database.{Database};
ghost use Rattle.db_model.specs.declared.value.Value.TheVariants.{Num};
ghost use Rattle.db_model.specs.Expression;
ghost use Rattle.db_model.specs.Expression.{is_so, truth};
ghost use Rattle.expr_code.specs.Meaning.{code_val};
ghost use Rattle.expr_eval.specs.declared.end.EvalEnd.TheVariants.{Fault};
ghost use Rattle.expr_eval.specs.Evaluates.{Gave};
ghost use Rattle.expr_eval.specs.Numbers.{ByNumbers, IsNumber, compares};

use crate::EvalEnd;
use db_model::{MOST_NUMBER_BYTES, Operator, Reason, Special};
use expr_code::ExprCode;

/// 1 where it is so, else 0.
pub fn of_truth(so: bool) -> u32
    ensures { Num result ≡ truth so }
{
    so as u32
}

/// Whether it is other than 0.
pub fn is_so(n: u32) -> bool
    ensures { result ≡ is_so n }
{
    n != 0
}

fn or_reason(n: Option<u32>, reason: Reason) -> Result<u32, EvalEnd>
    ensures { MatchOption n (result ≡ Err (Fault reason)) (λ n. result ≡ Ok n) }
{
    match n {
        Some(n) => Ok(n),
        None => Err(EvalEnd::Fault(reason)),
    }
}

/// Range: a sum, a difference or a product is below 0 or above the greatest number. Zero: a division by 0.
pub fn of_numbers(op: Operator, a: u32, b: u32) -> Result<u32, EvalEnd>
    ensures { Gave Num (Expression.binary op (Num a) (Num b)) result }
{
    match op {
        Operator::Add => or_reason(a.checked_add(b), Reason::Range),
        Operator::Sub => or_reason(a.checked_sub(b), Reason::Range),
        Operator::Mul => or_reason(a.checked_mul(b), Reason::Range),
        Operator::Div => or_reason(a.checked_div(b), Reason::Zero),
        Operator::Mod => or_reason(a.checked_rem(b), Reason::Zero),
        Operator::BitAnd => Ok(a & b),
        Operator::BitOr => Ok(a | b),
        Operator::Lt => Ok(of_truth(a < b)),
        Operator::Le => Ok(of_truth(a <= b)),
        Operator::Gt => Ok(of_truth(a > b)),
        Operator::Ge => Ok(of_truth(a >= b)),
        Operator::Eq => Ok(of_truth(a == b)),
        Operator::Ne => Ok(of_truth(a != b)),
    }
}

fn joined(high: u32, low: u8) -> u32
    requires { high < 2 ^ 24 }
    ensures { result ≡ 256 * high + low }
{
    256 * high + low as u32
}

/// Size: there is no byte, or there are more than a number has.
pub fn to_number(bytes: &[u8]) -> Result<u32, EvalEnd>
    ensures { Gave Num (Expression.to_number bytes.now) result }
{
    match *bytes {
        [a] => Ok(a as u32),
        [a, b] => Ok(joined(a as u32, b)),
        [a, b, c] => Ok(joined(joined(a as u32, b), c)),
        [a, b, c, d] => Ok(joined(joined(joined(a as u32, b), c), d)),
        _ => Err(EvalEnd::Fault(Reason::Size)),
    }
}

/// Whether it compares values of any type.
pub fn compares(op: Operator) -> bool
    ensures { result ≡ compares op }
{
    match op {
        Operator::Eq | Operator::Ne => true,
        Operator::Add
        | Operator::Sub
        | Operator::Mul
        | Operator::Div
        | Operator::Mod
        | Operator::BitAnd
        | Operator::BitOr
        | Operator::Lt
        | Operator::Le
        | Operator::Gt
        | Operator::Ge => false,
    }
}

/// Whether the form says that each value is a number.
fn gives_number(code: &ExprCode) -> bool
    ensures { (db : Database) → result ≡ true → IsNumber (code_val db code.now) }
{
    match code {
        ExprCode::Number(_n) => true,
        ExprCode::Binary(_op, _x, _y) => true,
        ExprCode::ToNumber(_x) => true,
        ExprCode::LengthOf(_x) => true,
        _ => false,
    }
}

/// Whether the parts of an operation may be taken as numbers.
pub fn by_numbers(op: Operator, x: &ExprCode, y: &ExprCode) -> bool
    ensures { (db : Database) → result ≡ true → ByNumbers op (code_val db x.now) (code_val db y.now) }
{
    if compares(op) {
        gives_number(x) && gives_number(y)
    } else {
        true
    }
}
