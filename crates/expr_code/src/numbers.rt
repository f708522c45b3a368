ghost use Rattle.std.specs.Prelude.{◌≡◌, IfOk};
ghost use Rattle.expr_code.specs.Code;

use crate::FieldNumbers;
use db_model::{Name, NoMemory};
use std::alloc::Global;

/// The numbers of the fields of this name, where all the fields have these names.
pub fn numbers_of(alloc: Global, fields: &[Name], name: &[u8]) -> Result<FieldNumbers, NoMemory>
    ensures { IfOk result (λ n. n ≡ Code.numbers_of fields.now name.now) }
{
    let mut numbers = FieldNumbers::new(alloc);
    let mut number = 0u32;
    let mut left = fields;
    while let [field, others @ ..] = left {
        if name == field.as_slice() {
            numbers.push(number)?;
        }
        number = number.checked_add(1).ok_or(NoMemory)?;
        left = others;
    }
    Ok(numbers)
}
