ghost use Rattle.std.specs.Prelude.{◌≡◌, false, IfOk};
ghost use Rattle.db_model.specs.declared.question.Question.TheVariants.{Look};

use db_model::{Answer, Keys, NoMemory, Question};

/// A copy of a question.
pub fn question(asked: &Question) -> Result<Question, NoMemory>
    ensures { IfOk result (λ q. q ≡ asked.now) }
{
    Ok(asked.clone()?)
}

/// A copy of an answer.
pub fn answer(given: &Answer) -> Result<Answer, NoMemory>
    ensures { IfOk result (λ a. a ≡ given.now) }
{
    Ok(given.clone()?)
}

/// A look-up for these keys that doesn't renew.
pub fn plain_look(table: u8, keys: &Keys) -> Result<Question, NoMemory>
    ensures { IfOk result (λ q. q ≡ Look table keys.now false) }
{
    Ok(Question::Look {
        table,
        keys: keys.clone()?,
        renew: false,
    })
}
