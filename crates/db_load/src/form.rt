//! Whether values have their forms.

ghost use Rattle.std.specs.Prelude.{◌≡◌, ◌<◌, ◌≤◌, length, is_some, IfOk, IsTrue};
ghost use Rattle.std.specs.List.{list_all};
ghost use Rattle.db_model.specs.Forms as model;
ghost use Rattle.db_load.specs.Forms;

use crate::Form;
use crate::choice::{
    ENTRY_VALIDITIES, FIELD_TYPES, HEADER_PARTS, LOOP_CONTROLS, LOOP_TYPES, SHOW_TYPES,
    UPDATE_ACTIONS, VALUE_TYPES, VARIABLE_VALIDITIES, is_choice,
};
use crate::expression::{literal_of, parsed, quoted_of};
use crate::mask::mask_of;
use db_model::{MOST_NAME, MOST_SEPARATOR, MOST_TEXT, NoMemory, is_name};
use expr_text::number_of;
use std::alloc::Global;

fn all_printable(text: &[u8]) -> bool
    ensures { result ≡ list_all (model.is_between 32 126) text.now }
{
    text.iter().all(|b| 32 <= *b && *b <= 126)
}

/// Whether bytes are few enough for a text, and printable.
pub fn is_text(text: &[u8]) -> bool
    ensures value { result ≡ model.is_text text.now }
    ensures bound { IsTrue result → length text.now ≤ 64 }
{
    text.len() <= MOST_TEXT as usize && all_printable(text)
}

/// Whether a text isn't empty and is a text.
pub fn is_section(text: &[u8]) -> bool
    ensures value { result ≡ Forms.is_section text.now }
    ensures bound { IsTrue result → (0 < length text.now) × (length text.now ≤ MOST_NAME) }
{
    text.len() > 0 && is_text(text)
}

/// Whether a text is `$` and a name.
pub fn is_variable_name(text: &[u8]) -> bool
    ensures { result ≡ Forms.is_variable_name text.now }
{
    match text {
        [b'$', name @ ..] => is_name(name),
        _ => false,
    }
}

/// Whether a value of this form is an expression or a part of one.
#[tactic(auto, unfolding(crate::specs::Forms::is_parsed))]
pub fn is_parsed(form: Form) -> bool
    ensures { result ≡ Forms.is_parsed form }
{
    matches!(form, Form::Expr | Form::Literal | Form::Quoted)
}

/// Whether something was found, which is let go.
fn is_found<T: Drop>(found: Option<T>) -> bool
    ensures { result ≡ is_some found }
{
    found.is_some()
}

/// Whether a value has the form.
#[tactic(auto, unfolding(crate::specs::Forms::has_form))]
pub fn has_form(alloc: Global, form: Form, value: &[u8]) -> Result<bool, NoMemory>
    ensures { IfOk result (λ is_so. is_so ≡ Forms.has_form form value.now) }
{
    Ok(match form {
        Form::Text => is_text(value),
        Form::FilledText => is_section(value),
        Form::Name => is_name(value),
        Form::VariableName => is_variable_name(value),
        Form::Number => number_of(value).is_some(),
        Form::Expr => is_found(parsed(alloc, value)?),
        Form::Literal => is_found(literal_of(alloc, value)?),
        Form::Quoted => is_found(quoted_of(alloc, value)?),
        Form::Separator => is_text(value) && value.len() <= MOST_SEPARATOR as usize,
        Form::Mask => is_found(mask_of(alloc, value)?),
        Form::ValueType => is_choice(value, &VALUE_TYPES),
        Form::VariableValidity => is_choice(value, &VARIABLE_VALIDITIES),
        Form::ShowType => is_choice(value, &SHOW_TYPES),
        Form::HeaderPart => is_choice(value, &HEADER_PARTS),
        Form::FieldType => is_choice(value, &FIELD_TYPES),
        Form::LoopType => is_choice(value, &LOOP_TYPES),
        Form::LoopControl => is_choice(value, &LOOP_CONTROLS),
        Form::UpdateAction => is_choice(value, &UPDATE_ACTIONS),
        Form::EntryValidity => is_choice(value, &ENTRY_VALIDITIES),
    })
}
