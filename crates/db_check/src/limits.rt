//! Numbers that are out of their limits.

ghost use Rattle.std.specs.Prelude.{◌≡◌, ◌^◌, nat_le, length, false};
ghost use Rattle.db_model.specs.declared.limits.TheConstants.{MOST_BIT_SIZE, MOST_TOKEN};
ghost use Rattle.db_model.specs.NumberFaults;

use db_model::{
    FieldForm, LEAST_ALIGNMENT, MOST_ALIGNMENT, MOST_BIT_SIZE, MOST_COLUMN_SIZE,
    MOST_DECIMAL_GROUP, MOST_FIXED, MOST_GROUP, MOST_TOKEN, ShowType,
};

pub fn is_outside(low: u32, high: u32, n: u32) -> bool
    ensures { result ≡ NumberFaults.is_outside low high n }
{
    n < low || high < n
}

/// Whether a mask has a bit above these bytes, of which there are at least one and at most four.
fn is_too_wide(size: u32, mask: u32) -> bool
    requires { NumberFaults.is_outside 1 MOST_BIT_SIZE size ≡ false }
    ensures { result ≡ nat_le (256 ^ size) mask }
{
    match size {
        1 => 256 <= mask,
        2 => 65_536 <= mask,
        3 => 16_777_216 <= mask,
        _ => false,
    }
}

fn is_long(token: &[u8]) -> bool
    ensures { result ≡ NumberFaults.is_outside 1 MOST_TOKEN (length token.now) }
{
    token.is_empty() || token.len() > MOST_TOKEN as usize
}

pub fn form_is_outside(form: &FieldForm) -> bool
    ensures { result ≡ NumberFaults.form_is_outside form.now }
{
    match form {
        FieldForm::Fixed { size } => is_outside(1, MOST_FIXED, *size),
        FieldForm::Bit { size, mask } => {
            is_outside(1, MOST_BIT_SIZE, *size) || *mask == 0 || is_too_wide(*size, *mask)
        }
        FieldForm::TokenEnded { token } => is_long(token.as_slice()),
        FieldForm::Padding { align } => is_outside(LEAST_ALIGNMENT, MOST_ALIGNMENT, *align),
        _ => false,
    }
}

pub fn is_zero(seconds: Option<u32>) -> bool
    ensures { result ≡ NumberFaults.is_zero seconds }
{
    match seconds {
        None => false,
        Some(seconds) => seconds == 0,
    }
}

pub fn group_is_outside(show_type: ShowType, group: u32) -> bool
    ensures { result ≡ NumberFaults.group_is_outside show_type group }
{
    match show_type {
        ShowType::Hex => MOST_GROUP < group,
        ShowType::Dec => is_outside(1, MOST_DECIMAL_GROUP, group),
        ShowType::Ascii => MOST_GROUP < group,
    }
}

pub fn size_is_outside(size: Option<u32>) -> bool
    ensures { result ≡ NumberFaults.size_is_outside size }
{
    match size {
        None => false,
        Some(size) => is_outside(1, MOST_COLUMN_SIZE, size),
    }
}
