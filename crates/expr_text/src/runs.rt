ghost use Rattle.std.specs.Prelude.{◌≡◌, ◌<◌, ◌≤◌, ◌+◌, IsTrue, length};
ghost use Rattle.std.specs.List.{prefix_len};
ghost use Rattle.std.specs.Char.{is_ascii_digit, is_ascii_hexdigit};
ghost use Rattle.db_model.specs.Name;
ghost use Rattle.expr_text.specs.Lexing;

use db_model::continues_name;

/// Whether this byte comes next.
pub fn follows(byte: u8, bytes: &[u8]) -> bool
    ensures value { result ≡ Lexing.follows byte bytes.now }
    ensures within { IsTrue result → 0 < length bytes.now }
{
    match bytes.split_first() {
        None => false,
        Some((first, _)) => *first == byte,
    }
}

fn word_len(bytes: &[u8]) -> usize
    ensures len { result ≡ prefix_len Name.continues_name bytes.now }
    ensures within { result ≤ length bytes.now }
{
    bytes
        .iter()
        .take_while(|byte| continues_name(**byte))
        .count()
}

/// The longest front whose bytes go on with a name.
pub fn word_run(bytes: &[u8]) -> &[u8]
    ensures value { result.now ≡ Lexing.run Name.continues_name bytes.now }
    ensures within { length result.now ≤ length bytes.now }
{
    &bytes[..word_len(bytes)]
}

fn digits_len(bytes: &[u8]) -> usize
    ensures len { result ≡ prefix_len is_ascii_digit bytes.now }
    ensures within { result ≤ length bytes.now }
{
    bytes
        .iter()
        .take_while(|byte| byte.is_ascii_digit())
        .count()
}

/// The longest front of decimal digits.
pub fn digits_run(bytes: &[u8]) -> &[u8]
    ensures value { result.now ≡ Lexing.run is_ascii_digit bytes.now }
    ensures within { length result.now ≤ length bytes.now }
{
    &bytes[..digits_len(bytes)]
}

fn hex_len(bytes: &[u8]) -> usize
    ensures len { result ≡ prefix_len is_ascii_hexdigit bytes.now }
    ensures within { result ≤ length bytes.now }
{
    bytes
        .iter()
        .take_while(|byte| byte.is_ascii_hexdigit())
        .count()
}

/// The hex digits behind `0x`; none where it isn't there.
#[tactic(auto, unfolding(crate::specs::Lexing::hex_run))]
pub fn hex_run(bytes: &[u8]) -> &[u8]
    ensures value { result.now ≡ Lexing.hex_run bytes.now }
    ensures within { 0 < length result.now → 2 + length result.now ≤ length bytes.now }
{
    let Some((zero, behind)) = bytes.split_first() else {
        return bytes;
    };
    let Some((x, digits)) = behind.split_first() else {
        return behind;
    };
    if *zero == b'0' && *x == b'x' {
        &digits[..hex_len(digits)]
    } else {
        &digits[..0]
    }
}
