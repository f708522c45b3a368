ghost use Rattle.std.specs.Prelude.{◌≡◌, ◌+◌, ◌*◌, ◌<◌, ◌≤◌, ◌++◌, OnOk, decimal, slice_index, vec_capacity, vec_len};
ghost use Rattle.hex.specs.Hex.{encode_lower, lower_digits};
ghost use Rattle.show.specs.Stamps;

use db_model::{NoMemory, SECOND, Stamp};
use itoa::Buffer;

/// Adds bytes as they are.
pub fn push(text: &mut Vec<u8>, bytes: &[u8]) -> Result<(), NoMemory>
    ensures { OnOk result (text.new.items ≡ text.old.items ++ bytes.now) }
{
    text.extend_from_slice(bytes)?;
    Ok(())
}

/// The digit of a number below ten.
fn digit(number: u64) -> u8
    requires { number < 10 }
    ensures { result ≡ 48 + number }
{
    b'0' + number as u8
}

/// Adds a number below 1,000 in decimal, with the room asked once.
#[tactic(auto, using(crate::proofs::Digits::one_added, crate::proofs::Digits::two_added, crate::proofs::Digits::three_added))]
fn push_short(text: &mut Vec<u8>, number: u64) -> Result<(), NoMemory>
    requires { number < 1000 }
    ensures { OnOk result (text.new.items ≡ text.old.items ++ decimal number) }
{
    text.reserve(3)?;
    let tens = number / 10;
    if number < 10 {
        text.push_reserved(digit(number));
        Ok(())
    } else if number < 100 {
        text.push_reserved(digit(tens));
        text.push_reserved(digit(number % 10));
        Ok(())
    } else {
        text.push_reserved(digit(tens / 10));
        text.push_reserved(digit(tens % 10));
        text.push_reserved(digit(number % 10));
        Ok(())
    }
}

/// Adds a number in decimal. Most numbers of a packet are short ones.
pub fn push_number(text: &mut Vec<u8>, number: u64) -> Result<(), NoMemory>
    ensures { OnOk result (text.new.items ≡ text.old.items ++ decimal number) }
{
    if number < 1000 {
        return push_short(text, number);
    }
    let mut buffer = Buffer::new();
    push(text, buffer.format(number).as_bytes())
}

const LOWER_DIGITS: [u8; 16] = *b"0123456789abcdef";

/// The digit of a number below 16.
fn hex_digit(number: u8) -> u8
    requires { number < 16 }
    ensures { result ≡ slice_index lower_digits number }
{
    LOWER_DIGITS[number as usize]
}

/// Makes room for two digits for each of so many bytes.
fn make_room(text: &mut Vec<u8>, count: usize) -> Result<(), NoMemory>
    ensures same { text.new.items ≡ text.old.items }
    ensures room { OnOk result (vec_len text.new + 2 * count ≤ vec_capacity text.new) }
{
    match count.checked_mul(2) {
        Some(room) => Ok(text.reserve(room)?),
        None => Err(NoMemory),
    }
}

/// Adds two lower-case digits for each byte, with the room asked once.
pub fn push_hex(text: &mut Vec<u8>, bytes: &[u8]) -> Result<(), NoMemory>
    ensures { OnOk result (text.new.items ≡ text.old.items ++ encode_lower bytes.now) }
{
    make_room(text, bytes.len())?;
    for byte in bytes {
        text.push_reserved(hex_digit(*byte / 16));
        text.push_reserved(hex_digit(*byte % 16));
    }
    Ok(())
}

/// Adds the digits of bytes, a text, and the same digits once more, which are made only once.
pub fn push_hex_twice(text: &mut Vec<u8>, bytes: &[u8], between: &[u8]) -> Result<(), NoMemory>
    ensures { OnOk result (text.new.items ≡
        text.old.items ++ (encode_lower bytes.now ++ (between.now ++ encode_lower bytes.now))) }
{
    let start = text.len();
    push_hex(text, bytes)?;
    let end = text.len();
    push(text, between)?;
    text.extend_from_within(start..end)?;
    Ok(())
}

/// Adds a moment: its seconds, a point, and the rest in nine digits of nanoseconds.
#[tactic(auto, using(std::proofs::lemmas::Fmt::decimal_nonempty), unfolding(crate::specs::Stamps::timestamp))]
pub fn push_timestamp(text: &mut Vec<u8>, stamp: Stamp) -> Result<(), NoMemory>
    ensures { OnOk result (text.new.items ≡ text.old.items ++ Stamps.timestamp stamp) }
{
    push_number(text, stamp / SECOND)?;
    push(text, b".")?;
    let mut rest = Buffer::new();
    let digits = rest.format(SECOND + stamp % SECOND).as_bytes();
    push(text, &digits[1..])
}
