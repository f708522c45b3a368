//! Bytes as hex digits, two for each.

fn digit(byte: u8) -> Option<u8> {
    match byte {
        b'0'..=b'9' => Some(byte - b'0'),
        b'a'..=b'f' => Some(byte - b'a' + 10),
        _ => None,
    }
}

/// Puts the bytes that digits are behind those that are there.
pub fn read(bytes: &mut Vec<u8>, digits: &str) -> Option<()> {
    for pair in digits.as_bytes().chunks(2) {
        let high = digit(*pair.first()?)?;
        let low = digit(*pair.get(1)?)?;
        bytes.push(high.wrapping_mul(16).wrapping_add(low)).ok()?;
    }
    Some(())
}

fn letter(digit: u8) -> char {
    match digit {
        0..=9 => (b'0' + digit) as char,
        _ => (b'a' + (digit % 16).saturating_sub(10)) as char,
    }
}

/// Puts the digits of bytes behind a text.
pub fn write(text: &mut String, bytes: &[u8]) -> Option<()> {
    for byte in bytes {
        text.push(letter(byte / 16)).ok()?;
        text.push(letter(byte % 16)).ok()?;
    }
    Some(())
}
