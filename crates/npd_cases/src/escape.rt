//! Bytes that a case writes as text: `\n`, `\r`, `\t`, `\\`, and `\x` with two hex digits.

use std::alloc::Global;

/// How far an escape is read.
#[derive(Clone, Copy)]
enum Escape {
    Outside,
    /// Behind the backslash.
    Begun,
    /// Behind `\x`.
    Hex,
    /// Behind `\x` and a digit of this value.
    HexDigit(u8),
}

fn hex_digit(byte: u8) -> Option<u8> {
    match byte {
        b'0'..=b'9' => Some(byte - b'0'),
        b'a'..=b'f' => Some(byte - b'a' + 10),
        b'A'..=b'F' => Some(byte - b'A' + 10),
        _ => None,
    }
}

/// What the byte behind a backslash stands for. None: it begins two hex digits.
fn short(byte: u8) -> Option<Option<u8>> {
    match byte {
        b'n' => Some(Some(b'\n')),
        b'r' => Some(Some(b'\r')),
        b't' => Some(Some(b'\t')),
        b'\\' => Some(Some(b'\\')),
        b'x' => Some(None),
        _ => None,
    }
}

/// The escape behind one more byte, which may add one to the bytes.
fn step(bytes: &mut Vec<u8>, escape: Escape, byte: u8) -> Option<Escape> {
    match escape {
        Escape::Outside => {
            if byte == b'\\' {
                return Some(Escape::Begun);
            }
            bytes.push(byte).ok()?;
            Some(Escape::Outside)
        }
        Escape::Begun => match short(byte)? {
            Some(meant) => {
                bytes.push(meant).ok()?;
                Some(Escape::Outside)
            }
            None => Some(Escape::Hex),
        },
        Escape::Hex => Some(Escape::HexDigit(hex_digit(byte)?)),
        Escape::HexDigit(high) => {
            bytes
                .push(high.wrapping_mul(16).wrapping_add(hex_digit(byte)?))
                .ok()?;
            Some(Escape::Outside)
        }
    }
}

/// The bytes of a text. None: an escape isn't one of these, or isn't ended.
pub fn unescaped(alloc: Global, text: &str) -> Option<Vec<u8>> {
    let mut bytes = Vec::new(alloc);
    let mut escape = Escape::Outside;
    for byte in text.as_bytes() {
        escape = step(&mut bytes, escape, *byte)?;
    }
    match escape {
        Escape::Outside => Some(bytes),
        _ => None,
    }
}
