ghost use Rattle.std.specs.Prelude.{◌≡◌, ◌≤◌, true, length, take};
ghost use Rattle.std.specs.List.{list_all};
ghost use Rattle.db_text.specs.Machine;
ghost use Rattle.db_text.specs.declared.mode.Mode.TheVariants.{AttributeName};

use crate::bytes::is_name_byte;
use crate::mode::Mode;

/// Whether a byte of a value in these quotes counts as itself and ends no line.
fn is_plain(quote: u8, byte: u8) -> bool
    ensures { result ≡ Machine.is_plain quote byte }
{
    0x20 <= byte && byte <= 0x7E && !(byte == b'<' || byte == b'&' || byte == quote)
}

fn plain(quote: u8, text: &[u8]) -> usize
    ensures plain { list_all (Machine.is_plain quote) (take result text.now) ≡ true }
    ensures within { result ≤ length text.now }
{
    for (i, byte) in text.iter().enumerate() {
        if !is_plain(quote, *byte) {
            return i;
        }
    }
    text.len()
}

fn name_bytes(text: &[u8]) -> usize
    ensures names { list_all (Machine.keeps AttributeName) (take result text.now) ≡ true }
    ensures within { result ≤ length text.now }
{
    for (i, byte) in text.iter().enumerate() {
        if !is_name_byte(*byte) {
            return i;
        }
    }
    text.len()
}

/// How many of the first bytes leave a mode as it is, and only go on with what is being read: most bytes of a text
/// do, and are so passed over without a look at the mode for each.
pub fn staying(mode: Mode, text: &[u8]) -> usize
    ensures keeps { list_all (Machine.keeps mode) (take result text.now) ≡ true }
    ensures within { result ≤ length text.now }
{
    match mode {
        Mode::AttributeName => name_bytes(text),
        Mode::Value { quote } => plain(quote, text),
        _ => 0,
    }
}
