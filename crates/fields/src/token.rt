ghost use Rattle.std.specs.Prelude.{◌≡◌, ◌<◌, ◌^◌, [], ◌∷◌, length};
ghost use Rattle.db_model.specs.Extent.{through};

use memchr::{memchr, memmem};

const LINE_END: u8 = b'\n';

/// How many bytes stand up to and with the first token, or how many there are where none stands whole.
pub fn through(bytes: &[u8], token: &[u8]) -> u32
    requires { length bytes.now < 2 ^ 32 }
    ensures { result ≡ through token.now bytes.now }
{
    match memmem::find(bytes, token) {
        Some(place) => (place + token.len()) as u32,
        None => bytes.len() as u32,
    }
}

/// The same up to and with the first line end.
pub fn through_line(bytes: &[u8]) -> u32
    requires { length bytes.now < 2 ^ 32 }
    ensures { result ≡ through (10 ∷ []) bytes.now }
{
    match memchr(LINE_END, bytes) {
        Some(place) => (place + 1) as u32,
        None => bytes.len() as u32,
    }
}
