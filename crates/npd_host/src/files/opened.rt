ghost use Rattle.std.specs.Prelude.{◌≡◌, ◌<◌, ◌≤◌, ◌++◌, ◌∷◌, [], Some, IfOk, OnOk, IfSome, IsSome, length, slice_get, vec_len, vec_capacity};

use crate::files::streams::{Sink, Source};
use db_model::{NoMemory, Word};
use std::alloc::Global;
use std::io::{Read, Write};
use std::marker::Model;

/// An opened stream, seen as the name that it was opened by.
#[derive(Drop)]
pub struct Opened<S> {
    name: Word,
    stream: S,
}

impl<S> Model for Opened<S> {
    ghost use Rattle.std.specs.Prelude.{List, ℕ};

    ghost Value = { List ℕ };

    ghost view = { λ x. x.name };
}

/// Takes the memory for one stream more and for its name.
pub fn room<S>(alloc: Global, opened: &mut Vec<Opened<S>>, name: &str) -> Result<Word, NoMemory>
    ensures name { IfOk result (λ word. word ≡ name.now) }
    ensures room { OnOk result (vec_len opened.new < vec_capacity opened.new) }
    ensures same { opened.new.items ≡ opened.old.items }
{
    opened.reserve(1)?;
    Ok(Word::copy_of(alloc, name)?)
}

/// Adds a stream, for which there is room. Its place in the list is its id.
pub fn push<S: Drop>(opened: &mut Vec<Opened<S>>, name: Word, stream: S) -> u64
    requires { vec_len opened.old < vec_capacity opened.old }
    ensures place { result ≡ length opened.old.items }
    ensures pushed { opened.new.items ≡ opened.old.items ++ name ∷ [] }
{
    let place = opened.len() as u64;
    match opened.push(Opened { name, stream }) {
        Ok(()) => place,
        Err(_) => unreachable!(),
    }
}

/// The name that a stream was opened by.
pub fn name<S>(opened: &[Opened<S>], place: u64) -> &str
    requires { IsSome (slice_get opened.now place) }
    ensures { slice_get opened.now place ≡ Some result.now }
{
    let stream = &opened[place as usize];
    stream.name.as_str()
}

/// Reads from an input into the front of `buf`, and says how many bytes. None: the read failed.
pub fn read<S: Read, F: Read>(
    inputs: &mut [Opened<Source<S, F>>],
    place: u64,
    buf: &mut [u8],
) -> Option<usize>
    requires { place < length inputs.old }
    ensures bound { IfSome result (λ n. n ≤ length buf.new) }
    ensures same { inputs.new ≡ inputs.old }
{
    let input = &mut inputs[place as usize];
    input.stream.read(buf)
}

/// Writes some of `bytes` to an output, and says how many. None: the write failed, or took nothing.
pub fn write<R: Print, F: Write>(
    outputs: &mut [Opened<Sink<F>>],
    rt: &R,
    place: u64,
    bytes: &[u8],
) -> Option<usize>
    requires { place < length outputs.old }
    ensures bound { IfSome result (λ n. (0 < n) × (n ≤ length bytes.now)) }
    ensures same { outputs.new ≡ outputs.old }
{
    let output = &mut outputs[place as usize];
    output.stream.write(rt, bytes)
}
