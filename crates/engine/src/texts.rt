ghost use Rattle.std.specs.Prelude.{◌≡◌, [], IfOk, OnOk};
ghost use Rattle.engine.specs.Texts.{HasClosings, text_if};

use db_model::NoMemory;
use std::alloc::Global;

/// Which texts of packets are wanted. One that isn't is not made.
#[derive(Clone, Copy)]
pub struct Wanted {
    pub pdml: bool,
    pub psml: bool,
}

/// The texts of a packet, empty where it isn't wanted. The buffers are kept from packet to packet.
#[derive(Drop)]
pub struct Texts {
    pub pdml: Vec<u8>,
    pub psml: Vec<u8>,
}

impl Texts {
    /// No text yet. Takes no memory.
    pub fn new(alloc: Global) -> Texts
        ensures pdml { result.pdml.items ≡ [] }
        ensures psml { result.psml.items ≡ [] }
    {
        Texts {
            pdml: Vec::new(alloc),
            psml: Vec::new(alloc),
        }
    }

    /// No text yet, and room for texts as long as these.
    pub fn like(alloc: Global, texts: &Texts) -> Result<Texts, NoMemory>
        ensures pdml { IfOk result (λ made. made.pdml.items ≡ []) }
        ensures psml { IfOk result (λ made. made.psml.items ≡ []) }
    {
        Ok(Texts {
            pdml: Vec::with_capacity(alloc, texts.pdml.len())?,
            psml: Vec::with_capacity(alloc, texts.psml.len())?,
        })
    }
}

/// Puts bytes into a buffer, in place of what it has, where they are wanted, and else empties it.
pub fn put(text: &mut Vec<u8>, wanted: bool, bytes: &[u8]) -> Result<(), NoMemory>
    ensures { OnOk result (text.new.items ≡ text_if wanted bytes.now) }
{
    text.clear();
    if wanted {
        text.extend_from_slice(bytes)?;
    }
    Ok(())
}

/// Puts the closings of the wanted outputs into the buffers.
pub fn put_closings(wanted: Wanted, texts: &mut Texts) -> Result<(), NoMemory>
    ensures { OnOk result (HasClosings wanted texts.new) }
{
    put(&mut texts.pdml, wanted.pdml, pdml_out::closing())?;
    put(&mut texts.psml, wanted.psml, psml_out::closing())
}
