ghost use Rattle.std.specs.Prelude.{◌≡◌, [], ◌∷◌, OnOk, length};
ghost use Rattle.db_text.specs.Machine;

use db_model::NoMemory;
use std::alloc::Global;
use std::marker::Model;

/// The names of the open elements, seen as a list with the innermost first. They stand in one run of bytes, each
/// from its start on.
#[derive(Drop)]
pub struct Names {
    bytes: Vec<u8>,
    starts: Vec<usize>,
}

impl Model for Names {
    ghost use Rattle.std.specs.Prelude.{List, ℕ, reverse, length};
    ghost use Rattle.db_text.specs.Runs.{runs, AreWithin};

    ghost Value = { List (List ℕ) };

    ghost view = { λ n. runs (reverse n.starts.items) n.bytes.items };

    ghost invariant = { λ n. AreWithin (reverse n.starts.items) (length n.bytes.items) };
}

impl Names {
    /// Takes no memory.
    pub fn new(alloc: Global) -> Names
        ensures { result ≡ [] }
    {
        Names {
            bytes: Vec::new(alloc),
            starts: Vec::new(alloc),
        }
    }

    /// A name begins with a byte.
    #[tactic(auto, using(crate::proofs::Runs::opened, crate::proofs::Runs::pushed_within))]
    pub fn open(&mut self, byte: u8) -> Result<(), NoMemory>
        ensures { OnOk result (self.new ≡ (byte ∷ []) ∷ self.old) }
    {
        self.starts.push(self.bytes.len())?;
        self.bytes.push(byte)?;
        Ok(())
    }

    /// The innermost name goes on.
    #[tactic(auto, using(crate::proofs::Runs::added_runs, crate::proofs::Runs::pushed_within))]
    pub fn add(&mut self, byte: u8) -> Result<(), NoMemory>
        ensures { OnOk result (self.new ≡ Machine.added byte self.old) }
    {
        self.bytes.push(byte)?;
        Ok(())
    }

    /// Takes the innermost name away.
    pub fn pop(&mut self)
        ensures { self.new ≡ Machine.popped self.old }
    {
        if let Some(start) = self.starts.pop() {
            self.bytes.truncate(start);
        }
    }

    /// The innermost name; empty where none is open.
    pub fn top(&self) -> &[u8]
        ensures { result.now ≡ Machine.top_of self.now }
    {
        match self.starts.last() {
            None => &self.bytes[..0],
            Some(start) => &self.bytes[*start..],
        }
    }

    #[tactic(auto, using(crate::proofs::Runs::empty_of))]
    pub fn is_empty(&self) -> bool
        ensures { result ≡ Machine.is_empty self.now }
    {
        self.depth() == 0
    }

    /// How many names there are.
    #[tactic(auto, using(crate::proofs::Runs::depth_of))]
    pub fn depth(&self) -> usize
        ensures { result ≡ length self.now }
    {
        self.starts.len()
    }
}
