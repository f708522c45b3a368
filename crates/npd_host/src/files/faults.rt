ghost use Rattle.std.specs.Prelude.{◌≡◌, [], ℕ, List, OnOk};
ghost use Rattle.std.specs.List.{position};
ghost use Rattle.npd_host.specs.declared.host.CallKind.{CallKind};
ghost use Rattle.npd_host.specs.Host.{NoneFalls, Rose};
ghost use Rattle.npd_host.specs.FileHost.{faults_of, is_of, HasCounts};

use crate::counts::Counts;
use crate::host::CallKind;
use db_model::{NoMemory, Word};
use std::alloc::Global;
use std::marker::Model;

/// How often each kind of call has failed on a name.
#[derive(Drop)]
pub struct NameFaults {
    pub name: Word,
    pub counts: Counts,
}

/// The faults of each name.
#[derive(Drop)]
pub struct Faults {
    names: Vec<NameFaults>,
}

impl Model for Faults {
    ghost use Rattle.std.specs.Prelude.{List};
    ghost use Rattle.npd_host.specs.declared.files.faults.NameFaults.{NameFaults};

    ghost Value = { List NameFaults };

    ghost view = { λ faults. faults.names.items };
}

impl Faults {
    /// Takes no memory.
    pub fn new(alloc: Global) -> Faults
        ensures { result ≡ [] }
    {
        Faults {
            names: Vec::new(alloc),
        }
    }

    /// Gives a name its counts, where it has none yet.
    pub fn add(&mut self, alloc: Global, name: &str) -> Result<(), NoMemory>
        ensures added { OnOk result (HasCounts self.new name.now) }
        ensures kept { (other : List ℕ) → HasCounts self.old other → HasCounts self.new other }
        ensures same { (kind : CallKind) (other : List ℕ) →
            faults_of self.new kind other ≡ faults_of self.old kind other }
    {
        if place_of(&self.names, name).is_some() {
            return Ok(());
        }
        let name = Word::copy_of(alloc, name)?;
        self.names.push(NameFaults {
            name,
            counts: Counts::ZERO,
        })?;
        Ok(())
    }

    /// Raises a count of a name.
    pub fn raise(&mut self, kind: CallKind, name: &str)
        requires { HasCounts self.old name.now }
        ensures rose { Rose (faults_of self.old kind name.now) (faults_of self.new kind name.now) }
        ensures later { NoneFalls (faults_of self.old) (faults_of self.new) }
        ensures kept { (other : List ℕ) → HasCounts self.old other → HasCounts self.new other }
    {
        if let Some(place) = place_of(&self.names, name) {
            let entry = &mut self.names[place];
            entry.counts.raise(kind);
        }
    }
}

fn place_of(faults: &[NameFaults], name: &str) -> Option<usize>
    ensures { result ≡ position (is_of name.now) faults.now }
{
    faults.iter().position(|entry| entry.name.as_str() == name)
}
