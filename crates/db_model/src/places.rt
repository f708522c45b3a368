ghost use Rattle.std.specs.Prelude.{◌≡◌, ◌++◌, ◌∷◌, [], None, OnOk, IfOk, unwrap_or, bytes_eq, map};
ghost use Rattle.std.specs.Map.{lookup};
ghost use Rattle.db_model.specs.NameIndex.{IsPlaces};

use crate::{Declaration, NoMemory};
use indexmap::IndexMap;
use std::alloc::Global;
use std::marker::Model;

/// The number of each name of some declarations, seen as the list of the names with their numbers.
#[derive(Drop)]
pub struct Places {
    numbers: IndexMap<Vec<u8>, usize>,
}

impl Model for Places {
    ghost use Rattle.std.specs.Prelude.{List, ℕ, map};
    ghost use Rattle.std.specs.Coded.{coded_list, coded×, coded_ℕ};

    ghost Value = { List (List ℕ × ℕ) };

    ghost coded = { coded_list (coded× (coded_list coded_ℕ) coded_ℕ) };

    ghost view = { λ p. map (λ e. (e.0.items, e.1)) p.numbers.entries };
}

impl Places {
    fn new(alloc: Global) -> Places
        ensures { result ≡ [] }
    {
        Places {
            numbers: IndexMap::new(alloc),
        }
    }

    fn number_of(&self, name: &[u8]) -> Option<usize>
        ensures { result ≡ lookup (bytes_eq name.now) self.now }
    {
        self.numbers.get(name).copied()
    }

    /// The number of a name, or `count` where it has none.
    pub fn place_of(&self, name: &[u8], count: usize) -> usize
        ensures { result ≡ unwrap_or (lookup (bytes_eq name.now) self.now) count }
    {
        self.number_of(name).unwrap_or(count)
    }

    fn add(&mut self, alloc: Global, name: &[u8], number: usize) -> Result<(), NoMemory>
        requires { lookup (bytes_eq name.now) self.old ≡ None }
        ensures { OnOk result (self.new ≡ self.old ++ (name.now, number) ∷ []) }
    {
        self.numbers.insert(Vec::from_slice(alloc, name)?, number)?;
        Ok(())
    }

    /// The places of the names of declarations, where a name that stands again is not added.
    pub fn of<T: Declaration>(alloc: Global, declarations: &[T]) -> Result<Places, NoMemory>
        ensures { IfOk result (λ places. IsPlaces (map T.named declarations.now) places) }
    {
        let mut places = Places::new(alloc);
        for (i, declaration) in declarations.iter().enumerate() {
            let name = declaration.name();
            match places.number_of(name) {
                Some(_first) => {}
                None => places.add(alloc, name, i)?,
            }
        }
        Ok(places)
    }
}
