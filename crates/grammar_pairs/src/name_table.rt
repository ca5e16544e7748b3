ghost use Rattle.std.specs.Prelude.{◌≡◌, List, [], ℕ, None, Some, OnOk, cond};
ghost use Rattle.std.specs.Option.{option_copied};
ghost use Rattle.std.specs.Str.{bytes_eq};
ghost use Rattle.grammar_pairs.specs.Tables.{under};

use indexmap::IndexMap;
use std::alloc::{AllocError, Global};
use std::marker::Model;

/// Values under names, found by a hash. Contracts see a list of names and values.
#[derive(Drop)]
pub struct NameTable<V> {
    /// The value of each name.
    values: IndexMap<String, V>,
}

impl<V> Model for NameTable<V> {
    ghost use Rattle.std.specs.Prelude.{List, ℕ};
    ghost use Rattle.grammar_pairs.specs.Tables.{named_entries};

    ghost Value = { List (List ℕ × V) };

    ghost view = { λ table. named_entries table.values.entries };
}

impl<V: Drop> NameTable<V> {
    /// No names.
    pub fn new(alloc: Global) -> NameTable<V>
        ensures { result ≡ [] }
    {
        NameTable {
            values: IndexMap::new(alloc),
        }
    }

    /// The value under a name, if there is one.
    pub fn get(&self, name: &str) -> Option<&V>
        ensures { option_copied result ≡ under name.now self.now }
    {
        self.values.get(name)
    }

    /// Puts a value under a name, in place of the one that stood there.
    pub fn put(&mut self, name: &str, value: V) -> Result<(), AllocError>
        ensures { OnOk result ((other : List ℕ) → under other self.new ≡ cond (bytes_eq name.now other) (Some value) (under other self.old)) }
    {
        let owned = String::from_str(*self.values.allocator(), name)?;
        self.values.insert(owned, value)?;
        Ok(())
    }

    /// Takes the value away that stands under a name, if there is one.
    pub fn take(&mut self, name: &str) -> Option<V>
        ensures taken { result ≡ under name.now self.old }
        ensures others { (other : List ℕ) → under other self.new ≡ cond (bytes_eq name.now other) None (under other self.old) }
    {
        self.values.swap_remove(name)
    }
}
