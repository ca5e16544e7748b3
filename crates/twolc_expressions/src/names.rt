ghost use Rattle.std.specs.Prelude.{◌≡◌, ◌++◌, ◌∷◌, [], false, OnOk};
ghost use Rattle.twolc_grammar.specs.Atoms.{is_known, is_one_of, no_names};

use indexmap::IndexSet;
use std::alloc::{AllocError, Global};
use std::marker::Model;

/// The names of the sets and definitions of a text. Contracts see them as two lists of texts.
#[derive(Drop)]
pub struct KnownNames {
    /// Those of sets.
    sets: IndexSet<String>,
    /// Those of definitions.
    definitions: IndexSet<String>,
}

impl Model for KnownNames {
    ghost use Rattle.std.specs.Prelude.{map};
    ghost use Rattle.std.specs.String.{string_bytes};
    ghost use Rattle.twolc_grammar.specs.Atoms.{Names};

    ghost Value = { Names };

    ghost view = { λ names. record { sets = map string_bytes names.sets.keys; definitions = map string_bytes names.definitions.keys } };
}

impl KnownNames {
    /// No names.
    pub fn new(alloc: Global) -> KnownNames
        ensures { result ≡ no_names }
    {
        KnownNames {
            sets: IndexSet::new(alloc),
            definitions: IndexSet::new(alloc),
        }
    }

    /// Whether this is the name of a set.
    pub fn has_set(&self, name: &str) -> bool
        ensures { result ≡ is_one_of self.now.sets name.now }
    {
        self.sets.contains(name)
    }

    /// Whether this is the name of a definition.
    pub fn has_definition(&self, name: &str) -> bool
        ensures { result ≡ is_one_of self.now.definitions name.now }
    {
        self.definitions.contains(name)
    }

    /// Whether this is one of the names.
    pub fn has(&self, name: &str) -> bool
        ensures { result ≡ is_known self.now name.now }
    {
        self.has_set(name) || self.has_definition(name)
    }

    /// Puts the name of a set behind the others.
    pub fn add_set(&mut self, name: &str) -> Result<(), AllocError>
        requires { is_one_of self.old.sets name.now ≡ false }
        ensures { OnOk result (self.new ≡ record { sets = self.old.sets ++ name.now ∷ []; definitions = self.old.definitions }) }
    {
        let owned = String::from_str(*self.sets.allocator(), name)?;
        self.sets.insert_full(owned)?;
        Ok(())
    }

    /// Puts the name of a definition behind the others.
    pub fn add_definition(&mut self, name: &str) -> Result<(), AllocError>
        requires { is_one_of self.old.definitions name.now ≡ false }
        ensures { OnOk result (self.new ≡ record { sets = self.old.sets; definitions = self.old.definitions ++ name.now ∷ [] }) }
    {
        let owned = String::from_str(*self.definitions.allocator(), name)?;
        self.definitions.insert_full(owned)?;
        Ok(())
    }
}
