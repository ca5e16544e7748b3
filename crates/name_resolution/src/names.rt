ghost use Rattle.std.specs.Prelude.{◌≡◌, ◌<◌, ◌+◌, ◌^◌, not, [], length, map, IfOk, OnOk};
ghost use Rattle.std.specs.List.{list_any};
ghost use Rattle.std.specs.Str.{bytes_eq};
ghost use Rattle.fsm_base.specs.Symbols.{number_of, with_text};
ghost use Rattle.word_relations.specs.Words.{IsDistinct};
ghost use Rattle.project_meaning.specs.Leaves.{leaf_of};
ghost use Rattle.name_resolution.specs.Names.{is_named, is_symbol_leaf};

use crate::symbols::symbol_text;
use fsm_base::TextTable;
use regex_ast::Raw;
use std::alloc::{AllocError, Global};
use std::marker::Model;

/// Different names, in the order in which they came. Contracts see them as the list of their texts.
#[derive(Drop)]
pub struct Names {
    /// The texts. The place of a name is its number.
    texts: TextTable,
}

impl Model for Names {
    ghost use Rattle.std.specs.Prelude.{List, ℕ};
    ghost use Rattle.name_resolution.specs.Names.{IsNames};

    ghost Value = { List (List ℕ) };

    ghost view = { λ names. names.texts };

    ghost invariant = { λ names. IsNames names.texts };
}

impl Names {
    /// No names.
    pub fn new(alloc: Global) -> Names
        ensures { result ≡ [] }
    {
        Names {
            texts: TextTable::new(alloc),
        }
    }

    /// The number of names.
    pub fn len(&self) -> usize
        ensures { result ≡ length self.now }
    {
        self.texts.len()
    }

    /// Puts a name behind the others where it's new, and answers whether it is.
    pub fn add(&mut self, name: &str) -> Result<bool, AllocError>
        requires { length self.old + 1 < 2 ^ 32 }
        ensures new { IfOk result (λ new. new ≡ not (list_any (bytes_eq name.now) self.old)) }
        ensures names { OnOk result (self.new ≡ with_text name.now self.old) }
        ensures distinct { OnOk result (IsDistinct self.new) }
    {
        if self.texts.contains(name) {
            return Ok(false);
        }
        self.texts.add(name)?;
        Ok(true)
    }

    /// Whether this is one of the names.
    pub fn contains(&self, name: &str) -> bool
        ensures { result ≡ list_any (bytes_eq name.now) self.now }
    {
        self.texts.contains(name)
    }

    /// The place of a name, counted from 0, or the number of names where it's none of them.
    pub fn number_of(&self, name: &str) -> u32
        ensures { result ≡ number_of name.now self.now }
    {
        self.texts.number_of(name) as u32
    }

    /// The place behind all names.
    pub fn end(&self) -> u32
        ensures { result ≡ length self.now }
    {
        self.texts.len() as u32
    }

    /// Whether a leaf stands for one of the names.
    pub fn is_name(&self, leaf: &Raw) -> bool
        ensures { result ≡ is_named (leaf_of self.now leaf.now) }
    {
        match leaf {
            Raw::Run(text) => self.contains(text.as_str()),
            Raw::Quoted(_) => false,
        }
    }

    /// Whether a leaf is a symbol where these names are defined: one without text isn't.
    pub fn is_symbol(&self, leaf: &Raw) -> bool
        ensures { result ≡ is_symbol_leaf (leaf_of self.now leaf.now) }
    {
        !self.is_name(leaf) && !symbol_text(leaf).is_empty()
    }
}
