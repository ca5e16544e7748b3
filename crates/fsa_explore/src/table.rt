ghost use Rattle.std.specs.Prelude.{◌≡◌, ◌<◌, ◌++◌, ◌⊎◌, ◌∷◌, [], Some, IfOk, OnOk, OnErr, length, slice_get};
ghost use Rattle.std.specs.Cmp.Rules.{hashing};
ghost use Rattle.std.specs.Hash as fed;
ghost use Rattle.std.proofs.Common.{rules};
ghost use Rattle.fsa_explore.specs.Mixing.{mixed};

use indexmap::IndexSet;
use std::alloc::{AllocError, Global};
use std::hash::{Hash, Hasher};
use std::marker::Model;

/// Odd, with its bits in no order, so that each number of a list moves the whole hash.
const MULTIPLIER: usize = 0x9e37_79b9_7f4a_7c15;

/// A list of a table.
#[derive(Debug, Drop, PartialEq, Eq)]
struct Key {
    list: Vec<usize>,
}

/// Hashed as one number, since a search looks up a list for each state and letter.
impl Hash for Key {
    ghost hash_input = { λ key. fed.usize (mixed key.list.items) };

    ghost respects_eq = { Prim.search (hashing, rules) };

    fn hash<H: Hasher>(&self, state: &mut H) {
        mixed(&self.list).hash(state);
    }
}

/// The number by which a list is hashed. Few others have the same.
fn mixed(list: &[usize]) -> usize
    ensures { result ≡ mixed list.now }
{
    let mut seed = 1;
    'numbers: for number in list {
        seed = MULTIPLIER.wrapping_mul(seed).wrapping_add(*number);
    }
    seed
}

/// Lists of states, numbered from 0 in the order in which they came, and found again by a hash. Contracts see
/// the list of the lists.
#[derive(Debug, Drop)]
pub struct ListTable {
    /// The lists, each once. The place of a list is its number.
    lists: IndexSet<Key>,
}

impl Model for ListTable {
    ghost use Rattle.std.specs.Prelude.{List, ℕ, map};

    ghost Value = { List (List ℕ) };

    ghost view = { λ table. map (λ key. key.list.items) table.lists.keys };
}

impl ListTable {
    /// The table of no lists.
    pub fn new(alloc: Global) -> ListTable
        ensures { result ≡ [] }
    {
        ListTable {
            lists: IndexSet::new(alloc),
        }
    }

    /// How many lists there are.
    pub fn len(&self) -> usize
        ensures { result ≡ length self.now }
    {
        self.lists.len()
    }

    /// The list with a number.
    pub fn get(&self, number: usize) -> &[usize]
        requires { number < length self.now }
        ensures { slice_get self.now number ≡ Some result.now }
    {
        self.lists[number].list.as_slice()
    }

    /// The number of a list, which is added where it isn't there.
    pub fn number_of(&mut self, alloc: Global, list: &[usize]) -> Result<usize, AllocError>
        ensures number { IfOk result (λ k. slice_get self.new k ≡ Some list.now) }
        ensures kept { OnOk result ((self.new ≡ self.old) ⊎ (self.new ≡ self.old ++ list.now ∷ [])) }
        ensures err { OnErr result (self.new ≡ self.old) }
    {
        self.insert(Vec::from_slice(alloc, list)?)
    }

    /// The same of a list that may be kept, of which no copy is made.
    pub fn insert(&mut self, list: Vec<usize>) -> Result<usize, AllocError>
        ensures number { IfOk result (λ k. slice_get self.new k ≡ Some list.items) }
        ensures kept { OnOk result ((self.new ≡ self.old) ⊎ (self.new ≡ self.old ++ list.items ∷ [])) }
        ensures err { OnErr result (self.new ≡ self.old) }
    {
        let (number, _) = self.lists.insert_full(Key { list })?;
        Ok(number)
    }
}
