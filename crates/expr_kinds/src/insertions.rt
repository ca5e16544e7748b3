ghost use Rattle.std.specs.Prelude.{◌≡◌, [], ◌∷◌};
ghost use Rattle.regex_ast.specs.Terms.{groups_of, mappings_of};
ghost use Rattle.expr_kinds.specs.Built.{has_no_insertion, holds_insertion, inserts_alone, is_insertion, is_insertion_alone};

use regex_ast::{Atom, Group, Mapping};

/// Whether an insertion in these rules stands alone.
pub fn inserts_alone(groups: &[Group<Atom>]) -> bool
    ensures { result ≡ inserts_alone (groups_of groups.now) }
{
    is_insertion(groups) || has_no_insertion(groups)
}

/// Whether the rules are one insertion.
pub fn is_insertion(groups: &[Group<Atom>]) -> bool
    ensures { result ≡ is_insertion (groups_of groups.now) }
{
    match groups {
        [group] => is_insertion_alone(&group.maps),
        _ => false,
    }
}

/// Whether the mappings are one insertion.
fn is_insertion_alone(maps: &[Mapping<Atom>]) -> bool
    ensures { result ≡ is_insertion_alone (mappings_of maps.now) }
{
    match maps {
        [Mapping::Insert { .. }] => true,
        _ => false,
    }
}

/// Whether no insertion is among the rules.
fn has_no_insertion(groups: &[Group<Atom>]) -> bool
    ensures { result ≡ has_no_insertion (groups_of groups.now) }
{
    'groups: for group in groups {
        if holds_insertion(&group.maps) {
            return false;
        }
    }
    true
}

/// Whether an insertion is among the mappings.
pub fn holds_insertion(maps: &[Mapping<Atom>]) -> bool
    ensures { result ≡ holds_insertion (mappings_of maps.now) }
{
    'maps: for map in maps {
        if is_insert(map) {
            return true;
        }
    }
    false
}

/// Whether a mapping is an insertion.
fn is_insert(map: &Mapping<Atom>) -> bool
    ensures { result ≡ holds_insertion (mappings_of (map.now ∷ [])) }
{
    match map {
        Mapping::Plain { .. } | Mapping::Markup { .. } => false,
        Mapping::Insert { .. } => true,
    }
}
