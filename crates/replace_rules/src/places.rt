ghost use Rattle.std.specs.Prelude.{◌≡◌, ◌++◌, IfOk, OnOk, map, option_map};
ghost use Rattle.word_relations.specs.Words.{IsDistinct, IsOver};
ghost use Rattle.lang_algebra.specs.Languages.{IsLang};
ghost use Rattle.replace_words.specs.Marked.{LeftHolds, RightHolds};
ghost use Rattle.replace_rules.specs.Places.{choices, place_with, places_of, rules_by};

use crate::contexts::{left_words, right_words};
use crate::langs::{any, over};
use crate::rules::{LangContext, LangGroup, LangMap, Side};
use fsm_base::Bound;
use lang_algebra::Lang;
use replace_words::Mark;
use std::alloc::{AllocError, Global};
use std::marker::Model;

/// Where rules replace: the mappings of a group with one of its contexts, or with none where the group has none.
#[derive(Drop)]
pub struct Place<'a> {
    /// The mappings of the group.
    maps: &'a [LangMap],
    /// On which sides the context is read.
    side: Side,
    /// The context, or none where the mappings hold everywhere.
    context: Option<&'a LangContext>,
}

impl<'a> Model for Place<'a> {
    ghost use Rattle.std.specs.Prelude.{option_map};
    ghost use Rattle.replace_rules.specs.Places.{Place};

    ghost Value = { Place };

    ghost view = { λ place. record { maps = place.maps.now; side = place.side; context = option_map (λ c. c.now) place.context } };
}

impl<'a> Place<'a> {
    /// The mappings.
    pub fn maps(&self) -> &[LangMap]
        ensures { result.now ≡ self.now.maps }
    {
        self.maps
    }

    /// The context, where there is one.
    fn context(&self) -> Option<&LangContext>
        ensures { option_map (λ c. c.now) result ≡ self.now.context }
    {
        self.context
    }

    /// On which sides it is read.
    fn side(&self) -> Side
        ensures { result ≡ self.now.side }
    {
        self.side
    }

    /// The words of marks behind which the left part of the context holds.
    pub fn left(
        &self,
        alloc: Global,
        marks: &[Bound<Mark>],
    ) -> Result<Lang<Bound<Mark>>, AllocError>
        requires { IsDistinct marks.now }
        ensures { IfOk result (IsLang marks.now (λ x. IsOver marks.now x × LeftHolds rules_by self.now x)) }
    {
        match self.context() {
            Some(context) => left_words(alloc, marks, self.side(), &context.left),
            None => over(alloc, marks, &any(alloc, marks)?),
        }
    }

    /// The words of marks before which its right part holds.
    pub fn right(
        &self,
        alloc: Global,
        marks: &[Bound<Mark>],
    ) -> Result<Lang<Bound<Mark>>, AllocError>
        requires { IsDistinct marks.now }
        ensures { IfOk result (IsLang marks.now (λ z. IsOver marks.now z × RightHolds rules_by self.now z)) }
    {
        match self.context() {
            Some(context) => right_words(alloc, marks, self.side(), &context.right),
            None => over(alloc, marks, &any(alloc, marks)?),
        }
    }
}

/// The places of groups, one after another.
pub fn places_of<'a>(alloc: Global, groups: &'a [LangGroup]) -> Result<Vec<Place<'a>>, AllocError>
    ensures { IfOk result (λ places. places.items ≡ places_of groups.now) }
{
    let mut places = Vec::new(alloc);
    for group in groups {
        add_places(&mut places, &group.maps, group.side, &group.contexts)?;
    }
    Ok(places)
}

/// Adds the places of a group of these mappings.
fn add_places<'a>(
    places: &mut Vec<Place<'a>>,
    maps: &'a [LangMap],
    side: Side,
    contexts: &'a [LangContext],
) -> Result<(), AllocError>
    ensures { OnOk result (places.new.items ≡ places.old.items ++ map (place_with maps.now side) (choices contexts.now)) }
{
    if contexts.is_empty() {
        places.push(Place {
            maps,
            side,
            context: None,
        })?;
        return Ok(());
    }
    for context in contexts {
        places.push(Place {
            maps,
            side,
            context: Some(context),
        })?;
    }
    Ok(())
}
