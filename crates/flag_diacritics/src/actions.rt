ghost use Rattle.std.specs.Prelude.{◌≡◌, ℕ, List, IfOk, OnOk, length, slice_index_or};
ghost use Rattle.word_relations.specs.Words.{IsDistinct};
ghost use Rattle.regex_ast.specs.declared.lexc.FlagOp.{FlagOp};
ghost use Rattle.std.specs.Option.{option_map};
ghost use Rattle.flag_diacritics.specs.Numbers.{Keeps, StandsFor, AreActions, behind_action};
ghost use Rattle.flag_diacritics.specs.declared.setting.Setting.TheVariants as settings;

use crate::setting::{Setting, passes, setting_behind};
use fsm_base::TextTable;
use regex_ast::{FlagKind, FlagOp};
use std::alloc::{AllocError, Global};

/// A flag with its feature and its value by numbers.
#[derive(Clone, Copy, Debug)]
pub struct Action {
    /// What the flag does.
    pub kind: FlagKind,
    /// The number of its feature.
    pub feature: usize,
    /// The number of its value, where it has one.
    pub value: Option<usize>,
}

/// Flags by numbers, and how many features they have.
#[derive(Drop)]
pub struct Actions {
    /// The flags, in their order.
    pub list: Vec<Action>,
    /// How many features there are.
    pub features: usize,
}

/// Numbers the features and the values of flags.
pub fn actions_of(alloc: Global, flags: &[FlagOp]) -> Result<Actions, AllocError>
    ensures { IfOk result (λ actions. (features values : List (List ℕ)) × AreActions features values flags.now actions.list.items × (actions.features ≡ length features)) }
{
    let mut features = TextTable::new(alloc);
    let mut values = TextTable::new(alloc);
    let mut list = Vec::new(alloc);
    for flag in flags {
        let action = action_of(flag, &mut features, &mut values)?;
        list.push(action)?;
    }
    Ok(Actions {
        list,
        features: features.len(),
    })
}

/// A flag by numbers. Its feature and its value get a number where they have none.
fn action_of(
    flag: &FlagOp,
    features: &mut TextTable,
    values: &mut TextTable,
) -> Result<Action, AllocError>
    requires values { IsDistinct values.old }
    ensures features { OnOk result (Keeps features.old features.new) }
    ensures features_once { OnOk result (IsDistinct features.new) }
    ensures values { OnOk result (Keeps values.old values.new) }
    ensures values_once { OnOk result (IsDistinct values.new) }
    ensures action { IfOk result (λ action. StandsFor features.new values.new flag.now action) }
{
    let feature = features.add(flag.feature.as_str())?;
    let value = match &flag.value {
        Some(value) => Some(values.add(value.as_str())?),
        None => None,
    };
    Ok(Action {
        kind: flag.kind,
        feature,
        value,
    })
}

/// What the features are behind a flag, or None where it doesn't pass.
pub fn behind_action(
    alloc: Global,
    now: &[Setting],
    action: &Action,
) -> Result<Option<Vec<Setting>>, AllocError>
    ensures { IfOk result (λ behind. option_map (λ list. list.items) behind ≡ behind_action now.now action.now) }
{
    let setting = setting_at(now, action.feature);
    if !passes(setting, action.kind, action.value) {
        return Ok(None);
    }
    let mut behind = Vec::from_slice(alloc, now)?;
    if action.feature < behind.len() {
        behind[action.feature] = setting_behind(setting, action.kind, action.value);
    }
    Ok(Some(behind))
}

/// What a feature is; a feature that isn't there is neutral.
pub fn setting_at(now: &[Setting], feature: usize) -> Setting
    ensures { result ≡ slice_index_or now.now feature settings.Neutral }
{
    if feature < now.len() {
        now[feature]
    } else {
        Setting::Neutral
    }
}
