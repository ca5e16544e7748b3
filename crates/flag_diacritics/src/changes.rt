ghost use Rattle.std.specs.Prelude.{◌≡◌, IfOk};
ghost use Rattle.flag_diacritics.specs.Changes.{list_behind};
ghost use Rattle.flag_diacritics.specs.Numbers.{behind_action};

use crate::actions::{Action, setting_at};
use crate::setting::{Setting, passes, setting_behind};
use std::alloc::{AllocError, Global};

/// What a flag makes of the features.
#[derive(Debug, Drop)]
pub enum Change {
    /// It doesn't pass.
    Refused,
    /// It passes, and they stay.
    Stay,
    /// It passes, and they are these.
    To(Vec<Setting>),
}

/// What a flag makes of the features. No list is made where they stay.
pub fn change_by(alloc: Global, now: &[Setting], action: &Action) -> Result<Change, AllocError>
    ensures { IfOk result (λ change. list_behind now.now change ≡ behind_action now.now action.now) }
{
    let setting = setting_at(now, action.feature);
    if !passes(setting, action.kind, action.value) {
        return Ok(Change::Refused);
    }
    let next = setting_behind(setting, action.kind, action.value);
    if next == setting || now.len() <= action.feature {
        return Ok(Change::Stay);
    }
    let mut behind = Vec::from_slice(alloc, now)?;
    behind[action.feature] = next;
    Ok(Change::To(behind))
}
