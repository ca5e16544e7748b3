ghost use Rattle.std.specs.Prelude.{◌≡◌, nat_eq};
ghost use Rattle.project_meaning.specs.Settings.{has_value, is_neutral, may_have};
ghost use Rattle.flag_diacritics.specs.Numbers.{passes_by, setting_by, setting_of};

use regex_ast::FlagKind;

/// What a feature is at some place of a tape, with its value by number.
#[derive(Clone, Copy, Debug, PartialEq, Eq, Hash)]
pub enum Setting {
    /// No flag has set it.
    Neutral,
    /// It has the value.
    Has(usize),
    /// It is barred from the value.
    Barred(usize),
}

/// Whether a flag of a kind, with its value if it has one, passes where its feature is this.
pub fn passes(now: Setting, kind: FlagKind, value: Option<usize>) -> bool
    ensures { result ≡ passes_by now kind value }
{
    match (kind, value) {
        (FlagKind::P, _) => true,
        (FlagKind::N, _) => true,
        (FlagKind::C, _) => true,
        (FlagKind::R, None) => !is_neutral(now),
        (FlagKind::R, Some(value)) => has_value(now, value),
        (FlagKind::D, None) => is_neutral(now),
        (FlagKind::D, Some(value)) => !has_value(now, value),
        (FlagKind::U, None) => true,
        (FlagKind::U, Some(value)) => may_have(now, value),
    }
}

/// What a feature is behind a flag that passes.
pub fn setting_behind(now: Setting, kind: FlagKind, value: Option<usize>) -> Setting
    ensures { result ≡ setting_by now kind value }
{
    match (kind, value) {
        (FlagKind::P, Some(value)) => Setting::Has(value),
        (FlagKind::N, Some(value)) => Setting::Barred(value),
        (FlagKind::U, Some(value)) => Setting::Has(value),
        (FlagKind::P, None) => Setting::Neutral,
        (FlagKind::N, None) => Setting::Neutral,
        (FlagKind::U, None) => Setting::Neutral,
        (FlagKind::C, _) => Setting::Neutral,
        (FlagKind::R, _) => now,
        (FlagKind::D, _) => now,
    }
}

/// Whether no flag has set the feature.
fn is_neutral(now: Setting) -> bool
    ensures { result ≡ is_neutral (setting_of now) }
{
    match now {
        Setting::Neutral => true,
        Setting::Has(_) => false,
        Setting::Barred(_) => false,
    }
}

/// Whether the feature has this value.
fn has_value(now: Setting, value: usize) -> bool
    ensures { result ≡ has_value nat_eq (setting_of now) value }
{
    match now {
        Setting::Neutral => false,
        Setting::Has(number) => number == value,
        Setting::Barred(_) => false,
    }
}

/// Whether nothing keeps the feature from having this value.
fn may_have(now: Setting, value: usize) -> bool
    ensures { result ≡ may_have nat_eq (setting_of now) value }
{
    match now {
        Setting::Neutral => true,
        Setting::Has(number) => number == value,
        Setting::Barred(number) => number != value,
    }
}
