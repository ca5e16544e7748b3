ghost use Rattle.std.specs.Prelude.{◌≡◌};
ghost use Rattle.expr_kinds.specs.Forms.{as_language, behind, beside, built_if, heavier, of_leaf, with_kind};
ghost use Rattle.expr_kinds.specs.Kinds.{both};

use regex_ast::Suffix;

/// The most that a definition may weigh.
pub const MOST_WEIGHT: usize = 4_000_000;

/// What an expression stands for.
#[derive(Clone, Copy, Debug, PartialEq, Eq)]
pub enum Kind {
    /// A set of words.
    Language,
    /// A set of pairs of words.
    Relation,
}

impl Kind {
    /// A language where both are, else a relation.
    fn and(self, other: Kind) -> Kind
        ensures { result ≡ both self other }
    {
        match self {
            Kind::Language => other,
            Kind::Relation => Kind::Relation,
        }
    }
}

/// What an expression is by its form.
#[derive(Clone, Copy, Debug, PartialEq, Eq)]
pub struct Form {
    /// Whether it is a language or a relation.
    pub kind: Kind,
    /// Whether each operand in it that must be a language is one.
    pub fits: bool,
    /// Its weight, or 4,000,001 where that is more.
    pub weight: usize,
    /// Whether its network can be built: each insertion in it stands alone in its rules, none in a directed rule, and each name has a form.
    pub built: bool,
}

impl Form {
    /// What a language without operands is.
    #[tactic(auto, unfolding(crate::specs::Forms::capped, crate::specs::Weights::most_weight))]
    pub fn leaf(weight: usize) -> Form
        ensures { result ≡ of_leaf Kind.Language weight }
    {
        Form {
            kind: Kind::Language,
            fits: true,
            weight: weight.min(MOST_WEIGHT + 1),
            built: true,
        }
    }

    /// The same with operators of this weight.
    #[tactic(auto, unfolding(crate::specs::Forms::capped, crate::specs::Weights::most_weight))]
    pub fn heavier(self, more: usize) -> Form
        ensures { result ≡ heavier self more }
    {
        Form {
            weight: self.weight.saturating_add(more).min(MOST_WEIGHT + 1),
            ..self
        }
    }

    /// The same where a language is wanted.
    pub fn as_language(self) -> Form
        ensures { result ≡ as_language self }
    {
        Form {
            fits: self.fits && self.kind == Kind::Language,
            ..self
        }
    }

    /// The same as another kind.
    pub fn with_kind(self, kind: Kind) -> Form
        ensures { result ≡ with_kind self kind }
    {
        Form { kind, ..self }
    }

    /// The same, which is built only where this is.
    pub fn built_if(self, built: bool) -> Form
        ensures { result ≡ built_if self built }
    {
        Form {
            built: self.built && built,
            ..self
        }
    }

    /// What two operands are together.
    #[tactic(auto, unfolding(crate::specs::Forms::capped, crate::specs::Weights::most_weight))]
    pub fn beside(self, other: Form) -> Form
        ensures { result ≡ beside self other }
    {
        Form {
            kind: self.kind.and(other.kind),
            fits: self.fits && other.fits,
            weight: self
                .weight
                .saturating_add(other.weight)
                .min(MOST_WEIGHT + 1),
            built: self.built && other.built,
        }
    }

    /// The same with a power.
    #[tactic(auto, unfolding(crate::specs::Forms::capped, crate::specs::Weights::most_weight))]
    fn times(self, count: u32) -> Form
        ensures { result ≡ behind self (Suffix.Power count) }
    {
        let weight = self.weight.saturating_mul(count as usize);
        Form { weight, ..self }.heavier(1)
    }

    /// The same with a suffix.
    pub fn behind(self, suffix: Suffix) -> Form
        ensures { result ≡ behind self suffix }
    {
        match suffix {
            Suffix::Upper | Suffix::Lower => self.with_kind(Kind::Language).heavier(1),
            Suffix::Power(count) => self.times(count),
            Suffix::Star | Suffix::Plus | Suffix::Inverse | Suffix::Reverse => self.heavier(1),
        }
    }
}
