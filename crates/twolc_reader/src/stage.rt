ghost use Rattle.std.specs.Prelude.{◌≡◌};
ghost use Rattle.std.specs.Option.{option_map};
ghost use Rattle.twolc_grammar.specs.Sections.{heads_at, is_head, is_quoted, leads, section_of, stage_behind};
ghost use Rattle.twolc_reader.specs.Reading.{IsBegun, is_head_word, may_begin_in, section_view, stage_view};

use twolc_tokens::Token;

/// A section of a grammar.
#[derive(Clone, Copy, Debug, PartialEq, Eq)]
pub enum Section {
    /// The pairs.
    Alphabet,
    /// The sets.
    Sets,
    /// The definitions.
    Definitions,
    /// The rules.
    Rules,
}

/// How far a text was read.
#[derive(Clone, Copy, Debug, PartialEq, Eq)]
pub enum Stage {
    /// Nothing was read.
    Beginning,
    /// The list of the alphabet was read.
    Listed,
    /// In a section, behind its head word.
    Within(Section),
}

impl Section {
    /// The stage behind a statement of the section.
    pub fn behind_statement(self) -> Stage
        ensures { stage_view result ≡ stage_behind (section_view self) }
    {
        match self {
            Section::Alphabet => Stage::Listed,
            _ => Stage::Within(self),
        }
    }
}

/// The section that a token begins at a stage, if it is a head word that may come there.
pub fn leads(stage: Stage, token: &Token) -> Option<Section>
    ensures { option_map section_view result ≡ leads (stage_view stage) token.now }
{
    match token {
        Token::Atom(word) => led_by(stage, word.as_str()),
        _ => None,
    }
}

/// The section that a word begins at a stage.
fn led_by(stage: Stage, word: &str) -> Option<Section>
    ensures { option_map section_view result ≡ section_of (heads_at (stage_view stage)) word.now }
{
    match stage {
        Stage::Beginning if word == "Alphabet" => Some(Section::Alphabet),
        Stage::Listed if word == "Sets" => Some(Section::Sets),
        Stage::Listed | Stage::Within(Section::Sets) if word == "Definitions" => {
            Some(Section::Definitions)
        }
        Stage::Listed | Stage::Within(Section::Sets | Section::Definitions) if word == "Rules" => {
            Some(Section::Rules)
        }
        _ => None,
    }
}

/// The section that a stage is within, where a token that is no head word may begin a statement there.
pub fn begun(stage: Stage, token: &Token) -> Option<Section>
    ensures { IsBegun (stage_view stage) token.now (option_map section_view result) }
{
    match stage {
        Stage::Within(section) if may_begin(section, token) => Some(section),
        _ => None,
    }
}

fn may_begin(section: Section, token: &Token) -> bool
    ensures { result ≡ may_begin_in (section_view section) token.now }
{
    match section {
        Section::Alphabet => true,
        Section::Sets | Section::Definitions => !is_head(token),
        Section::Rules => is_quoted(token),
    }
}

fn is_head(token: &Token) -> bool
    ensures { result ≡ is_head token.now }
{
    match token {
        Token::Atom(word) => is_head_word(word.as_str()),
        _ => false,
    }
}

fn is_head_word(word: &str) -> bool
    ensures { result ≡ is_head_word word.now }
{
    word == "Alphabet" || word == "Sets" || word == "Definitions" || word == "Rules"
}

/// Whether a token is a quoted text.
pub fn is_quoted(token: &Token) -> bool
    ensures { result ≡ is_quoted token.now }
{
    matches!(token, Token::Quoted(_))
}
