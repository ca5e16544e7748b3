ghost use Rattle.std.specs.Prelude.{◌≡◌, ◌<◌, [], ◌∷◌, false, length, map, IfOk, OnOk};
ghost use Rattle.std.specs.List.{flat_map};
ghost use Rattle.project_meaning.specs.Projects.{with_texts};
ghost use Rattle.lexc_grammar.specs.Lexicons.{feature_in, features_in, form_of, nothing_known, piece_of, with_lexicon, with_symbol};
ghost use Rattle.lexc_grammar.specs.Files.{is_among};
ghost use Rattle.regex_ast.specs.declared.lexc.Piece.TheVariants as symbols;
ghost use Rattle.regex_ast.specs.declared.expr.Raw.TheVariants as raws;
ghost use Rattle.lexc_reader.specs.Answers.{IsAdded, known_of};

use fsm_base::{Text, TextTable};
use lexc_forms::{DeclaredSymbols, SharedTexts};
use regex_ast::{Entry, Form, Lexicon, Piece, Raw, Why};
use std::alloc::{AllocError, Global};

/// The most entries of all lexicons.
const MOST_ENTRIES: usize = 100_000;

/// The most features that their flags are about.
const MOST_FEATURES: usize = 32;

/// What is known of a text behind its first statements.
#[derive(Drop)]
pub struct State {
    /// The declared symbols that are no flags.
    pub declared: DeclaredSymbols,
    /// The lexicons that are finished.
    pub finished: Vec<Lexicon<Raw>>,
    /// The lexicon whose entries are read; at first that of the declared symbols.
    pub current: Lexicon<Raw>,
    /// The names of lexicons.
    pub names: TextTable,
    /// How many entries the lexicons have.
    pub count: usize,
    /// The features that flags are about.
    pub features: TextTable,
    /// Texts that come often.
    pub texts: SharedTexts,
}

/// A side that is one symbol.
fn one_symbol(alloc: Global, text: Text) -> Result<Vec<Piece<Raw>>, AllocError>
    ensures { IfOk result (λ side. side.items ≡ symbols.Symbol (raws.Quoted text) ∷ []) }
{
    let mut side = Vec::new(alloc);
    side.push(Piece::Symbol(Raw::Quoted(text)))?;
    Ok(side)
}

/// Adds the features that the flags of a side are about.
fn add_features(features: &mut TextTable, side: &[Piece<Raw>]) -> Result<(), AllocError>
    ensures { OnOk result (features.new ≡ with_texts features.old (flat_map feature_in (map piece_of side.now))) }
{
    'pieces: for piece in side {
        if let Piece::Flag(flag) = piece {
            features.add(flag.feature.as_str())?;
        }
    }
    Ok(())
}

/// Adds the features that the flags of a form are about.
fn add_features_of(features: &mut TextTable, form: &Form<Raw>) -> Result<(), AllocError>
    ensures { OnOk result (features.new ≡ with_texts features.old (features_in (form_of form.now))) }
{
    if let Form::Sides { upper, lower } = form {
        add_features(features, upper)?;
        add_features(features, lower)?;
    }
    Ok(())
}

impl State {
    /// Nothing.
    pub fn new(alloc: Global) -> Result<State, AllocError>
        ensures { IfOk result (λ state. known_of state ≡ nothing_known) }
    {
        Ok(State {
            declared: DeclaredSymbols::new(alloc),
            finished: Vec::new(alloc),
            current: Lexicon {
                name: Text::of(alloc, "")?,
                line: 0,
                entries: Vec::new(alloc),
            },
            names: TextTable::new(alloc),
            count: 0,
            features: TextTable::new(alloc),
            texts: SharedTexts::new(alloc),
        })
    }

    /// A declared symbol.
    pub fn add_symbol(
        &mut self,
        alloc: Global,
        line: u32,
        characters: Vec<char>,
        text: Text,
    ) -> Result<(), AllocError>
        requires { 0 < length characters.items }
        ensures { OnOk result (known_of self.new ≡ with_symbol (known_of self.old) line characters.items text) }
    {
        let upper = one_symbol(alloc, Text::of(alloc, text.as_str())?)?;
        let lower = one_symbol(alloc, text)?;
        self.declared.add(characters)?;
        self.current.entries.push(Entry {
            line,
            form: Form::Sides { upper, lower },
            next: None,
        })?;
        Ok(())
    }

    /// A new lexicon.
    pub fn open_lexicon(&mut self, alloc: Global, line: u32, name: Text) -> Result<(), AllocError>
        requires { is_among (known_of self.old).names name ≡ false }
        ensures { OnOk result (known_of self.new ≡ with_lexicon (known_of self.old) line name) }
    {
        self.names.add(name.as_str())?;
        let opened = Lexicon {
            name,
            line,
            entries: Vec::new(alloc),
        };
        let finished = std::mem::replace(&mut self.current, opened);
        self.finished.push(finished)?;
        Ok(())
    }

    /// An entry, or what bars it.
    pub fn add_entry(
        &mut self,
        line: u32,
        form: Form<Raw>,
        next: Option<Text>,
    ) -> Result<Option<Why>, AllocError>
        ensures { IfOk result (IsAdded (known_of self.old) line (form_of form) next (known_of self.new)) }
    {
        if self.count >= MOST_ENTRIES {
            return Ok(Some(Why::LimitEntries));
        }
        add_features_of(&mut self.features, &form)?;
        if self.features.len() > MOST_FEATURES {
            return Ok(Some(Why::LimitFeatures));
        }
        self.current.entries.push(Entry { line, form, next })?;
        self.count += 1;
        Ok(None)
    }
}
