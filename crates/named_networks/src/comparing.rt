ghost use Rattle.std.specs.Prelude.{◌≡◌, ◌<◌, ◌++◌, ◌∷◌, ℕ, List, IfOk, Some, length, slice_get};
ghost use Rattle.fsm_base.specs.Alphabet.{IsAlphabet, spelled, symbols_of};
ghost use Rattle.fsa.specs.Complete.{Accepts};
ghost use Rattle.word_relations.specs.Words.{IsOver};
ghost use Rattle.expr_kinds.specs.Atoms.{kind_at};
ghost use Rattle.expr_kinds.specs.declared.form.Kind.TheVariants as kinds;
ghost use Rattle.project_meaning.specs.Projects.{Project as Meant, names_of};
ghost use Rattle.project_sources.specs.Sources.{Said, project_in};
ghost use Rattle.project_store.specs.Centres.{CentresAreBuilt};
ghost use Rattle.project_store.specs.Loaded.{IsLoadedFrom};
ghost use Rattle.reply_meaning.specs.Replies.{headed};
ghost use Rattle.named_networks.specs.Comparisons.{AreTold, HasWord, IsCompared, IsComparison, word_told};
ghost use Rattle.named_networks.specs.Languages.{AreSpelled};
ghost use Rattle.named_networks.specs.Named.{ArePlaces, IsNamed};
ghost use Rattle.named_networks.specs.Responses.{response_of};

use crate::building::two_networks;
use crate::languages::language_of;
use crate::lines::{differ_head, no_word, relation, with_word};
use crate::told::{Question, Told};
use fsm_base::{Alphabet, Sym};
use lang_algebra::Lang;
use lang_equal::{Compared, compare, outside};
use project_model::Kind;
use project_store::{Project, Ready, Shared};
use reply_text::no_net;
use std::alloc::{AllocError, Global};

/// What two names are.
#[derive(Drop)]
enum Named {
    /// Languages that the project defines, by the places of their definitions.
    Languages { first: usize, second: usize },
    /// One of them isn't such: the line that says so.
    Refused(Vec<u8>),
}

/// What two names are in a project, at a version.
fn look_up(
    alloc: Global,
    project: &Project,
    version: u64,
    first: &str,
    second: &str,
) -> Result<Named, AllocError>
    ensures named { (said : Said) → IsLoadedFrom said project.now → IfOk result (IsNamed said version first.now second.now) }
    ensures places { IfOk result (ArePlaces project.now) }
{
    let Some(one) = project.find(first) else {
        return Ok(Named::Refused(no_net(alloc, version, first)?));
    };
    let Some(other) = project.find(second) else {
        return Ok(Named::Refused(no_net(alloc, version, second)?));
    };
    match (project.kind_at(one), project.kind_at(other)) {
        (Kind::Relation, _) => Ok(Named::Refused(relation(alloc, version, first)?)),
        (Kind::Language, Kind::Relation) => Ok(Named::Refused(relation(alloc, version, second)?)),
        (Kind::Language, Kind::Language) => Ok(Named::Languages {
            first: one,
            second: other,
        }),
    }
}

/// The line that tells a word of the alphabet's symbols.
fn line_of(
    alloc: Global,
    alphabet: &Alphabet,
    version: u64,
    head: &str,
    word: &[Sym],
) -> Result<Vec<u8>, AllocError>
    requires { IsOver (symbols_of alphabet.now) word.now }
    ensures { IfOk result (λ bytes. bytes.items ≡ headed version (head.now ++ 32 ∷ word_told (spelled alphabet.now word.now))) }
{
    let text = alphabet.text(alloc, word)?;
    with_word(alloc, version, head, word.len(), text.as_str())
}

/// Whether two languages over an alphabet are the same, and else a shortest word of exactly one of them.
fn equality(
    alloc: Global,
    alphabet: &Alphabet,
    version: u64,
    first: &Lang<Sym>,
    second: &Lang<Sym>,
) -> Result<Vec<u8>, AllocError>
    requires formed { IsAlphabet alphabet.now }
    requires first { first.now.letters ≡ symbols_of alphabet.now }
    requires second { second.now.letters ≡ symbols_of alphabet.now }
    ensures { (project : Meant) (one other : List ℕ) → AreSpelled alphabet.now (Accepts first.now) (HasWord project one) → AreSpelled alphabet.now (Accepts second.now) (HasWord project other)
        → IfOk result (λ bytes. IsComparison project version Question.Equal one other bytes.items) }
{
    match compare(alloc, first, second)? {
        Compared::Same => no_word(alloc, version, Question::Equal),
        Compared::Differ { first, word } => {
            line_of(alloc, alphabet, version, differ_head(first), &word)
        }
    }
}

/// Whether each word of a language is in another one over the alphabet, and else a shortest word that isn't.
fn inclusion(
    alloc: Global,
    alphabet: &Alphabet,
    version: u64,
    first: &Lang<Sym>,
    second: &Lang<Sym>,
) -> Result<Vec<u8>, AllocError>
    requires formed { IsAlphabet alphabet.now }
    requires first { first.now.letters ≡ symbols_of alphabet.now }
    requires second { second.now.letters ≡ symbols_of alphabet.now }
    ensures { (project : Meant) (one other : List ℕ) → AreSpelled alphabet.now (Accepts first.now) (HasWord project one) → AreSpelled alphabet.now (Accepts second.now) (HasWord project other)
        → IfOk result (λ bytes. IsComparison project version Question.Within one other bytes.items) }
{
    match outside(alloc, first, second)? {
        None => no_word(alloc, version, Question::Within),
        Some(word) => line_of(alloc, alphabet, version, "outside", &word),
    }
}

/// How the languages of the definitions at two places compare.
fn told_of(
    alloc: Global,
    project: &Project,
    built: Vec<Option<Shared>>,
    version: u64,
    question: Question,
    first: usize,
    second: usize,
) -> Result<Vec<u8>, AllocError>
    requires first { first < length project.now.definitions }
    requires second { second < length project.now.definitions }
    requires one { kind_at project.now.forms first ≡ kinds.Language }
    requires other { kind_at project.now.forms second ≡ kinds.Language }
    requires built { CentresAreBuilt project.now built.items }
    ensures { (said : Said) (one other : List ℕ) → IsLoadedFrom said project.now → slice_get (names_of said.written) first ≡ Some one → slice_get (names_of said.written) second ≡ Some other
        → IfOk result (λ bytes. IsComparison (project_in said) version question one other bytes.items) }
{
    if first == second {
        return no_word(alloc, version, question);
    }
    let (one, other) = two_networks(alloc, project, built, first, second)?;
    let alphabet = project.alphabet();
    let one = language_of(alloc, alphabet.symbols(), one)?;
    let other = language_of(alloc, alphabet.symbols(), other)?;
    match question {
        Question::Equal => equality(alloc, alphabet, version, &one, &other),
        Question::Within => inclusion(alloc, alphabet, version, &one, &other),
    }
}

/// How the languages of two names compare, or why they aren't compared, tried in this order: `V net FIRST` and `V net SECOND` where the
/// project doesn't define the name, `V relation FIRST` and `V relation SECOND` where the name isn't a language by its form.
///
/// [`Question::Equal`] is answered by `V same`, or `V differ SIDE K WORD` with a shortest word that is in exactly one of them: in the first
/// where SIDE is 1 and in the second where it is 2, of K symbols and with this text. [`Question::Within`] is answered by `V within`, or
/// `V outside K WORD` with a shortest word of the first that isn't in the second.
///
/// The networks of the definitions that the project puts before the two are built once, and none where both are the same name. Pairs of
/// states are looked at breadth first, up to the first one that tells the languages apart.
pub fn compared(
    alloc: Global,
    ready: Ready,
    version: u64,
    question: Question,
    first: &str,
    second: &str,
) -> Result<Told, AllocError>
    ensures { (said : Said) → IsLoadedFrom said ready → IfOk result (λ told. IsCompared (project_in said) version question first.now second.now (response_of told)) }
{
    let (project, built) = ready.into_parts();
    match look_up(alloc, &project, version, first, second)? {
        Named::Refused(line) => Ok(Told::Refusal(line)),
        Named::Languages { first, second } => {
            let line = told_of(alloc, &project, built, version, question, first, second)?;
            Ok(Told::Answer(line))
        }
    }
}
