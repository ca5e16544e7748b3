ghost use Rattle.std.specs.Prelude.{◌≡◌, ◌≤◌, IfErr, IfOk, Some, length};
ghost use Rattle.std.specs.Option.{option_map};
ghost use Rattle.word_relations.specs.Words.{IsOver};
ghost use Rattle.fsm_base.specs.Alphabet.{spelled, symbols_of};
ghost use Rattle.fsm_io.specs.Lines.{most_line};
ghost use Rattle.morph_c.specs.Asking.{AreListed, IsCut, IsFault, IsGlossed, IsLookedUp, IsLookedUpInSaved, IsNoCut, IsNoFault, IsNoLine, IsNoLook, IsNoLookInSaved, IsNotOpen, IsNotSaved, IsOpen, IsSaved, IsWhyNone, listed};
ghost use Rattle.morph_c.specs.declared.trouble.Trouble.TheVariants.{State};

use crate::held::{Held, Opened, SavedOwner};
use crate::trouble::Trouble;
use fsm_base::{Alphabet, Sym, Text, TokensError, nfc};
use lookup_answers::Direction;
use project_versions::reply_to_word;
use reply_text::refused;
use std::alloc::{AllocError, Global};
use std::str;

/// The most bytes of a name, a word or a text.
const MOST_BYTES: usize = 4_096;

/// The number of the version of an AT&T text, which has no later one.
const FIRST_VERSION: u64 = 1;

/// The text that bytes are, on one line.
pub(crate) fn line_of(bytes: &[u8]) -> Result<&str, Trouble>
    ensures text { IfOk result (λ text. text.now ≡ bytes.now) }
    ensures short { IfOk result (λ text. length text.now ≤ most_line) }
    ensures trouble { IfErr result (IsNoLine bytes.now) }
{
    if bytes.len() > MOST_BYTES {
        return Err(Trouble::Long);
    }
    if bytes.contains(&10) {
        return Err(Trouble::Newline);
    }
    match str::from_utf8(bytes) {
        Ok(text) => Ok(text),
        Err(_) => Err(Trouble::NotUtf8),
    }
}

/// The version that is open.
pub(crate) fn opened(held: &Option<Box<Held>>) -> Result<&Opened, Trouble>
    ensures opened { IfOk result (λ opened. IsOpen (option_map (λ b. b.value) held.now) opened.now) }
    ensures trouble { IfErr result (λ why. (why ≡ State) × IsNotOpen (option_map (λ b. b.value) held.now)) }
{
    let Some(held) = held else {
        return Err(Trouble::State);
    };
    match held.as_ref() {
        Held::Open(opened) => Ok(opened),
        Held::Gathered(_) | Held::Faulty(_) | Held::Saved(_) | Held::Unreadable(_) => {
            Err(Trouble::State)
        }
    }
}

/// The network of the AT&T text that is open.
fn saved_in(held: &Option<Box<Held>>) -> Result<&SavedOwner, Trouble>
    ensures saved { IfOk result (λ owner. IsSaved (option_map (λ b. b.value) held.now) owner.now) }
    ensures trouble { IfErr result (λ why. (why ≡ State) × IsNotSaved (option_map (λ b. b.value) held.now)) }
{
    let Some(held) = held else {
        return Err(Trouble::State);
    };
    match held.as_ref() {
        Held::Saved(owner) => Ok(owner),
        Held::Gathered(_) | Held::Faulty(_) | Held::Open(_) | Held::Unreadable(_) => {
            Err(Trouble::State)
        }
    }
}

/// The reply to a word that is looked up in a name.
pub(crate) fn looked_up(
    alloc: Global,
    held: &Option<Box<Held>>,
    direction: Direction,
    net: &[u8],
    word: &[u8],
) -> Result<Vec<u8>, Trouble>
    ensures reply { IfOk result (λ bytes. IsLookedUp (option_map (λ b. b.value) held.now) direction net.now word.now bytes.items) }
    ensures trouble { IfErr result (IsNoLook (option_map (λ b. b.value) held.now) net.now word.now) }
{
    let opened = opened(held)?;
    let net = line_of(net)?;
    let word = line_of(word)?;
    let bytes = reply_to_word(alloc, opened.version(), direction, net, word)?;
    Ok(bytes)
}

/// The reply to a word that is looked up in an AT&T text.
pub(crate) fn looked_up_in_saved(
    alloc: Global,
    held: &Option<Box<Held>>,
    word: &[u8],
) -> Result<Vec<u8>, Trouble>
    ensures reply { IfOk result (λ bytes. IsLookedUpInSaved (option_map (λ b. b.value) held.now) word.now bytes.items) }
    ensures trouble { IfErr result (IsNoLookInSaved (option_map (λ b. b.value) held.now) word.now) }
{
    let owner = saved_in(held)?;
    let word = line_of(word)?;
    let word = nfc(alloc, word)?;
    let bytes = owner
        .network()
        .reply_to(alloc, FIRST_VERSION, word.as_str())?;
    Ok(bytes)
}

/// The reply to a text whose words are looked up in a name and told in glosses.
pub(crate) fn glossed(
    alloc: Global,
    held: &Option<Box<Held>>,
    net: &[u8],
    text: &[u8],
) -> Result<Vec<u8>, Trouble>
    ensures reply { IfOk result (λ bytes. IsGlossed (option_map (λ b. b.value) held.now) net.now text.now bytes.items) }
    ensures trouble { IfErr result (IsNoLook (option_map (λ b. b.value) held.now) net.now text.now) }
{
    let opened = opened(held)?;
    let net = line_of(net)?;
    let text = line_of(text)?;
    let net = nfc(alloc, net)?;
    let text = nfc(alloc, text)?;
    let bytes = opened.version().gloss(alloc, net.as_str(), text.as_str())?;
    Ok(bytes)
}

/// How many texts there are, and each on a line.
fn listed(alloc: Global, texts: &[Text]) -> Result<Vec<u8>, AllocError>
    ensures { IfOk result (λ bytes. bytes.items ≡ listed texts.now) }
{
    let count = texts.len();
    let mut lines = format!(in alloc; "{count}\n")?;
    'texts: for text in texts {
        lines.push_str(text.as_str())?;
        lines.push('\n')?;
    }
    Ok(lines.into_bytes())
}

/// The texts of symbols.
fn texts_of(alloc: Global, alphabet: &Alphabet, symbols: &[Sym]) -> Result<Vec<Text>, AllocError>
    requires { IsOver (symbols_of alphabet.now) symbols.now }
    ensures { IfOk result (λ texts. texts.items ≡ spelled alphabet.now symbols.now) }
{
    let mut texts = Vec::new(alloc);
    'symbols: for symbol in symbols {
        texts.push(alphabet.text(alloc, &[*symbol])?)?;
    }
    Ok(texts)
}

/// The symbols of a word, each on a line.
pub(crate) fn cut_up(
    alloc: Global,
    held: &Option<Box<Held>>,
    word: &[u8],
) -> Result<Vec<u8>, Trouble>
    ensures reply { IfOk result (λ bytes. IsCut (option_map (λ b. b.value) held.now) word.now bytes.items) }
    ensures trouble { IfErr result (IsNoCut (option_map (λ b. b.value) held.now) word.now) }
{
    let opened = opened(held)?;
    let word = line_of(word)?;
    let word = nfc(alloc, word)?;
    let alphabet = opened.project().alphabet();
    match alphabet.tokens(alloc, word.as_str()) {
        Ok(symbols) => {
            let texts = texts_of(alloc, alphabet, &symbols)?;
            let bytes = listed(alloc, &texts)?;
            Ok(bytes)
        }
        Err(TokensError::NoSymbol { at }) => Err(Trouble::NoSymbol(at)),
        Err(TokensError::Memory(_)) => Err(Trouble::Memory),
    }
}

/// The names, each on a line.
pub(crate) fn names_in(alloc: Global, held: &Option<Box<Held>>) -> Result<Vec<u8>, Trouble>
    ensures reply { IfOk result (λ bytes. AreListed (option_map (λ b. b.value) held.now) bytes.items) }
    ensures trouble { IfErr result (IsWhyNone (option_map (λ b. b.value) held.now)) }
{
    let opened = opened(held)?;
    let names = opened.version().names(alloc)?;
    let bytes = listed(alloc, &names)?;
    Ok(bytes)
}

/// The first fault.
pub(crate) fn fault_in(alloc: Global, held: &Option<Box<Held>>) -> Result<Vec<u8>, Trouble>
    ensures reply { IfOk result (λ bytes. IsFault (option_map (λ b. b.value) held.now) bytes.items) }
    ensures trouble { IfErr result (IsNoFault (option_map (λ b. b.value) held.now)) }
{
    let Some(held) = held else {
        return Err(Trouble::State);
    };
    match held.as_ref() {
        Held::Faulty(fault) => {
            let bytes = refused(alloc, fault)?;
            Ok(bytes)
        }
        Held::Unreadable(refusal) => {
            let file = refusal.file.as_str();
            let bytes = saved_networks::refused(alloc, file, refusal.line, refusal.why)?;
            Ok(bytes)
        }
        Held::Gathered(_) | Held::Open(_) | Held::Saved(_) => Err(Trouble::State),
    }
}
