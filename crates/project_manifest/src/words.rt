ghost use Rattle.std.specs.Prelude.{◌≡◌, ◌==◌, ◌&&◌, ◌++◌, ◌∷◌, List, ℕ, [], not, map, IfOk, OnOk, MatchOption, false, true};
ghost use Rattle.std.specs.List.{list_all};
ghost use Rattle.std.specs.Str.{IsUtf8};
ghost use Rattle.regex_reader.specs.Files.{is_name};
ghost use Rattle.project_manifest.specs.Sayings.{AreTexts, as_written};
ghost use Rattle.project_manifest.specs.Manifests.{begins_with_mark, is_blank, is_epsilon, is_symbol_word, may_be_symbol, lines_from, lines_of, some_of, takes_nothing, taken_from, text_of, words_from, words_of};

use fsm_base::Text;
use regex_reader::is_name;
use regex_tokens::is_flag;
use std::alloc::{AllocError, Global};

/// Puts a byte of a text behind what was read of its line, or ends the line.
fn add_to_line(
    alloc: Global,
    byte: u8,
    line: &mut Vec<u8>,
    lines: &mut Vec<Vec<u8>>,
) -> Result<(), AllocError>
    ensures { OnOk result ((rest : List ℕ) → as_written lines.new.items ++ lines_from line.new.items rest ≡ as_written lines.old.items ++ lines_from line.old.items (byte ∷ rest)) }
{
    if is_newline(byte) {
        end_line(alloc, line, lines)?;
        return Ok(());
    }
    line.push(byte)?;
    Ok(())
}

fn is_newline(byte: u8) -> bool
    ensures { result ≡ (byte == 10) }
{
    byte == b'\n'
}

/// Ends a line.
fn end_line(alloc: Global, line: &mut Vec<u8>, lines: &mut Vec<Vec<u8>>) -> Result<(), AllocError>
    ensures line { OnOk result (line.new.items ≡ []) }
    ensures lines { OnOk result (as_written lines.new.items ≡ as_written lines.old.items ++ line.old.items ∷ []) }
{
    lines.push(std::mem::replace(line, Vec::new(alloc)))?;
    Ok(())
}

/// The lines of a text.
pub fn lines(alloc: Global, text: &[u8]) -> Result<Vec<Vec<u8>>, AllocError>
    ensures { IfOk result (λ lines. as_written lines.items ≡ lines_of text.now) }
{
    let mut lines = Vec::new(alloc);
    let mut line = Vec::new(alloc);
    'bytes: for byte in text {
        add_to_line(alloc, *byte, &mut line, &mut lines)?;
    }
    end_word(alloc, &mut line, &mut lines)?;
    Ok(lines)
}

/// Whether a byte is a space or a tab that isn't taken.
fn ends_word(taken: bool, byte: u8) -> bool
    ensures { result ≡ (not taken && is_blank byte) }
{
    !taken && (byte == b' ' || byte == b'\t')
}

/// Whether a byte is a `%` that takes the next byte, where it isn't taken itself.
fn takes(taken: bool, byte: u8) -> bool
    ensures { result ≡ (not taken && byte == 37) }
{
    !taken && byte == b'%'
}

/// Ends a line or a word, if it is any.
fn end_word(alloc: Global, word: &mut Vec<u8>, words: &mut Vec<Vec<u8>>) -> Result<(), AllocError>
    ensures word { OnOk result (word.new.items ≡ []) }
    ensures words { OnOk result (as_written words.new.items ≡ as_written words.old.items ++ some_of word.old.items) }
{
    if word.is_empty() {
        return Ok(());
    }
    end_line(alloc, word, words)
}

/// The words of a line, as they are written.
pub fn words(alloc: Global, line: &[u8]) -> Result<Vec<Vec<u8>>, AllocError>
    ensures { IfOk result (λ words. as_written words.items ≡ words_of line.now) }
{
    let mut words = Vec::new(alloc);
    let mut word = Vec::new(alloc);
    let mut taking = false;
    'bytes: for byte in line {
        taking = add_to_word(alloc, *byte, taking, &mut word, &mut words)?;
    }
    end_word(alloc, &mut word, &mut words)?;
    Ok(words)
}

/// Puts a byte of a line behind what was read of its word, or ends the word. Answers whether it takes the next byte.
fn add_to_word(
    alloc: Global,
    byte: u8,
    taking: bool,
    word: &mut Vec<u8>,
    words: &mut Vec<Vec<u8>>,
) -> Result<bool, AllocError>
    ensures { IfOk result (λ takes. (rest : List ℕ) → as_written words.new.items ++ words_from word.new.items takes rest ≡ as_written words.old.items ++ words_from word.old.items taking (byte ∷ rest)) }
{
    if ends_word(taking, byte) {
        end_word(alloc, word, words)?;
        return Ok(false);
    }
    word.push(byte)?;
    Ok(takes(taking, byte))
}

/// Whether words are those of a line that says nothing.
pub fn is_epsilon(words: &[Vec<u8>]) -> bool
    ensures { result ≡ is_epsilon (as_written words.now) }
{
    match words {
        [] => true,
        [first, ..] => begins_with_mark(first),
    }
}

/// Whether a word begins with `!`.
fn begins_with_mark(word: &[u8]) -> bool
    ensures { result ≡ begins_with_mark word.now }
{
    match word.first() {
        Some(first) => *first == b'!',
        None => false,
    }
}

/// A text by its bytes.
pub fn text_of_bytes(alloc: Global, bytes: &[u8]) -> Result<Text, AllocError>
    requires { IsUtf8 bytes.now }
    ensures { IfOk result (λ text. text ≡ bytes.now) }
{
    match std::str::from_utf8(bytes) {
        Ok(text) => Text::of(alloc, text),
        Err(_) => unreachable!(),
    }
}

/// Whether a byte is a tab behind a `%`.
fn is_wasted(taken: bool, byte: u8) -> bool
    ensures { result ≡ (taken && byte == 9) }
{
    taken && byte == b'\t'
}

/// Whether a `%` of a word takes nothing.
fn takes_nothing(word: &[u8]) -> bool
    ensures { result ≡ takes_nothing false word.now }
{
    let mut taking = false;
    'bytes: for byte in word {
        if is_wasted(taking, *byte) {
            return true;
        }
        taking = takes(taking, *byte);
    }
    taking
}

/// The bytes of a word without each `%` that takes the next one.
fn taken(alloc: Global, word: &[u8]) -> Result<Vec<u8>, AllocError>
    ensures { IfOk result (λ text. text.items ≡ text_of word.now) }
{
    let mut text = Vec::new(alloc);
    let mut taking = false;
    'bytes: for byte in word {
        taking = take_byte(*byte, taking, &mut text)?;
    }
    Ok(text)
}

/// Puts a byte of a word behind its text, unless it takes the next one. Answers whether it does.
fn take_byte(byte: u8, taking: bool, text: &mut Vec<u8>) -> Result<bool, AllocError>
    ensures { IfOk result (λ takes. (rest : List ℕ) → text.new.items ++ taken_from takes rest ≡ text.old.items ++ taken_from taking (byte ∷ rest)) }
{
    if takes(taking, byte) {
        return Ok(true);
    }
    text.push(byte)?;
    Ok(false)
}

/// Whether a text isn't empty and is no flag.
fn may_be_symbol(text: &[u8]) -> bool
    ensures { result ≡ may_be_symbol text.now }
{
    !text.is_empty() && !is_flag(text)
}

/// The symbol that a word stands for, or `None` where it stands for none.
fn symbol_of(alloc: Global, word: &[u8]) -> Result<Option<Text>, AllocError>
    requires { IsUtf8 word.now }
    ensures { IfOk result (λ symbol. MatchOption symbol (is_symbol_word word.now ≡ false) (λ text. (is_symbol_word word.now ≡ true) × (text ≡ text_of word.now))) }
{
    if takes_nothing(word) {
        return Ok(None);
    }
    let text = taken(alloc, word)?;
    if !may_be_symbol(&text) {
        return Ok(None);
    }
    let symbol = text_of_bytes(alloc, &text)?;
    Ok(Some(symbol))
}

/// The symbols that words stand for, or `None` where one stands for none.
pub fn symbols_of(alloc: Global, words: &[Vec<u8>]) -> Result<Option<Vec<Text>>, AllocError>
    requires { AreTexts (as_written words.now) }
    ensures { IfOk result (λ symbols. MatchOption symbols (list_all is_symbol_word (as_written words.now) ≡ false) (λ texts. (list_all is_symbol_word (as_written words.now) ≡ true) × (texts.items ≡ map text_of (as_written words.now)))) }
{
    let mut symbols = Vec::new(alloc);
    'words: for word in words {
        let Some(symbol) = symbol_of(alloc, word)? else {
            return Ok(None);
        };
        symbols.push(symbol)?;
    }
    Ok(Some(symbols))
}

/// The texts of words that are names, or `None` where one isn't.
pub fn names_of(alloc: Global, words: &[Vec<u8>]) -> Result<Option<Vec<Text>>, AllocError>
    requires { AreTexts (as_written words.now) }
    ensures { IfOk result (λ names. MatchOption names (list_all is_name (as_written words.now) ≡ false) (λ names. (list_all is_name (as_written words.now) ≡ true) × (names.items ≡ as_written words.now))) }
{
    let mut names = Vec::new(alloc);
    'words: for word in words {
        if !is_name(word) {
            return Ok(None);
        }
        names.push(text_of_bytes(alloc, word)?)?;
    }
    Ok(Some(names))
}
