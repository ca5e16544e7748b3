ghost use Rattle.std.specs.Prelude.{◌≡◌, ◌++◌, codes, decimal, IfOk};
ghost use Rattle.std.specs.String.{string_bytes};
ghost use Rattle.word_relations.specs.Answers.{strings};
ghost use Rattle.lookup_answers.specs.Answers.{found_of};
ghost use Rattle.interlinear.specs.Replies.{analysis_of, gloss_in};

use crate::columns::Cell;
use crate::table::GlossTable;
use fsm_base::Text;
use lookup_answers::Answer;
use std::alloc::{AllocError, Global};

/// A text, and how many there are of which it is the first.
fn counted(alloc: Global, text: &str, count: usize) -> Result<Text, AllocError>
    ensures { IfOk result (λ analysis. analysis ≡ text.now ++ codes "(" ++ decimal count ++ codes ")") }
{
    let analysis = format!(in alloc; "{text}({count})")?;
    Text::from_string(analysis)
}

/// The first of texts, with their number where there are several.
fn first_of(alloc: Global, texts: &[Text]) -> Result<Text, AllocError>
    ensures { IfOk result (λ analysis. analysis ≡ analysis_of (strings texts.now)) }
{
    match texts {
        [] => Text::of(alloc, "*"),
        [text] => text.clone(),
        [text, ..] => counted(alloc, text.as_str(), texts.len()),
    }
}

/// What is found of a word, as an analysis.
fn analysis_of(alloc: Global, answer: &Answer) -> Result<Text, AllocError>
    ensures { IfOk result (λ analysis. analysis ≡ analysis_of (found_of answer.now)) }
{
    match answer {
        Answer::Strings(texts) => first_of(alloc, texts),
        Answer::More => Text::of(alloc, "*more"),
        Answer::Loop { .. } => Text::of(alloc, "*loop"),
    }
}

/// What is found of a word, in glosses.
fn gloss_in(alloc: Global, table: &GlossTable, answer: &Answer) -> Result<Text, AllocError>
    ensures { IfOk result (λ gloss. gloss ≡ gloss_in table.now (found_of answer.now)) }
{
    let Answer::Strings(texts) = answer else {
        return Text::of(alloc, "*");
    };
    match texts.first() {
        Some(text) => table.gloss(alloc, text.as_str()),
        None => Text::of(alloc, "*"),
    }
}

impl Cell {
    /// The cell of a word of which that is found when it is looked up: the first text, with their number where there are
    /// several, and its gloss. Where there is none the analysis is `*`, where there are more than are listed `*more`, where
    /// they are without end `*loop`; the gloss is `*` then.
    pub fn found(
        alloc: Global,
        table: &GlossTable,
        word: Text,
        answer: &Answer,
    ) -> Result<Cell, AllocError>
        ensures word { IfOk result (λ cell. cell.word ≡ word) }
        ensures analysis { IfOk result (λ cell. cell.analysis ≡ analysis_of (found_of answer.now)) }
        ensures gloss { IfOk result (λ cell. cell.gloss ≡ gloss_in table.now (found_of answer.now)) }
    {
        let analysis = analysis_of(alloc, answer)?;
        let gloss = gloss_in(alloc, table, answer)?;
        Ok(Cell {
            word,
            analysis,
            gloss,
        })
    }

    /// The cell of a word in which no symbol begins at some place: `*symbol`, and `*` as its gloss.
    pub fn without_symbol(alloc: Global, word: Text) -> Result<Cell, AllocError>
        ensures word { IfOk result (λ cell. cell.word ≡ word) }
        ensures analysis { IfOk result (λ cell. cell.analysis ≡ codes "*symbol") }
        ensures gloss { IfOk result (λ cell. cell.gloss ≡ codes "*") }
    {
        Ok(Cell {
            word,
            analysis: Text::of(alloc, "*symbol")?,
            gloss: Text::of(alloc, "*")?,
        })
    }
}
