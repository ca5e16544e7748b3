ghost use Rattle.std.specs.Prelude.{◌≡◌};

use fsm_base::Text;
use lexc_forms::Letter;
use std::marker::Model;

/// Letters that stand together. Contracts see the list of them.
#[derive(Debug, Drop)]
pub struct Word {
    /// The letters.
    inner: Vec<Letter>,
}

impl Model for Word {
    ghost use Rattle.std.specs.Prelude.{List};
    ghost use Rattle.lexc_forms.specs.declared.letters.Letter.{Letter};

    ghost Value = { List Letter };

    ghost view = { λ word. word.inner.items };
}

impl Word {
    /// The letters, in their order.
    pub fn letters(&self) -> &[Letter]
        ensures { result.now ≡ self.now }
    {
        &self.inner
    }
}

/// Takes letters over, with no copy.
impl From<Vec<Letter>> for Word {
    ghost from_gives = { λ letters word. word ≡ letters.items };

    fn from(inner: Vec<Letter>) -> Word {
        Word { inner }
    }
}

/// A token of a lexc text.
#[derive(Debug, Drop)]
pub enum Token {
    /// A word.
    Word(Word),
    /// `;`.
    Semicolon,
    /// What stands between `<` and `>`.
    Expression(Text),
}
