ghost use Rattle.std.specs.Prelude.{◌≡◌, ◌++◌, ℕ, List, length, IfOk, OnOk};
ghost use Rattle.std.specs.List.{AllZip, count_by, sum_by};
ghost use Rattle.interlinear.specs.Glosses.{Entry};
ghost use Rattle.project_meaning.specs.Projects.{Project};
ghost use Rattle.generated_report.specs.Counts.{AreCounts, is_same};
ghost use Rattle.generated_report.specs.Reports.{line_of, lines_of};
ghost use Rattle.generated_report.specs.Told.{IsTold};

use crate::told::{HowMany, Told};
use itoa::Buffer;
use std::alloc::{AllocError, Global};

/// What is counted of a project and of the words of a text.
#[derive(Clone, Copy, Debug)]
pub struct Counts {
    /// The networks of the project.
    pub names: usize,
    /// The words.
    pub words: usize,
    /// Those of which one string is found.
    pub one: usize,
    /// Those of which more are found.
    pub many: usize,
    /// Those of which none is found.
    pub none: usize,
    /// The columns that the analyses of all words take.
    pub columns: u128,
}

/// Of how many words so many strings are found.
fn count_of(told: &[Told], many: HowMany) -> usize
    ensures { result ≡ count_by (λ one. is_same one.many many) told.now }
{
    told.iter().filter(|one| one.many == many).count()
}

/// The columns that the analyses of words take together.
fn columns_of(told: &[Told]) -> u128
    ensures { result ≡ sum_by (λ one. one.columns) told.now }
{
    let mut columns = 0;
    'told: for one in told {
        columns += one.columns as u128;
    }
    columns
}

/// Puts a line behind bytes: a key, a space and a number.
fn add_line(key: &[u8], number: u128, bytes: &mut Vec<u8>) -> Result<(), AllocError>
    ensures { OnOk result (bytes.new.items ≡ bytes.old.items ++ line_of key.now number) }
{
    let mut digits = Buffer::new();
    bytes.extend_from_slice(key)?;
    bytes.push(b' ')?;
    bytes.extend_from_slice(digits.format(number).as_bytes())?;
    bytes.push(b'\n')?;
    Ok(())
}

impl Counts {
    /// The counts of a project of so many networks and of words of which this is told.
    pub fn of(names: usize, told: &[Told]) -> Counts
        ensures { (project : Project) (glosses : List Entry) (net : List ℕ) (words : List (List ℕ)) → names ≡ length project.definitions → AllZip (IsTold project glosses net) words told.now → AreCounts project glosses net words result }
    {
        Counts {
            names,
            words: told.len(),
            one: count_of(told, HowMany::One),
            many: count_of(told, HowMany::Many),
            none: count_of(told, HowMany::None),
            columns: columns_of(told),
        }
    }

    /// Its six lines.
    pub fn lines(&self, alloc: Global) -> Result<Vec<u8>, AllocError>
        ensures { IfOk result (λ bytes. bytes.items ≡ lines_of self.now) }
    {
        let mut bytes = Vec::new(alloc);
        add_line(b"names", self.names as u128, &mut bytes)?;
        add_line(b"words", self.words as u128, &mut bytes)?;
        add_line(b"one", self.one as u128, &mut bytes)?;
        add_line(b"many", self.many as u128, &mut bytes)?;
        add_line(b"none", self.none as u128, &mut bytes)?;
        add_line(b"columns", self.columns, &mut bytes)?;
        Ok(bytes)
    }
}
