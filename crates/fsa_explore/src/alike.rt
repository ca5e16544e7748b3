ghost use Rattle.std.specs.Prelude.{◌≡◌, ◌<◌, ◌+◌, ◌*◌, ◌++◌, ℕ, All, IfOk, OnOk, IsTrue, map, length, slice_index};
ghost use Rattle.fsa_explore.specs.Alike.{AddsLetter, AreAlike, AreBothAlike, ByClass, GoAlike, IsCounting, IsSpread, LeadAlike, LeadsAsFirsts};
ghost use Rattle.fsa_explore.specs.Explored.{IsExplored};

use crate::edges_by_state::EdgesByState;
use crate::lazy::{Explored, FoundLists, LazyAutomaton, explore};
use crate::signatures::signature_of;
use fsa::Dfa;
use fsm_base::Letter;
use std::alloc::{AllocError, Global};

/// Letters in classes. Letters are told by their places in a list, and those of a class act alike.
#[derive(Debug, Drop)]
pub struct LetterClasses {
    /// The class of the letter at each place.
    pub of_places: Vec<usize>,
    /// The place of one letter of each class.
    pub firsts: Vec<usize>,
}

/// The classes of letters that lead each state to the same next state. Columns are told apart by a number for each, and
/// letters with equal numbers are then checked; where two of them differ, or no numbers are equal, each letter is in a
/// class of its own. Takes time in proportion to the size of the table, which is read row by row.
pub fn columns_alike<L: Letter>(alloc: Global, a: &Dfa<L>) -> Result<LetterClasses, AllocError>
    ensures { IfOk result (λ classes. AreAlike (LeadAlike a.now) (length a.now.letters) classes.of_places.items classes.firsts.items) }
{
    let numbers = column_numbers(alloc, a)?;
    let classes = alike_in_both(alloc, &numbers, &numbers)?;
    let are_some_alike = classes.firsts.len() < numbers.len();
    if are_some_alike && lead_as_firsts(a, &classes.of_places, &classes.firsts) {
        Ok(classes)
    } else {
        all_apart(alloc, a.letters().len())
    }
}

/// A number for each column, from all its entries.
fn column_numbers<L: Letter>(alloc: Global, a: &Dfa<L>) -> Result<Vec<usize>, AllocError>
    ensures { IfOk result (λ numbers. length numbers.items ≡ length a.now.letters) }
{
    let mut numbers = vec![in alloc; 0; a.letters().len()]?;
    for state in 0..a.states() {
        for place in 0..a.letters().len() {
            numbers[place] = mixed(numbers[place], a.next(state, place));
        }
    }
    Ok(numbers)
}

/// A number from two, as the hash of Firefox mixes them.
fn mixed(number: usize, next: usize) -> usize {
    (number.rotate_left(5) ^ next).wrapping_mul(0x517c_c1b7_2722_0a95)
}

/// Whether each letter leads each state where the first letter of its class leads it.
fn lead_as_firsts<L: Letter>(a: &Dfa<L>, of_places: &[usize], firsts: &[usize]) -> bool
    requires count { length of_places.now ≡ length a.now.letters }
    requires classes { All (λ class. class < length firsts.now) of_places.now }
    requires places { All (λ first. first < length a.now.letters) firsts.now }
    ensures { IsTrue result → (state : ℕ) → state < length a.now.finals → LeadsAsFirsts a.now of_places.now firsts.now state (length of_places.now) }
{
    for state in 0..a.states() {
        if !leads_as_firsts(a, state, of_places, firsts) {
            return false;
        }
    }
    true
}

/// The same for one state.
fn leads_as_firsts<L: Letter>(
    a: &Dfa<L>,
    state: usize,
    of_places: &[usize],
    firsts: &[usize],
) -> bool
    requires state { state < length a.now.finals }
    requires count { length of_places.now ≡ length a.now.letters }
    requires classes { All (λ class. class < length firsts.now) of_places.now }
    requires places { All (λ first. first < length a.now.letters) firsts.now }
    ensures { IsTrue result → LeadsAsFirsts a.now of_places.now firsts.now state (length of_places.now) }
{
    for (place, class) in of_places.iter().enumerate() {
        if a.next(state, place) != a.next(state, firsts[*class]) {
            return false;
        }
    }
    true
}

/// Each letter in a class of its own.
fn all_apart(alloc: Global, letters: usize) -> Result<LetterClasses, AllocError>
    ensures { IfOk result (λ classes. IsCounting letters classes.of_places.items × IsCounting letters classes.firsts.items) }
{
    Ok(LetterClasses {
        of_places: numbers_below(alloc, letters)?,
        firsts: numbers_below(alloc, letters)?,
    })
}

/// The numbers below a bound, in their order.
fn numbers_below(alloc: Global, bound: usize) -> Result<Vec<usize>, AllocError>
    ensures { IfOk result (λ numbers. IsCounting bound numbers.items) }
{
    let mut numbers = Vec::with_capacity(alloc, bound)?;
    for number in 0..bound {
        numbers.push(number)?;
    }
    Ok(numbers)
}

/// The classes of the states below the bound that the same edges leave.
pub fn rows_alike(
    alloc: Global,
    rows: &EdgesByState<usize>,
    bound: usize,
) -> Result<LetterClasses, AllocError>
    ensures { IfOk result (λ classes. AreAlike (GoAlike rows.now) bound classes.of_places.items classes.firsts.items) }
{
    let mut found = FoundLists::none(alloc);
    let mut firsts = Vec::new(alloc);
    for place in 0..bound {
        let signature = signature_of(alloc, false, rows.out(place), &[], 0)?;
        add_letter(&mut found, &mut firsts, place, &signature)?;
    }
    Ok(LetterClasses {
        of_places: found.into_numbers(),
        firsts,
    })
}

/// The classes of places that have equal numbers in both lists.
pub fn alike_in_both(alloc: Global, a: &[usize], b: &[usize]) -> Result<LetterClasses, AllocError>
    requires { length a.now ≡ length b.now }
    ensures { IfOk result (λ classes. AreAlike (AreBothAlike a.now b.now) (length a.now) classes.of_places.items classes.firsts.items) }
{
    let mut found = FoundLists::none(alloc);
    let mut firsts = Vec::new(alloc);
    for (place, number) in a.iter().enumerate() {
        add_letter(&mut found, &mut firsts, place, &[*number, b[place]])?;
    }
    Ok(LetterClasses {
        of_places: found.into_numbers(),
        firsts,
    })
}

/// Adds the letter at the next place. It is in one class with the letters that have the same list.
fn add_letter(
    found: &mut FoundLists,
    firsts: &mut Vec<usize>,
    place: usize,
    list: &[usize],
) -> Result<(), AllocError>
    ensures { OnOk result (AddsLetter found.old found.new firsts.old.items firsts.new.items place list.now) }
{
    let known = found.len();
    found.push(list)?;
    if found.len() > known {
        firsts.push(place)?;
    }
    Ok(())
}

/// Builds as `explore` does, from an automaton over classes of letters: each letter leads where its class does.
pub fn explore_by_class<A: LazyAutomaton>(
    alloc: Global,
    automaton: &mut A,
    start: &[usize],
    classes: &LetterClasses,
) -> Result<Explored, AllocError>
    requires start { A.is_state automaton.old start.now }
    requires count { A.letters automaton.old ≡ length classes.now.firsts.items }
    requires within { All (λ class. class < length classes.now.firsts.items) classes.now.of_places.items }
    ensures same { OnOk result (automaton.new ≡ automaton.old) }
    ensures built { IfOk result (λ built. IsExplored (A.is_state automaton.old) (ByClass (A.leads automaton.old) classes.now.of_places.items) (A.is_final_state automaton.old) (length classes.now.of_places.items) start.now built.next.items built.finals.items) }
{
    let built = explore(alloc, automaton, start)?;
    if classes.firsts.len() == classes.of_places.len() && is_counting(&classes.of_places) {
        return Ok(built);
    }
    let next = spread(alloc, &built, classes.firsts.len(), &classes.of_places)?;
    Ok(Explored {
        next,
        finals: built.finals,
    })
}

/// Whether these are the numbers from 0 on, in their order.
fn is_counting(numbers: &[usize]) -> bool
    ensures { IsTrue result → IsCounting (length numbers.now) numbers.now }
{
    for (place, number) in numbers.iter().enumerate() {
        if *number != place {
            return false;
        }
    }
    true
}

/// The table with a column for each letter, from one with a column for each class.
fn spread(
    alloc: Global,
    built: &Explored,
    count: usize,
    of_places: &[usize],
) -> Result<Vec<usize>, AllocError>
    requires full { length built.now.next.items ≡ length built.now.finals.items * count }
    requires within { All (λ class. class < count) of_places.now }
    ensures { IfOk result (λ spread. IsSpread built.now.next.items count of_places.now (length built.now.finals.items) spread.items) }
{
    let mut spread = Vec::new(alloc);
    for state in 0..built.finals.len() {
        add_columns(&built.next, state * count, of_places, &mut spread)?;
    }
    Ok(spread)
}

/// Adds the next state at each letter, from a row with a next state at each class.
fn add_columns(
    next: &[usize],
    row: usize,
    of_places: &[usize],
    spread: &mut Vec<usize>,
) -> Result<(), AllocError>
    requires { All (λ class. row + class < length next.now) of_places.now }
    ensures { OnOk result (spread.new.items ≡ spread.old.items ++ map (λ class. slice_index next.now (row + class)) of_places.now) }
{
    for class in of_places {
        spread.push(next[row + *class])?;
    }
    Ok(())
}
