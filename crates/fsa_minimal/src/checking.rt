ghost use Rattle.std.specs.Prelude.{◌≡◌, ◌<◌, ◌≤◌, ◌+◌, ◌⊎◌, ℕ, Some, IfSome, IsTrue, length, slice_get};
ghost use Rattle.fsa_minimal.specs.Images.{GoesOnAs, AreImages};
ghost use Rattle.fsa_minimal.specs.Fewest.{AreReachedBelow};

use fsa::Dfa;
use fsm_base::Letter;

/// Whether the start becomes the start, and each state that becomes one of the second automaton is final and goes
/// on as that one: each letter leads to a state that becomes the one to which it leads there. Looks at each state
/// and letter once.
pub fn are_images<L: Letter>(a: &Dfa<L>, b: &Dfa<L>, images: &[Option<usize>]) -> bool
    requires { b.now.letters ≡ a.now.letters }
    ensures { IsTrue result → AreImages a.now b.now images.now }
{
    if image_of(images, 0) != Some(0) {
        return false;
    }
    for (state, image) in images.iter().enumerate() {
        if !becomes(a, b, images, state, *image) {
            return false;
        }
    }
    true
}

/// Whether a state becomes none, or is there and goes on as the one that it becomes.
fn becomes<L: Letter>(
    a: &Dfa<L>,
    b: &Dfa<L>,
    images: &[Option<usize>],
    state: usize,
    image: Option<usize>,
) -> bool
    requires { b.now.letters ≡ a.now.letters }
    ensures { IsTrue result → (i : ℕ) → image ≡ Some i → (state < length a.now.finals) × GoesOnAs a.now b.now images.now state i }
{
    let Some(image) = image else { return true };
    let are_there = state < a.states() && image < b.states();
    are_there && goes_on_as(a, b, images, state, image)
}

/// Whether a state is final and goes on as a state of the second automaton does.
fn goes_on_as<L: Letter>(
    a: &Dfa<L>,
    b: &Dfa<L>,
    images: &[Option<usize>],
    state: usize,
    image: usize,
) -> bool
    requires letters { b.now.letters ≡ a.now.letters }
    requires state { state < length a.now.finals }
    requires image { image < length b.now.finals }
    ensures { IsTrue result → GoesOnAs a.now b.now images.now state image }
{
    if a.is_final(state) != b.is_final(image) {
        return false;
    }
    for place in 0..a.letters().len() {
        let Some(to) = image_of(images, a.next(state, place)) else {
            return false;
        };
        if to != b.next(image, place) {
            return false;
        }
    }
    true
}

/// What a state becomes, or None where it becomes none.
fn image_of(images: &[Option<usize>], state: usize) -> Option<usize>
    ensures { IfSome result (λ image. slice_get images.now state ≡ Some (Some image)) }
{
    *images.get(state)?
}

/// Whether the start reaches each state, where each state but the start is first entered from one before it, and the
/// states are numbered in the order in which that happens. Looks at each state and letter once.
pub fn are_reached<L: Letter>(a: &Dfa<L>) -> bool
    ensures { IsTrue result → AreReachedBelow a.now (length a.now.finals) }
{
    let mut reached = 1;
    for state in 0..a.states() {
        if state >= reached {
            return false;
        }
        reached = reached_from(a, state, reached);
    }
    reached >= a.states()
}

/// Below which number the start reaches each state, once the letters are read in this state, which it reaches.
fn reached_from<L: Letter>(a: &Dfa<L>, state: usize, reached: usize) -> usize
    requires state { state < reached }
    requires there { reached ≤ length a.now.finals }
    requires before { AreReachedBelow a.now reached }
    ensures there { result ≤ length a.now.finals }
    ensures after { AreReachedBelow a.now result }
{
    let mut below = reached;
    for place in 0..a.letters().len() {
        below = more_reached(a, a.next(state, place), below);
    }
    below
}

/// One more where the state is the first one that wasn't reached before.
fn more_reached<L: Letter>(a: &Dfa<L>, to: usize, below: usize) -> usize
    requires { to < length a.now.finals }
    ensures { (result ≡ below) ⊎ ((result ≡ below + 1) × (to ≡ below)) }
{
    if to == below && below < a.states() {
        return below + 1;
    }
    below
}
