ghost use Rattle.std.specs.Prelude.{◌≡◌, ◌<◌, IfOk, length};
ghost use Rattle.std.specs.Arc.{arc_value};
ghost use Rattle.publish_board.specs.Boards.{EndsWith};

use crate::history::Beginning;
use crate::release::Release;
use left_right::Absorb;
use std::alloc::AllocError;
use std::marker::Model;
use std::sync::Arc;

/// A value, with the values up to it as proofs know them. This is what a board shows.
#[derive(Drop)]
pub struct Page<V: Release> {
    value: Arc<V>,
    upto: Beginning<V>,
}

impl<V: Release> Model for Page<V> {
    ghost use Rattle.std.specs.Prelude.{◌≡◌, length};
    ghost use Rattle.std.specs.Arc.{arc_value};
    ghost use Rattle.publish_board.specs.Published.{Published};
    ghost use Rattle.publish_board.specs.Boards.{EndsWith};

    ghost Value = { Published V };

    ghost view = { λ p. p.upto };

    ghost invariant = { λ p. EndsWith p.upto.values (arc_value p.value) × (V.number_of (arc_value p.value) ≡ length p.upto.values) };
}

impl<V: Release> Page<V> {
    pub fn new(value: Arc<V>, upto: Beginning<V>) -> Page<V>
        requires last { EndsWith upto.values (arc_value value) }
        requires number { V.number_of (arc_value value) ≡ length upto.values }
        ensures { result ≡ upto }
    {
        Page { value, upto }
    }

    pub fn value(&self) -> &V
        ensures last { EndsWith self.now.values result.now }
        ensures number { V.number_of result.now ≡ length self.now.values }
    {
        &self.value
    }

    /// The values up to this one.
    pub fn upto(&self) -> &Beginning<V>
        ensures values { result.now ≡ self.now }
        ensures filled { 0 < length self.now.values }
    {
        &self.upto
    }

    /// A copy, which shares the value. An error says that no more can share it.
    pub fn again(&self) -> Result<Page<V>, AllocError>
        ensures { IfOk result (λ copy. copy ≡ self.now) }
    {
        Ok(Page {
            value: Arc::try_clone(&self.value)?,
            upto: self.upto.again(),
        })
    }
}

/// A page is replaced by the next one.
impl<V: Release> Absorb<Page<V>> for Page<V> {
    type State = Page<V>;

    ghost state = { λ p. p };

    ghost applied = { λ _ next. next };

    fn absorb_first(&mut self, operation: &Page<V>, _other: &Page<V>) -> Result<(), AllocError> {
        *self = operation.again()?;
        Ok(())
    }

    fn absorb_second(&mut self, operation: Page<V>, _other: &Page<V>) -> Result<(), Page<V>> {
        *self = operation;
        Ok(())
    }
}

/// What a board of values `V` shows: a page. A struct with a writer of pages as a field has to be generic in what is shown.
pub trait Sheet<V>: Absorb<Self> + Drop {
    ghost use Rattle.publish_board.specs.Published.{Published};

    ghost shows: { Self → Published V };
}

impl<V: Release> Sheet<V> for Page<V> {
    ghost shows = { λ p. p };
}
