//! The machine of published versions and their readers, event by event. `specs/Machine.antt` says what an event changes and
//! what its outcome is.
//!
//! - [`LiveState`]: a state, which takes events. [`Event`], [`Outcome`].
//! - Laws, each the contract of a function that does nothing. Of one event: [`states_stay_sound`],
//!   [`refusals_change_nothing`], [`publish_adds_one`], [`enter_sees_all`], [`learn_then_enter`]. Of lists of events:
//!   [`published_values_stay`], [`enter_answers_last`], [`numbers_never_fall`], [`greatest_number_is_seen`].
#![tactic(auto)]

mod event;
mod laws;
mod state;

pub use event::{Event, Outcome};
pub use laws::{
    enter_answers_last, enter_sees_all, greatest_number_is_seen, learn_then_enter,
    numbers_never_fall, publish_adds_one, published_values_stay, refusals_change_nothing,
    states_stay_sound,
};
pub use state::LiveState;
