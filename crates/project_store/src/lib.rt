//! A project and its networks.
//!
//! - [`project_of`]: the project of sources, as a [`Ready`], or why there is none, a [`StoreError`].
//! - [`Project`]: its definitions and its alphabet.
//! - [`Network`]: a name that is looked up in, with the network of its definition, and the replies to words and to texts.
//! - [`network_at`]: the network of one definition, for which those before it are built. [`fill`], [`reply_in`], [`gloss_in`]: the same
//!   step by step, for many names: the network of one definition, and the replies of a network.
//! - [`read`], [`with_centres`]: the steps of [`project_of`], where some networks are there before. [`Shared`]: a network with several
//!   owners, and [`copied`] makes one of its own.
//!
//! Inside, `reading` makes the project and refuses it where `centres` finds an empty centre, `ready` keeps what was built to see that, `building` builds the networks of definitions, each of those
//! before it, `shared` has those that several owners have, `network` has the one that is looked up in, `answers` the replies to words, and `glosses` those to texts whose words are glossed.
#![tactic(auto)]

mod answers;
mod building;
mod centres;
mod glosses;
mod network;
mod project;
mod reading;
mod ready;
mod shared;
mod store_error;

pub use answers::reply_in;
pub use building::{fill, network_at};
pub use glosses::gloss_in;
pub use network::Network;
pub use project::Project;
pub use reading::{project_of, read, with_centres};
pub use ready::Ready;
pub use shared::{Shared, copied};
pub use store_error::StoreError;
