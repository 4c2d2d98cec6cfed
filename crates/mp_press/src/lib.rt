//! Weights of movements, and the stages of greatest pressure.
//!
//! A movement weighs its own queue against the queues behind it, and a stage presses with the weights
//! that its movements can serve: max-pressure control (Varaiya 2013), after the back-pressure of
//! Tassiulas and Ephremides (1992).
#![tactic(auto)]

mod cache;
mod memory;
mod queues;
mod small;
mod stages;
mod weights;

pub use cache::Cache;
pub use memory::NoMemory;
pub use queues::{behind, queue_of};
pub use stages::{choose, choose_all};
pub use weights::weight;
