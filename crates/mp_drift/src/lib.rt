//! The constants of a network, and the bound of every queue under a slack.
#![tactic(auto)]

mod checked;
mod numbers;
mod queue_bounds;
mod session;
mod terms;

pub use crate::checked::signed;
pub use crate::numbers::{DriftNumbers, constants, credit_of, products, squares, step_of};
pub use crate::queue_bounds::{QueueBounds, Reached, bounds, greatest_under, has_room};
pub use crate::session::{OpenFault, Session};
pub use crate::terms::unit;
