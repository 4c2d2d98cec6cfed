//! The demonstration: a network by number, its arrivals from a seeded generator, and the run over them.
#![tactic(auto)]

mod arrivals;
mod demonstration;
mod greatest;
mod laws;
mod network;
mod text;

pub use arrivals::DemoArrivals;
pub use demonstration::{PERIODS, demonstrate};
pub use laws::{
    demo_certified_law, demo_network_law, demo_permitted_law, greatest_of_law, one_demo_law,
};
pub use network::demo_net;
pub use text::put_demo;
