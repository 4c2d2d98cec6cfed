//! A region of cells, made once, from which spans are carved one behind the other.
#![tactic(auto)]

mod memory;
mod region;
mod span;

pub use memory::NoMemory;
pub use region::Region;
pub use span::Span;

#[cfg(test)]
mod tests;
