//! Where each rule is broken, one file a group of rules.
pub mod links;
pub mod names;
pub mod numbers;
pub mod repeats;
pub mod spot;
pub mod stages;
