//! Certificates of a network's slack, and vectors against a network: their check, their sums and their texts.
#![tactic(auto)]

mod checking;
mod lengths;
pub mod places;
mod print;
mod read;
mod read_lines;
mod read_numbers;
mod rules;
mod slacks;
mod text_fault;
mod text_laws;
mod types;
mod weighing;

pub use crate::checking::check;
pub use crate::lengths::has_lengths;
pub use crate::print::{print_against, print_cert};
pub use crate::read::{read_against, read_cert};
pub use crate::read_lines::TextLines;
pub use crate::slacks::slack;
pub use crate::text_fault::TextFault;
pub use crate::text_laws::{cert_length_law, cert_text_law, vector_length_law, vector_text_law};
pub use crate::types::{Against, Cert, CertFault, Mix, Mixes, Overflow, Weighed};
pub use crate::weighing::weigh;
