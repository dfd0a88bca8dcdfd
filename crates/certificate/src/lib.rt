//! Certificates that no order has fewer nodes, as text.
#![tactic(auto)]

mod bounds;
mod certificate;
mod faults;
pub mod laws;
mod lines;
mod order_certificates;
mod parser;
mod reader;
mod texts;
mod words;

pub use certificate::{Certificate, CertificateParts};
pub use faults::{CertFault, LineFault};
pub use order_certificates::certificate_text;
pub use parser::MOST_BYTES;
