//! Statements as bytes: the one encoding of reports, locks and acknowledgements, and its decoding.
#![tactic(auto)]

mod decoding;
mod encoding;
mod fault;
mod fields;
mod headers;
mod lengths;
mod locks;
mod values;

pub use decoding::{decode, decode_in, take_statement};
pub use encoding::{encode, put_batch, put_statement};
pub use fault::DecodeFault;
pub use fields::take_signature_bytes;
pub use lengths::{encoded_len, report_len, reports_len};
