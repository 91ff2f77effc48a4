//! Numbers and transactions as words, on a command line or in a text.
#![tactic(auto)]

mod escaped;
mod numbers;
mod shown_text;
mod spelling_fault;
mod transactions;

pub use escaped::Escaped;
pub use numbers::{decimal, number};
pub use shown_text::ShownText;
pub use spelling_fault::SpellingFault;
pub use transactions::written;
