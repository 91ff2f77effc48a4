//! What is printed of a run: the lines of what replicas reply, and of an audit its answer in lines that a program reads, and a sentence that
//! a person understands.
#![tactic(auto)]

mod answers;
mod count_text;
mod entry_text;
mod explaining;
mod finding_lines;
mod lines;
mod receipts;
mod text;

pub use answers::{add_entry, undecided_heights};
pub use explaining::explanation;
pub use finding_lines::{add_finding, add_receipt, finding_status};
pub use lines::{add_info, add_refusal};
pub use receipts::has_receipt;
pub use text::Text;
