//! What `nova_check` can be asked to do, among it the check of an image with what is pending in its journals above the report.
#![tactic(auto)]

mod answering;
mod checking;

pub use answering::answer_check;
pub use checking::check_region_with_journals;
