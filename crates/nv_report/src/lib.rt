//! A recovery as a script and a check tell it: its texts, and the exit status that it leaves.
//!
//! `texts` shows a part of what was found (`part`, `shown`), for which `rows` writes the inodes, and `summary` sums it up in one
//! line. `last` has how it went. `lengths` says for a user why a region's length is refused. `threaded` writes
//! the report by several threads.
#![tactic(auto)]

mod last;
mod laws;
mod lengths;
mod part;
mod rows;
mod shown;
mod summary;
mod texts;
mod threaded;

pub use last::{Last, how_it_went};
pub use laws::{one_report, one_row_text};
pub use lengths::{BadLength, LONGEST_REGION, is_region_length};
pub use nv_outcome::Recovered;
pub use part::Part;
pub use shown::Shown;
pub use summary::summary_text;
pub use texts::{part_text, recovered_text, refused_text, shown_text};
pub use threaded::report_text;
