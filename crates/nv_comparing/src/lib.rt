//! What differs between two images, each given as bytes: both are recovered in memory, and the trees that they show are compared.
//!
//! `shown` has the rows of a region over its memory as what is compared, `comparing` the text, and `writing` where it goes.
#![tactic(auto)]

mod comparing;
mod shown;
mod writing;

pub use comparing::Compared;
pub use writing::compare_images;
