//! Recoveries of a region as the commands see them, and checks and maps of images.
//!
//! `recovering` recovers a region, and answers what was found or why it is refused (`recovery`). `checking` recovers the bytes of
//! a region, and writes its report, or another `output`. `gathered` does so from the metadata alone. `imaging` recovers them on
//! this thread, and `gathered_image` the metadata, for looks into them, whose answer is in `answered`, and for `mapping`, which
//! tells what the blocks are used for. `files` checks and maps images in files, and `several` checks several. `plain` gathers the
//! metadata of those in plain files. `explained` writes a report with what is wrong below it, in `sentences`. `gone` lets go of what
//! was found.
#![tactic(auto)]

mod answered;
mod checking;
mod explained;
mod files;
mod gathered;
mod gathered_image;
mod gone;
mod imaging;
mod laws;
mod mapping;
mod output;
mod plain;
mod recovering;
mod recovery;
mod sentences;
mod several;

pub use answered::Answered;
pub use checking::{check_region, check_region_as};
pub use explained::explain_region;
pub use files::{check_file, explain_file, map_file};
pub use gathered::{BlocksError, check_blocks, check_gathered};
pub use gathered_image::{GatheredImage, recover_gathered};
pub use gone::let_go;
pub use imaging::{Image, recover_image};
pub use laws::{any_workers, one_check};
pub use mapping::{Mapped, map_blocks, map_cells, map_gathered, write_map};
pub use nv_metadata::{Blocks, Gathered, gather};
pub use nv_text::Output;
pub use plain::{READERS, gather_plain, see_unchanged, why_plain_refused};
pub use recovering::{recover_alone, recover_or_stop, recover_region, replay_or_stop};
pub use recovery::Answer;
pub use several::check_files;
