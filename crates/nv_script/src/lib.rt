//! Scripts: their lines are read, run on a session, and answered. And what changes a region.
//!
//! `script` runs the lines one after another, and gives hints of what their answers leave out (`hinting`). `shell` runs those
//! that are typed by hand. `cleaning` shortens the logs of a region that is recovered over its bytes. `files` makes a region of a
//! file's bytes, and `formatting` a new one, with numbers that suit its blocks (`suiting`). Checks and maps are handed on.
#![tactic(auto)]

mod cleaning;
mod files;
mod formatting;
mod hinting;
mod laws;
mod script;
mod shell;
mod suiting;

pub use cleaning::{Cleaned, clean_image};
pub use files::region_of_file;
pub use formatting::{Formatted, format_image, format_limits};
pub use hinting::{Hint, Hints, LENGTH_REFUSED};
pub use laws::{one_transcript, strict_shows_first_lines};
pub use nv_image_check::{Answered, Output, check_region, check_region_as, map_cells, write_map};
pub use nv_region::{MemRegion, RegionRefusal};
pub use nv_session::CallRefusal;
pub use nv_stream::ScriptError;
pub use nv_text::{Refusal, unescaped};
pub use script::{
    Ended, run_script, run_script_on, run_script_strictly, run_script_to_end, run_script_with_hints,
};
pub use shell::{Host, run_shell};
pub use suiting::{Areas, suiting_areas};
