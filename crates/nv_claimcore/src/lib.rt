//! The claims of recovery's workers as a pure state machine: what each worker knows, what one step of a worker does,
//! which steps are allowed, and what is true after every list of allowed steps. It has no thread and no atomic word.
//!
//! Recovery hands out tickets by a cursor. A worker draws a ticket, claims each block that the ticket's inodes own, and
//! marks each block whose claim it lost. The first set has the claimed blocks, the second those that were claimed twice
//! or more.
#![tactic(auto)]

mod event;
mod history;
mod laws;
mod refusal;
mod schedule;
mod state;
mod view;
mod worker;

pub use event::Event;
pub use history::run;
pub use laws::{cursor_is_bounded, every_list_is_legal, finished_sets, one_order_of_ends};
pub use refusal::CoreRefusal;
pub use schedule::replay;
pub use state::ClaimState;
pub use view::{Record, Sizes, View};
pub use worker::Worker;
