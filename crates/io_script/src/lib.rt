//! The written form of a script, and the printed form of a run: one text for one run.
#![tactic(auto)]

mod calls;
mod files;
mod generator;
mod hexadecimal;
mod image;
mod one_reading;
mod pages;
mod pieces;
mod ranges;
mod read;
mod reply;
mod run;
mod sizes;
mod stripes;
mod summary;

pub use files::{append_dirty_blocks, append_extents, append_journals};
pub use generator::generate;
pub use one_reading::{scripts_name_their_files, text_has_one_reading};
pub use pieces::append_counted;
pub use ranges::{numbers_of_a_run, numbers_of_a_script};
pub use read::{
    Cause, Checked, ScriptFault, TEXT_LIMIT, print_check, print_refusal, read_checked, read_script,
};
pub use reply::append_reply;
pub use run::print_run;
pub use sizes::append_size;
pub use stripes::{
    generated_callers_stay_apart, generated_calls_keep_to_stripes, generated_journals_are_known,
    generated_journals_have_one_order, generated_summary_is_known,
};
pub use summary::print_summary;
