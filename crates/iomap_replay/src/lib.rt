//! The call that replays a script: from its bytes to the printed bytes of its run. And the call that
//! only says whether a text is a script.
#![tactic(auto)]

mod blocks;
mod check;
mod device;
mod ending;
mod job;
mod lanes;
mod output;
mod range;
mod read;
mod run;
mod streams;
mod task;
mod top;

pub use check::check_script;
pub use top::replay;
