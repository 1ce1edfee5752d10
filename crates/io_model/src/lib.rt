//! What a run of calls on files must show: the definitions that every promise is stated by, and the
//! plain types that they compare.
#![tactic(auto)]

mod file;
mod laws;
mod run;
mod script;

pub use file::{BlockEnd, Extent, FileEnd, FileSpec, Kind, SizeMark, SizeStamp, Unmounted};
pub use run::{CallEnd, LaneEnd, Run};
pub use script::{Call, Script, Verb};
