//! How far a call has come.

use iob_base::Fault;

/// How far a call has come in its range: the place in the file, how many bios it sent, and what stopped it.
#[derive(Clone, Copy, Debug)]
pub struct Progress {
    pub at: u64,
    pub bios: u64,
    pub fault: Option<Fault>,
}
