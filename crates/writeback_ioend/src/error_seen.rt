//! How many failed writebacks of each file a caller has been told of.
ghost use Rattle.std.specs.Prelude.{◌≡◌, ◌<◌, IfOk, length, replicate, set};
ghost use Rattle.writeback_ioend.specs.ErrorCounts.{count_of, greater_counts};

use iob_base::FileId;
use std::alloc::{AllocError, Global};
use std::marker::Model;

/// For each file, the count of its failed writebacks that a caller has been told of. Contracts see it as the list of these
/// counts.
#[derive(Debug, Drop)]
pub struct ErrorSeen {
    counts: Vec<u64>,
}

impl Model for ErrorSeen {
    ghost use Rattle.std.specs.Prelude.{ℕ, List};

    ghost Value = { List ℕ };

    ghost view = { λ seen. seen.counts.items };
}

impl ErrorSeen {
    /// Nothing is told yet of any of so many files.
    ///
    /// # Errors
    ///
    /// Want of memory.
    pub fn new(alloc: Global, files: u32) -> Result<ErrorSeen, AllocError>
        ensures { IfOk result (λ seen. seen ≡ replicate files 0) }
    {
        let counts = Vec::from_elem(alloc, 0, files as usize)?;
        Ok(ErrorSeen { counts })
    }

    /// How many failed writebacks of a file were told.
    pub fn get(&self, file: FileId) -> u64
        requires { file.0 < length self.now }
        ensures { result ≡ count_of self.now file }
    {
        self.counts[file.0 as usize]
    }

    // The caller is told of this many of a file. It answers how many were told before.
    pub(crate) fn tell(&mut self, file: FileId, count: u64) -> u64
        requires { file.0 < length self.old }
        ensures told { result ≡ count_of self.old file }
        ensures counts { self.new ≡ set self.old file.0 count }
    {
        let told = self.counts[file.0 as usize];
        self.counts[file.0 as usize] = count;
        told
    }

    /// What was told to another caller too: of each file the greater count.
    pub fn merge(&mut self, other: &ErrorSeen)
        requires { length self.old ≡ length other.now }
        ensures { self.new ≡ greater_counts self.old other.now }
    {
        for place in 0..self.counts.len() {
            self.counts[place] = self.counts[place].max(other.counts[place]);
        }
    }
}
