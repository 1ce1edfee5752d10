//! The two traits of the outside: where bytes come from, and where they go.
ghost use Rattle.std.specs.Prelude.{◌≡◌, ℕ, Bool, Option, List, ◌≤◌, length, IfOk};
ghost use Rattle.iob_base.specs.Outside.{HasCause, IsPieceLength, ReadsTold, TakesTold, KeepsTold, finished_after_write, finished_after_finish};

/// The error of a source and of a sink.
#[derive(Clone, Copy, Debug)]
pub struct Failed;

/// Where bytes come from.
///
/// `left` is the bytes that are left, where the source tells them. `faults` counts what went wrong.
pub trait Source {
    ghost left: { Self → Option (List ℕ) };

    ghost faults: { Self → ℕ };

    /// Moves some of the bytes left into `into`, and answers how many. No bytes for a buffer that is
    /// not empty means the end. `Failed` comes only where the count of faults rose.
    fn read(&mut self, into: &mut [u8]) -> Result<usize, Failed>
        ensures bound { IfOk result (λ n. n ≤ length into.old) }
        ensures bytes { ReadsTold (left self.old) result into.old into.new (left self.new) }
        ensures cause { HasCause (faults self.old) result (faults self.new) };
}

/// Where bytes go.
///
/// `taken` is the bytes taken so far, where the sink tells them. `faults` counts what went wrong.
/// `finished` says that it was finished since the last byte.
pub trait Sink {
    ghost taken: { Self → Option (List ℕ) };

    ghost faults: { Self → ℕ };

    ghost finished: { Self → Bool };

    /// Takes the first bytes of `from`, and answers how many: at least one, where there is one. `Failed`
    /// comes only where the count of faults rose, and then nothing was taken.
    fn write(&mut self, from: &[u8]) -> Result<usize, Failed>
        ensures bound { IfOk result (λ n. IsPieceLength n from.now) }
        ensures bytes { TakesTold (taken self.old) result from.now (taken self.new) }
        ensures finished { finished self.new ≡ finished_after_write result (finished self.old) }
        ensures cause { HasCause (faults self.old) result (faults self.new) };

    /// Ends the writing: what was taken is finished. It takes nothing. `Failed` comes only where the count
    /// of faults rose.
    fn finish(&mut self) -> Result<(), Failed>
        ensures bytes { KeepsTold (taken self.old) (taken self.new) }
        ensures finished { finished self.new ≡ finished_after_finish result (finished self.old) }
        ensures cause { HasCause (faults self.old) result (faults self.new) };
}
