//! A source and a sink in memory, which fail at the calls that they are told.
ghost use Rattle.std.specs.Prelude.{◌≡◌, ℕ, ◌+◌, ◌≤◌, Some, true, false, min, length, take, drop, ◌++◌, is_err, IfOk, OnOk, OnErr};
ghost use Rattle.iob_base.specs.Memory.{is_next_listed};
ghost use Rattle.iob_base.specs.Outside.{HasCause, IsPieceLength, ReadsTold, TakesTold, KeepsTold, finished_after_write, finished_after_finish};

use crate::outside::{Failed, Sink, Source};
use std::alloc::Global;
use std::marker::Model;

/// Bytes in memory as a source. The calls whose numbers, from 1, are listed fail.
#[derive(Debug, Drop)]
pub struct MemSource {
    bytes: Vec<u8>,
    at: usize,
    failing: Vec<u64>,
    calls: u64,
    faults: u64,
}

impl Model for MemSource {
    ghost use Rattle.std.specs.Prelude.{◌≤◌, vec_len, drop};
    ghost use Rattle.iob_base.specs.Memory.{SourceView};

    ghost Value = { SourceView };

    ghost view = { λ s. record { left = drop s.at s.bytes.items; calls = s.calls; failing = s.failing.items; faults = s.faults } };

    ghost invariant = { λ s. s.at ≤ vec_len s.bytes };
}

impl MemSource {
    ghost use Rattle.iob_base.specs.Memory.{source_of};

    /// The source of these bytes. It takes no memory.
    pub fn new(bytes: Vec<u8>, failing: Vec<u64>) -> MemSource
        ensures { result ≡ source_of bytes.items failing.items }
    {
        MemSource {
            bytes,
            at: 0,
            failing,
            calls: 0,
            faults: 0,
        }
    }

    /// How many calls failed.
    pub fn faults(&self) -> u64
        ensures { result ≡ self.now.faults }
    {
        self.faults
    }
}

impl Source for MemSource {
    ghost use Rattle.iob_base.specs.Memory.{source_failed, source_read};

    ghost left = { λ s. Some s.left };

    ghost faults = { λ s. s.faults };

    fn read(&mut self, into: &mut [u8]) -> Result<usize, Failed>
        ensures bound { IfOk result (λ n. n ≤ length into.old) }
        ensures bytes { ReadsTold (Some self.old.left) result into.old into.new (Some self.new.left) }
        ensures cause { HasCause self.old.faults result self.new.faults }
        ensures listed { is_err result ≡ is_next_listed self.old.failing self.old.calls }
        ensures ok { IfOk result (λ n. self.new ≡ source_read self.old n) }
        ensures count { IfOk result (λ n. n ≡ min (length into.old) (length self.old.left)) }
        ensures err { OnErr result (self.new ≡ source_failed self.old) }
    {
        let fails = has_listed(self.failing.as_slice(), self.calls);
        self.calls = self.calls.saturating_add(1);
        if fails {
            self.faults = self.faults.saturating_add(1);
            return Err(Failed);
        }
        let count = fill(into, &self.bytes[self.at..]);
        self.at += count;
        Ok(count)
    }
}

/// Memory as a sink. The calls whose numbers, from 1, are listed fail: writes and finishes are counted
/// together.
#[derive(Debug, Drop)]
pub struct MemSink {
    taken: Vec<u8>,
    failing: Vec<u64>,
    calls: u64,
    faults: u64,
    finished: bool,
}

impl Model for MemSink {
    ghost use Rattle.iob_base.specs.Memory.{SinkView};

    ghost Value = { SinkView };

    ghost view = { λ s. record { taken = s.taken.items; calls = s.calls; failing = s.failing.items; faults = s.faults; finished = s.finished } };
}

impl MemSink {
    ghost use Rattle.iob_base.specs.Memory.{sink_of};

    /// A sink that took nothing yet. It takes no memory.
    pub fn new(alloc: Global, failing: Vec<u64>) -> MemSink
        ensures { result ≡ sink_of failing.items }
    {
        MemSink {
            taken: Vec::new(alloc),
            failing,
            calls: 0,
            faults: 0,
            finished: false,
        }
    }

    /// The bytes taken so far.
    pub fn bytes(&self) -> &[u8]
        ensures { result.now ≡ self.now.taken }
    {
        self.taken.as_slice()
    }

    /// How many calls failed.
    pub fn faults(&self) -> u64
        ensures { result ≡ self.now.faults }
    {
        self.faults
    }
}

impl Sink for MemSink {
    ghost use Rattle.iob_base.specs.Memory.{sink_failed, sink_holds};

    ghost taken = { λ s. Some s.taken };

    ghost faults = { λ s. s.faults };

    ghost finished = { λ s. s.finished };

    fn write(&mut self, from: &[u8]) -> Result<usize, Failed>
        ensures bound { IfOk result (λ n. IsPieceLength n from.now) }
        ensures bytes { TakesTold (Some self.old.taken) result from.now (Some self.new.taken) }
        ensures finished { self.new.finished ≡ finished_after_write result self.old.finished }
        ensures cause { HasCause self.old.faults result self.new.faults }
        ensures listed { OnOk result (is_next_listed self.old.failing self.old.calls ≡ false) }
        ensures ok { IfOk result (λ n. (n ≡ length from.now) × (self.new ≡ sink_holds self.old (self.old.taken ++ from.now) (finished_after_write result self.old.finished))) }
        ensures err { OnErr result (self.new ≡ sink_failed self.old) }
    {
        let fails = has_listed(self.failing.as_slice(), self.calls);
        self.calls = self.calls.saturating_add(1);
        if fails || self.taken.extend_from_slice(from).is_err() {
            self.faults = self.faults.saturating_add(1);
            return Err(Failed);
        }
        if !from.is_empty() {
            self.finished = false;
        }
        Ok(from.len())
    }

    fn finish(&mut self) -> Result<(), Failed>
        ensures bytes { KeepsTold (Some self.old.taken) (Some self.new.taken) }
        ensures finished { self.new.finished ≡ finished_after_finish result self.old.finished }
        ensures cause { HasCause self.old.faults result self.new.faults }
        ensures listed { is_err result ≡ is_next_listed self.old.failing self.old.calls }
        ensures ok { OnOk result (self.new ≡ sink_holds self.old self.old.taken true) }
        ensures err { OnErr result (self.new ≡ sink_failed self.old) }
    {
        let fails = has_listed(self.failing.as_slice(), self.calls);
        self.calls = self.calls.saturating_add(1);
        if fails {
            self.faults = self.faults.saturating_add(1);
            return Err(Failed);
        }
        self.finished = true;
        Ok(())
    }
}

fn has_listed(failing: &[u64], calls: u64) -> bool
    ensures { result ≡ is_next_listed failing.now calls }
{
    let next = u128::from(calls) + 1;
    failing.iter().any(|number| u128::from(*number) == next)
}

fn fill(into: &mut [u8], from: &[u8]) -> usize
    ensures count { result ≡ min (length into.old) (length from.now) }
    ensures bytes { into.new ≡ take result from.now ++ drop result into.old }
{
    let count = into.len().min(from.len());
    into[..count].copy_from_slice(&from[..count]);
    count
}
