//! A run of blocks of one file, and the events that change it.
//!
//! A range owns its blocks' sectors and pages. Callers share it as the value of a turn cell: each event is the change of
//! one turn, and the range truth of `specs/RangeTruth.antt` holds between any two turns.
//!
//! - `cell`: what is kept of a block, and the kinds that extents give
//! - `lending`, `claims`: what is lent, and what a seat claims of it
//! - `sample`, `entry`, `fault`, `direct_answer`, `loan_answer`: what events tell, what a turn is in the history, and what events are
//!   refused for
//! - `range`, `end`: the range, how it begins and ends, and its events, each in a module of its own below it
//! - `chronicle`: the range as the value of a turn cell, and how seats are cut
//! - `open`, `merge`: blocks from extents, and extents from blocks
//! - `stops`, `cookie`: what hinders an event
//! - `run`, `leading`, `parts`, `place`: runs of blocks and of bytes, and which blocks of a run an event picks
//! - `spare`, `fresh`, `paging`, `dax_bytes`: pages that are kept, pages of the cache, and the bytes of sectors
//! - `lend`, `space`: how sectors go out and come home, and the turns at the pool
//! - `stamps`, `log`, `stamp_run`: what is stamped, the list of stamps, and the runs in which it is kept
//! - `laws`: what the definitions say, tried by hand
#![tactic(auto)]

mod cell;
mod chronicle;
mod claims;
mod cookie;
mod dax_bytes;
mod direct_answer;
mod end;
mod entry;
mod fault;
mod fresh;
mod laws;
mod leading;
mod lend;
mod lending;
mod loan_answer;
mod log;
mod merge;
mod open;
mod paging;
mod parts;
mod place;
mod range;
mod run;
mod sample;
mod space;
mod spare;
mod stamp_run;
mod stamps;
mod stops;

pub use cell::Cell;
pub use chronicle::{NextCaller, SameCaller, WithLoan};
pub use claims::Claims;
pub use direct_answer::{Direct, DirectRefused, PartRefused};
pub use end::RangeEnd;
pub use entry::{Entry, Event, Outcome};
pub use fault::EventFault;
pub use io_model::{BlockEnd, Extent, Kind};
pub use laws::{
    closed_is_home, failed_read_misses, failed_write_lands_a_prefix, filled_is_warm,
    history_refuses, lawful_can_happen, loan_comes_home, loan_is_claimed, mapped_was_written,
    only_stamps_change, only_what_hinders_refuses, only_writes_map, others_stay_claimed,
    own_entries_alone, part_write_keeps_around, put_leaves_zeros_around, refusals_have_an_order,
    refused_is_quiet, return_frees_claim, sectors_last, store_leaves_zeros_around,
    store_stamps_each_block, unlawful_cannot_happen, wipe_leaves_a_hole, writeback_maps,
    writes_are_stamped,
};
pub use lending::{Away, Held, Lender, Lent};
pub use loan_answer::{LendRefused, Written};
pub use range::{
    AttachRun, DaxGetRun, DaxPutRun, DaxZeroRun, DirectBackRun, DirectNowRun, DropCleanRun,
    FetchRun, FillBackRun, FindDueRun, Found, LendDirectRun, LendPartRun, LendReadRun,
    LendWritebackRun, PreallocateRun, Range, ReserveRun, SampleRun, StoreRun, StoreZerosRun,
    Survey, SurveyRun, UnreserveRun, WipeRun, WrittenBackRun,
};
pub use sample::Sample;
