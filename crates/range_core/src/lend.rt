//! How the sectors of blocks are lent with pages, and come home.
ghost use Rattle.std.specs.Prelude.{◌≡◌, ◌<◌, ◌≤◌, ◌+◌, Some, None, All, IsSome, drop, length, map, vec_len};
ghost use Rattle.iob_base.specs.Parting.{IsBare, pages_of, without_sector};
ghost use Rattle.range_core.specs.Lends.{HaveSectors, TakesHold, home_cell, home_of, lent_cell, lent_of, part_of, parts_of, written_cell};
ghost use Rattle.range_core.specs.Lookups.{first_kind};
ghost use Rattle.range_core.specs.OnRun.{on_each, on_run};

use crate::cell::Cell;
use crate::claims::Claims;
use crate::lending::{Away, Held, Lender, Lent};
use crate::spare::{Spare, shed_page};
use io_model::Kind;
use iob_base::{Part, Parts, Sector};
use std::snapshot::Snapshot;

// Takes the sector of a block, and marks the block as lent.
fn take_sector(cell: &mut Cell, away: Away, spare: &mut Spare) -> Sector
    requires { IsSome cell.old.sector }
    ensures cell { cell.new ≡ lent_cell away cell.old }
    ensures sector { Some result ≡ cell.old.sector }
{
    let Some(sector) = cell.sector.take() else {
        unreachable!()
    };
    cell.away = Some(away);
    match away.lender {
        Lender::Reading => {}
        Lender::Writeback => cell.dirty = false,
        Lender::Direct { .. } | Lender::Part { .. } => shed_page(cell, spare),
    }
    sector
}

fn lend_one(cell: &mut Cell, part: &mut Part, away: Away, spare: &mut Spare)
    requires { IsSome cell.old.sector }
    ensures cell { cell.new ≡ lent_cell away cell.old }
    ensures part { part.new ≡ part_of cell.old part.old.page }
{
    part.sector = take_sector(cell, away, spare);
}

/// Fills the sectors of the blocks from the place `low` on into these parts, in order.
fn lend_run(cells: &mut Vec<Cell>, low: usize, parts: &mut [Part], away: Away, spare: &mut Spare)
    requires within { low + length parts.old ≤ vec_len cells.old }
    requires here { HaveSectors cells.old.items low (length parts.old) }
    ensures cells { cells.new.items ≡ on_run (lent_cell away) low (length parts.old) cells.old.items }
    ensures parts { parts.new ≡ parts_of (drop low cells.old.items) (pages_of parts.old) }
{
    let mut at = low;
    for part in parts.iter_mut() {
        lend_one(&mut cells[at], part, away, spare);
        at += 1;
    }
}

fn lend_list(
    cells: &mut Vec<Cell>,
    low: usize,
    mut pages: Parts,
    away: Away,
    spare: &mut Spare,
) -> Parts
    requires within { low + length (pages_of pages) ≤ vec_len cells.old }
    requires here { HaveSectors cells.old.items low (length (pages_of pages)) }
    ensures cells { cells.new.items ≡ on_run (lent_cell away) low (length (pages_of pages)) cells.old.items }
    ensures parts { result ≡ parts_of (drop low cells.old.items) (pages_of pages) }
{
    lend_run(cells, low, pages.as_mut_slice(), away, spare);
    pages
}

/// Lends the blocks from the place `low` on, as many as there are pages. Their sectors go out with the pages, in order,
/// and the claims name them from now on. The first block is `block`. Pages that blocks lose are kept.
pub(crate) fn lend_blocks(
    cells: &mut Vec<Cell>,
    low: usize,
    block: u64,
    pages: Parts,
    away: Away,
    claims: &mut Claims,
    spare: &mut Spare,
) -> Lent
    requires some { 0 < length (pages_of pages) }
    requires within { low + length (pages_of pages) ≤ vec_len cells.old }
    requires here { HaveSectors cells.old.items low (length (pages_of pages)) }
    ensures cells { cells.new.items ≡ on_run (lent_cell away) low (length (pages_of pages)) cells.old.items }
    ensures lent { result ≡ lent_of away.ticket block (parts_of (drop low cells.old.items) (pages_of pages)) }
    ensures claims { TakesHold claims.old claims.new result away.lender (first_kind (drop low cells.old.items)) }
{
    let kind = cells[low].kind;
    let lent = Lent {
        ticket: away.ticket,
        block,
        parts: lend_list(cells, low, pages, away, spare),
    };
    take_hold(claims, &lent, away.lender, kind);
    lent
}

fn take_hold(claims: &mut Claims, lent: &Lent, lender: Lender, kind: Kind)
    ensures { TakesHold claims.old claims.new lent.now lender kind }
{
    claims.hold(Held {
        lent: Snapshot::of(lent),
        lender,
        kind,
    });
}

fn put_sector(cell: &mut Cell, sector: Sector)
    ensures { cell.new ≡ record cell.old { sector = Some sector; away = None } }
{
    cell.sector = Some(sector);
    cell.away = None;
}

fn put_home(cells: &mut Vec<Cell>, low: usize, parts: &mut [Part])
    requires { low + length parts.old ≤ vec_len cells.old }
    ensures cells { cells.new.items ≡ on_each (home_of parts.old) 0 low (length parts.old) cells.old.items }
    ensures parts { parts.new ≡ map without_sector parts.old }
{
    let mut at = low;
    for part in parts.iter_mut() {
        let sector = part.take_sector();
        put_sector(&mut cells[at], sector);
        at += 1;
    }
}

/// Brings the sectors of these parts home, to the blocks from the place `low` on. It answers the list with its pages, in
/// order, and blank sectors.
pub(crate) fn bring_home(cells: &mut Vec<Cell>, low: usize, mut parts: Parts) -> Parts
    requires { low + length parts ≤ vec_len cells.old }
    ensures cells { cells.new.items ≡ on_each (home_of parts) 0 low (length parts) cells.old.items }
    ensures pages { pages_of result ≡ map (λ p. p.page) parts }
    ensures bare { All IsBare result }
{
    put_home(cells, low, parts.as_mut_slice());
    parts
}

fn mark_written(cell: &mut Cell)
    ensures { cell.new ≡ written_cell cell.old }
{
    if let Kind::Unwritten(d) = cell.kind {
        cell.kind = Kind::Mapped(d);
    }
}

/// Makes the blocks of a run mapped, where they have space.
pub(crate) fn mark_run_written(cells: &mut Vec<Cell>, low: usize, n: usize)
    requires { low + n ≤ vec_len cells.old }
    ensures { cells.new.items ≡ on_run written_cell low n cells.old.items }
{
    for i in 0..n {
        mark_written(&mut cells[low + i]);
    }
}
