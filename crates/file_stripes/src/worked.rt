//! A file of three stripes, worked out by hand.
ghost use Rattle.std.specs.Prelude.{◌≡◌, [], ◌∷◌, length, IfOk, IfSome};
ghost use Rattle.file_stripes.specs.Taking.{AreInOrder};
ghost use Rattle.file_stripes.specs.Runs.{one_block};
ghost use Rattle.file_stripes.specs.Worked.{bare_block, two_blocks, worked_ends, worked_file};

use crate::{RunEnd, Stripe, Taken, cut_stripes, hand_out, join_ends};
use io_model::{BlockEnd, Extent, FileSpec, Kind};
use iob_base::{Geometry, Items, Mode, Sector, sectors};
use std::alloc::{AllocError, Global};
use std::process::Abort;
use std::test::Fail;

// A file of 130 blocks. Its last block has device block 0, and the blocks around the first border have 3 and 4.
fn file(alloc: Global) -> Result<FileSpec, AllocError>
    ensures { IfOk result (λ file. file ≡ worked_file) }
{
    let last = Extent {
        block: 129,
        length: 1,
        kind: Kind::Unwritten(0),
    };
    let border = Extent {
        block: 63,
        length: 2,
        kind: Kind::Mapped(3),
    };
    let extents = vec![in alloc; last, border]?;
    Ok(FileSpec {
        mode: Mode::Cached,
        blocks: 130,
        size: None,
        extents: Items::from_vec(extents),
    })
}

// The sectors of a device of six blocks. `None` where there is no memory.
fn device(alloc: Global) -> Option<Vec<Sector>>
    ensures order { IfSome result (λ sectors. AreInOrder 0 sectors.items) }
    ensures count { IfSome result (λ sectors. length sectors.items ≡ 6) }
{
    let Ok(geometry) = Geometry::new(16, 1) else {
        return None;
    };
    let Ok(all) = sectors(alloc, geometry, 6, 0) else {
        return None;
    };
    Some(all)
}

// The file alone, as the files of a device.
fn files(alloc: Global) -> Result<Vec<FileSpec>, AllocError>
    ensures { IfOk result (λ files. files.items ≡ worked_file ∷ []) }
{
    let mut files = Vec::new(alloc);
    files.push(file(alloc)?)?;
    Ok(files)
}

// The free sectors, and the stripes of the file. `None` where there is no memory.
fn cut(alloc: Global) -> Option<(Vec<Sector>, Vec<Stripe>)> {
    let all = device(alloc)?;
    let Ok(files) = files(alloc) else {
        return None;
    };
    let Ok(taken) = hand_out(alloc, all, files.as_slice()) else {
        return None;
    };
    let Taken { held, free } = taken;
    let Ok(one) = file(alloc) else {
        return None;
    };
    let mut rest = held.into_iter();
    let Ok(stripes) = cut_stripes(alloc, &one, &mut rest) else {
        return None;
    };
    Some((free, stripes))
}

// What is left of a stripe of two blocks, one extent each.
fn end(alloc: Global, first: Extent, last: Extent) -> Result<RunEnd, AllocError>
    ensures { IfOk result (λ end. end ≡ two_blocks first last) }
{
    let extents = vec![in alloc; first, last]?;
    let blocks = vec![in alloc; bare(alloc), bare(alloc)]?;
    Ok(RunEnd {
        extents: Items::from_vec(extents),
        blocks: Items::from_vec(blocks),
    })
}

fn bare(alloc: Global) -> BlockEnd
    ensures { result ≡ bare_block }
{
    BlockEnd {
        sector: None,
        dirty: None,
        journal: Items::new(alloc),
    }
}

// What is left of two stripes of two blocks, the inner two of which are mapped to device blocks 3 and 4.
fn ends(alloc: Global) -> Result<Vec<RunEnd>, AllocError>
    ensures { IfOk result (λ ends. ends.items ≡ worked_ends) }
{
    let mut ends = Vec::new(alloc);
    ends.push(end(alloc, one(0, Kind::Hole), one(1, Kind::Mapped(3)))?)?;
    ends.push(end(alloc, one(2, Kind::Mapped(4)), one(3, Kind::Hole))?)?;
    Ok(ends)
}

fn one(block: u64, kind: Kind) -> Extent
    ensures { result ≡ one_block block kind }
{
    Extent {
        block,
        length: 1,
        kind,
    }
}

fn expect_numbers(rt: &impl Abort, sectors: &[Sector], wanted: &[u32]) {
    assert_eq!(rt; sectors.len(), wanted.len());
    for (sector, number) in sectors.iter().zip(wanted) {
        assert_eq!(rt; sector.number(), *number);
    }
}

fn is_same_kind(a: Kind, b: Kind) -> bool {
    match (a, b) {
        (Kind::Hole, Kind::Hole) => true,
        (Kind::Delalloc, Kind::Delalloc) => true,
        (Kind::Unwritten(d), Kind::Unwritten(e)) => d == e,
        (Kind::Mapped(d), Kind::Mapped(e)) => d == e,
        _ => false,
    }
}

fn expect_extents(rt: &impl Abort, found: &[Extent], wanted: &[(u64, u64, Kind)]) {
    assert_eq!(rt; found.len(), wanted.len());
    for (one, other) in found.iter().zip(wanted) {
        assert_eq!(rt; one.block, other.0);
        assert_eq!(rt; one.length, other.1);
        assert!(rt; is_same_kind(one.kind, other.2));
    }
}

#[test]
fn cuts_an_extent_at_the_border(rt: HostRuntime) -> Result<(), Fail> {
    let Some((free, stripes)) = cut(rt.alloc()) else {
        return Err(Fail::from("there is memory"));
    };
    expect_numbers(&rt, &free, &[1, 2, 5]);
    let [first, second, third] = stripes.as_slice() else {
        return Err(Fail::from("there are three stripes"));
    };
    assert_eq!(rt; (first.first, first.blocks), (0, 64));
    expect_extents(&rt, first.extents.as_slice(), &[(63, 1, Kind::Mapped(3))]);
    expect_numbers(&rt, first.sectors.as_slice(), &[3]);
    assert_eq!(rt; (second.first, second.blocks), (64, 64));
    expect_extents(&rt, second.extents.as_slice(), &[(64, 1, Kind::Mapped(4))]);
    expect_numbers(&rt, second.sectors.as_slice(), &[4]);
    assert_eq!(rt; (third.first, third.blocks), (128, 2));
    expect_extents(
        &rt,
        third.extents.as_slice(),
        &[(129, 1, Kind::Unwritten(0))],
    );
    expect_numbers(&rt, third.sectors.as_slice(), &[0]);
    Ok(())
}

#[test]
fn joins_an_extent_over_the_border(rt: HostRuntime) -> Result<(), Fail> {
    let end = join_ends(rt.alloc(), ends(rt.alloc())?)?;
    assert_eq!(rt; end.blocks.len(), 4);
    let wanted = [
        (0, 1, Kind::Hole),
        (1, 2, Kind::Mapped(3)),
        (3, 1, Kind::Hole),
    ];
    expect_extents(&rt, end.extents.as_slice(), &wanted);
    Ok(())
}
