//! The extent map: a map worked out by hand, the plain map beside it, and a large one.
ghost use Rattle.std.specs.Prelude.{◌≡◌, ◌<◌, ◌≤◌, ℕ, IfOk, length};
ghost use Rattle.extent_map.specs.Expansion.{NumbersFit};

use extent_map::{
    Extent, ExtentMap, Kind, PlainMap, lookup_is_unique, merged_list_is_unique,
    merged_list_says_the_kinds,
};
use std::alloc::{AllocError, Global};
use std::process::Abort;
use std::test::Fail;

// How many blocks the random maps have, and how many changes are tried on them.
const BLOCKS: u64 = 64;

const STEPS: u64 = 1000;

// How many blocks the large map has, and how often it is looked up.
const MANY_BLOCKS: u64 = 65_536;

const LOOKUPS: u64 = 1_000_000;

fn is_same_kind(a: Kind, b: Kind) -> bool {
    match (a, b) {
        (Kind::Hole, Kind::Hole) => true,
        (Kind::Delalloc, Kind::Delalloc) => true,
        (Kind::Unwritten(d), Kind::Unwritten(e)) => d == e,
        (Kind::Mapped(d), Kind::Mapped(e)) => d == e,
        _ => false,
    }
}

fn expect_extent(rt: &impl Abort, found: &Extent, block: u64, length: u64, kind: Kind) {
    assert_eq!(rt; found.block, block);
    assert_eq!(rt; found.length, length);
    assert!(rt; is_same_kind(found.kind, kind));
}

fn expect_same(rt: &impl Abort, found: &[Extent], wanted: &[Extent]) {
    assert_eq!(rt; found.len(), wanted.len());
    for (one, other) in found.iter().zip(wanted) {
        expect_extent(rt, one, other.block, other.length, other.kind);
    }
}

fn made(block: u64, length: u64, kind: Kind) -> Extent {
    Extent {
        block,
        length,
        kind,
    }
}

// Eight blocks of which three become mapped, and one of these a hole again.
#[test]
fn splits_a_mapped_run(rt: HostRuntime) -> Result<(), Fail> {
    let mut map = ExtentMap::new(rt.alloc(), 8)?;
    map.reserve_cuts(4)?;
    map.set(2, 3, Kind::Mapped(5));
    expect_extent(&rt, &map.lookup(3, 10), 3, 2, Kind::Mapped(6));
    map.set(3, 1, Kind::Hole);
    let extents = map.extents(rt.alloc())?;
    let wanted = [
        made(0, 2, Kind::Hole),
        made(2, 1, Kind::Mapped(5)),
        made(3, 1, Kind::Hole),
        made(4, 1, Kind::Mapped(7)),
        made(5, 3, Kind::Hole),
    ];
    expect_same(&rt, extents.as_slice(), &wanted);
    assert_eq!(rt; map.next_data(5), None);
    assert_eq!(rt; map.next_hole(4), Some(5));
    lookup_is_unique();
    merged_list_is_unique();
    merged_list_says_the_kinds();
    Ok(())
}

// The next number of a sequence that looks random.
fn next_random(seed: u64) -> u64 {
    seed.wrapping_mul(6_364_136_223_846_793_005)
        .wrapping_add(1_442_695_040_888_963_407)
}

fn kind_from(x: u64) -> Kind
    ensures { (n : ℕ) → n ≤ 64 → NumbersFit result n }
{
    let number = (x / 4 % 16) as u32;
    match x % 4 {
        0 => Kind::Hole,
        1 => Kind::Delalloc,
        2 => Kind::Unwritten(number),
        _ => Kind::Mapped(number),
    }
}

// Both maps answer alike at this block, and have the same extents.
fn expect_alike(
    rt: &(impl Abort + AllocGlobal),
    map: &ExtentMap,
    plain: &PlainMap,
    b: u64,
    max: u64,
) -> Result<(), AllocError>
    requires map { b < length map.now.kinds }
    requires plain { b < length plain.now.kinds }
    requires some { 1 ≤ max }
{
    let wanted = plain.lookup(b, max);
    expect_extent(
        rt,
        &map.lookup(b, max),
        wanted.block,
        wanted.length,
        wanted.kind,
    );
    assert_eq!(rt; map.next_data(b), plain.next_data(b));
    assert_eq!(rt; map.next_hole(b), plain.next_hole(b));
    let found = map.extents(rt.alloc())?;
    let wanted = plain.extents(rt.alloc())?;
    expect_same(rt, found.as_slice(), wanted.as_slice());
    Ok(())
}

// One random run is set in both maps, which then answer alike.
fn change_both(
    rt: &(impl Abort + AllocGlobal),
    map: &mut ExtentMap,
    plain: &mut PlainMap,
    x: u64,
) -> Result<(), AllocError>
    requires map { length map.old.kinds ≡ 64 }
    requires plain { length plain.old.kinds ≡ 64 }
    ensures map { length map.new.kinds ≡ 64 }
    ensures plain { length plain.new.kinds ≡ 64 }
{
    let b = x % BLOCKS;
    let n = 1 + x / 64 % (BLOCKS - b);
    let kind = kind_from(x / 4096);
    map.reserve_cuts(2)?;
    plain.reserve_cuts(2)?;
    map.set(b, n, kind);
    plain.set(b, n, kind);
    expect_alike(
        rt,
        map,
        plain,
        x / 262_144 % BLOCKS,
        1 + x / 16_777_216 % 70,
    )
}

#[test]
fn answers_as_the_plain_map(rt: HostRuntime) -> Result<(), Fail> {
    let mut map = ExtentMap::new(rt.alloc(), BLOCKS)?;
    let mut plain = PlainMap::new(rt.alloc(), BLOCKS)?;
    let mut seed = 29;
    for _ in 0..STEPS {
        seed = next_random(seed);
        change_both(&rt, &mut map, &mut plain, seed >> 16)?;
    }
    Ok(())
}

// A map in which every other block is mapped, each a run of its own.
fn alternating_map(alloc: Global) -> Result<ExtentMap, AllocError>
    ensures { IfOk result (λ map. length map.kinds ≡ 65536) }
{
    let mut map = ExtentMap::new(alloc, MANY_BLOCKS)?;
    map.reserve_cuts(MANY_BLOCKS)?;
    for i in 0..MANY_BLOCKS / 2 {
        map.set(2 * i, 1, Kind::Mapped(2 * i as u32));
    }
    Ok(map)
}

fn look_often(rt: &impl Abort, map: &ExtentMap)
    requires { length map.now.kinds ≡ 65536 }
{
    for i in 0..LOOKUPS {
        let b = i * 40_503 % MANY_BLOCKS;
        let found = map.lookup(b, MANY_BLOCKS);
        assert_eq!(rt; found.block, b);
        assert_eq!(rt; found.length, 1);
    }
}

#[test]
fn stands_a_million_lookups(rt: HostRuntime) -> Result<(), Fail> {
    let map = alternating_map(rt.alloc())?;
    look_often(&rt, &map);
    Ok(())
}
