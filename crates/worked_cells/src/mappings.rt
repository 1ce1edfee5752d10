//! Mappings: a file system with one mapping a block, which changes them once, and a call that goes over a range of its file.
ghost use Rattle.std.specs.Prelude.{◌≡◌, ◌+◌, ◌-◌, ◌^◌, ◌≤◌, min, Some, None, IfOk, is_ok, true};
ghost use Rattle.iomap_core.specs.Mappings.{IsBegun, IsSameMapping, stale-same};

use iob_base::FileId;
use iomap_core::{BeginFault, Flags, Iomap, IomapIter, IomapOps, IomapType, MapFlags};
use std::process::Abort;
use std::sync::Wait;
use std::test::*;

const BLOCK: u64 = 16;

// A file system of files of four blocks of 16 bytes, all mapped. It changes its mappings after this begin.
#[derive(Drop)]
struct OneBlock {
    changes_at: u64,
}

// What a caller of it has done so far, and the cookie that is good now.
#[derive(Drop)]
struct Trip {
    begun: u64,
    ended: u64,
    written: u64,
    stale: u64,
    cookie: u64,
    unended: Option<Iomap>,
}

impl IomapOps for OneBlock {
    type Pass = Trip;

    ghost is_of = { λ _ _. Unit {0} };

    ghost file_end = { λ _ _. 64 };

    ghost allows = { λ _ _ _. Unit {0} };

    ghost begins = { λ _ before file pos length flags answer after. (is_ok answer ≡ true) × (after.begun ≡ min (before.begun + 1) (2 ^ 64 - 1)) × (after.ended ≡ before.ended) × IfOk answer (λ m. (m.length ≡ 16) × (after.unended ≡ Some m)) };

    ghost is_open = { λ _ pass m. IsSameMapping pass.unended m };

    ghost ends = { λ _ before m written after. (after.begun ≡ before.begun) × (after.ended ≡ min (before.ended + 1) (2 ^ 64 - 1)) × (after.written ≡ min (before.written + written) (2 ^ 64 - 1)) × (after.unended ≡ None) };

    fn begin<R: Wait>(
        &self,
        _rt: &R,
        pass: &mut Trip,
        file: FileId,
        pos: u64,
        _length: u64,
        _flags: Flags,
    ) -> Result<Iomap, BeginFault> {
        let offset = pos - pos % BLOCK;
        let iomap = Iomap {
            file,
            addr: Some(offset),
            offset,
            length: BLOCK,
            kind: IomapType::Mapped,
            flags: MapFlags {
                new: false,
                stale: false,
            },
            validity_cookie: pass.cookie,
        };
        pass.unended = Some(iomap);
        pass.begun = pass.begun.saturating_add(1);
        let changed = pass.begun == self.changes_at;
        pass.cookie = pass.cookie.saturating_add(changed as u64);
        Ok(iomap)
    }

    fn end<R: Wait>(&self, _rt: &R, pass: &mut Trip, iomap: Iomap, written: u64) {
        pass.unended = None;
        pass.ended = pass.ended.saturating_add(1);
        pass.written = pass.written.saturating_add(written);
        if iomap.flags.stale {
            pass.stale = pass.stale.saturating_add(1);
        }
    }

    ghost open_is_of = { λ _ _ _ _. tt };

    ghost stale_is_open = { λ _ pass m same. stale-same pass.unended m same };
}

// The work in one mapping: all of its bytes from the place reached on, or none where it has gone stale.
fn in_mapping<R: Wait>(
    rt: &R,
    ops: &OneBlock,
    pass: &mut Trip,
    iter: &mut IomapIter,
    mut iomap: Iomap,
)
    requires mapping { IsBegun iter.old.file iter.old.pos iomap }
    requires unfinished { iter.old.unfinished ≡ Some iomap }
    requires unended { pass.old.unended ≡ Some iomap }
    ensures unfinished { iter.new.unfinished ≡ None }
    ensures range { iter.new.pos + iter.new.left ≡ iter.old.pos + iter.old.left }
    ensures begun { pass.new.begun ≡ pass.old.begun }
    ensures ended { pass.new.ended ≡ min (pass.old.ended + 1) (2 ^ 64 - 1) }
{
    if iomap.validity_cookie != pass.cookie {
        iomap.flags.stale = true;
        return iter.finish(rt, ops, pass, iomap);
    }
    let rest = iomap.offset + iomap.length - iter.pos();
    iter.advance(rest.min(iter.left()));
    iter.finish(rt, ops, pass, iomap);
}

// Goes over `length` bytes from `pos` on. Each mapping that was begun is ended.
fn go_over<R: Wait>(rt: &R, ops: &OneBlock, pass: &mut Trip, pos: u64, length: u64) -> bool
    requires within { pos + length ≤ 64 }
    requires even { pass.old.begun ≡ pass.old.ended }
    ensures { pass.new.begun ≡ pass.new.ended }
{
    let flags = Flags {
        write: true,
        zero: false,
        report: false,
        direct: false,
        overwrite_only: false,
        dax: false,
    };
    let mut iter = IomapIter::new(FileId(0), pos, length);
    for _ in rt.forever() {
        match iter.next(rt, ops, pass, flags) {
            Ok(Some(iomap)) => in_mapping(rt, ops, pass, &mut iter, iomap),
            Ok(None) => return true,
            Err(_) => return false,
        }
    }
    unreachable!()
}

#[test]
fn each_mapping_is_ended_once(rt: HostRuntime) -> Result<(), Fail> {
    let ops = OneBlock { changes_at: 2 };
    let mut trip = Trip {
        begun: 0,
        ended: 0,
        written: 0,
        stale: 0,
        cookie: 7,
        unended: None,
    };
    assert!(rt; go_over(&rt, &ops, &mut trip, 8, 40));
    // The mappings of 8 bytes, of none as it went stale, and of 16 bytes twice.
    assert_eq!(rt; trip.begun, 4);
    assert_eq!(rt; trip.ended, 4);
    assert_eq!(rt; trip.stale, 1);
    assert_eq!(rt; trip.written, 40);
    assert_eq!(rt; trip.cookie, 8);
    Ok(())
}
