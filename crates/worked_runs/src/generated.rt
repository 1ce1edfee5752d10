//! The script that a number gives, beside its lines as they are told, and its summary beside a plain
//! run of its calls, one after another, on bytes in memory.
ghost use Rattle.std.specs.Prelude.{◌≡◌, length, IfOk};

use io_model::{BlockEnd, Call, CallEnd, FileEnd, Run, Unmounted, Verb};
use io_script::{
    generate, generated_callers_stay_apart, generated_calls_keep_to_stripes,
    generated_journals_have_one_order, print_summary, read_script,
};
use iob_base::{Answer, Geometry, Items, Mark, Reply, Stamp, Stop, sectors};
use std::alloc::{AllocError, Global};
use std::process::Abort;
use std::test::Fail;

// What the calls of 7 read, stamp and leave free was counted by another program, on the lines of the
// script.
const SUMMARY_OF_SEVEN: &[u8] =
    b"gen 7\ncalls 2048 errors 0\nread 821288 sum 33850562\nstamps 6097\nfree 6732\nend\n";

const SEED: u64 = 7;

const BLOCK: usize = 512;

const BLOCKS: usize = 2048;

// The random numbers of the lines.
#[derive(Drop)]
struct Numbers {
    state: u64,
}

impl Numbers {
    fn draw(&mut self) -> u64 {
        let next = u128::from(self.state) * 6_364_136_223_846_793_005 + 1_442_695_040_888_963_407;
        self.state = (next % 18_446_744_073_709_551_616) as u64;
        self.state / 4_294_967_296
    }
}

// The line of a call of caller `c` in phase `p`, which is counted from 0.
fn call_line(alloc: Global, numbers: &mut Numbers, p: u32, c: u32) -> Result<String, AllocError> {
    let (r1, r2, r3) = (numbers.draw(), numbers.draw(), numbers.draw());
    let stripe = (4 * u64::from(c) + u64::from(p)) % 32;
    let first = 32768 * stripe;
    let off = first + r2 % 32768;
    let len = (1 + r3 % 2048).min(first + 32768 - off);
    let block = first + 512 * (r2 % 64);
    let whole = 512 * (1 + r3 % 8).min(64 - r2 % 64);
    let byte = r1 / 16_777_216;
    match r1 % 8 {
        0 => format!(in alloc; "{c} pread g {off} {len}\n"),
        2 => format!(in alloc; "{c} dread g {block} {whole}\n"),
        3 => format!(in alloc; "{c} dwrite g {block} {byte:02x}x{whole}\n"),
        4 => format!(in alloc; "{c} zero g {off} {len}\n"),
        5 => format!(in alloc; "{c} punch g {off} {len}\n"),
        6 => format!(in alloc; "{c} wb g {} 64\n", 64 * stripe),
        _ => format!(in alloc; "{c} pwrite g {off} {byte:02x}x{len}\n"),
    }
}

// The lines of the script that `seed` gives.
fn script_text(alloc: Global, seed: u64) -> Result<Vec<u8>, AllocError> {
    let mut text = Vec::new(alloc);
    text.extend_from_slice(b"iomap 1\ndev 512 8192 ee\nfolio 8\nfile g cached 2048\n")?;
    let mut numbers = Numbers { state: seed };
    for p in 0..32u32 {
        text.extend_from_slice(b"phase\n")?;
        for c in 0..8u32 {
            for _ in 0..8u32 {
                let line = call_line(alloc, &mut numbers, p, c)?;
                text.extend_from_slice(line.as_bytes())?;
            }
        }
    }
    Ok(text)
}

fn is_same_segments(a: &[Items<u8>], b: &[Items<u8>]) -> bool {
    a.len() == b.len() && a.iter().zip(b).all(|(x, y)| x.as_slice() == y.as_slice())
}

fn is_same_verb(a: &Verb, b: &Verb) -> bool {
    match (a, b) {
        (Verb::Pread { off, lengths }, Verb::Pread { off: o, lengths: l }) => {
            off == o && lengths.as_slice() == l.as_slice()
        }
        (Verb::Dread { off, lengths }, Verb::Dread { off: o, lengths: l }) => {
            off == o && lengths.as_slice() == l.as_slice()
        }
        (
            Verb::Pwrite { off, segments },
            Verb::Pwrite {
                off: o,
                segments: s,
            },
        ) => { off == o && is_same_segments(segments.as_slice(), s.as_slice()) }
        (
            Verb::Dwrite { off, segments },
            Verb::Dwrite {
                off: o,
                segments: s,
            },
        ) => { off == o && is_same_segments(segments.as_slice(), s.as_slice()) }
        (Verb::Zero { off, length }, Verb::Zero { off: o, length: l }) => off == o && length == l,
        (Verb::Punch { off, length }, Verb::Punch { off: o, length: l }) => off == o && length == l,
        (Verb::Wb { from, blocks }, Verb::Wb { from: f, blocks: b }) => from == f && blocks == b,
        _ => false,
    }
}

fn expect_same_calls(rt: &impl Abort, found: &[Call], wanted: &[Call]) {
    assert_eq!(rt; found.len(), wanted.len());
    for (one, other) in found.iter().zip(wanted) {
        assert_eq!(rt; one.phase, other.phase);
        assert_eq!(rt; one.caller, other.caller);
        assert_eq!(rt; one.file.0, other.file.0);
        assert_eq!(rt; one.first_page, other.first_page);
        assert!(rt; is_same_verb(&one.verb, &other.verb));
    }
}

// The grammar reads the lines as the script that is made without them.
#[test]
fn generated_script_is_that_of_its_lines(rt: HostRuntime) -> Result<(), Fail> {
    let alloc = rt.alloc();
    for seed in [0, SEED, 18_446_744_073_709_551_615] {
        let made = generate(alloc, seed)?;
        let read = read_script(alloc, &script_text(alloc, seed)?);
        let Ok(read) = read else {
            panic!(rt; "the lines of {seed} are no script");
        };
        assert_eq!(rt; made.calls.len(), 2048);
        expect_same_calls(&rt, made.calls.as_slice(), read.calls.as_slice());
        assert_eq!(rt; made.geometry.block_size(), read.geometry.block_size());
        assert_eq!(rt; made.geometry.folio_blocks(), read.geometry.folio_blocks());
        assert_eq!(rt; made.device_blocks, read.device_blocks);
        assert_eq!(rt; made.fill, read.fill);
        assert_eq!(rt; made.files.len(), read.files.len());
        assert_eq!(rt; made.faults.len(), 0);
    }
    generated_calls_keep_to_stripes();
    generated_callers_stay_apart();
    generated_journals_have_one_order();
    Ok(())
}

// The file as bytes, which blocks have space, and the journals.
#[derive(Drop)]
struct Plain {
    bytes: Vec<u8>,
    has_space: Vec<bool>,
    blocks: Vec<BlockEnd>,
}

// A file of holes.
fn file_of_holes(alloc: Global) -> Result<Plain, AllocError> {
    let mut blocks = Vec::new(alloc);
    for _ in 0..BLOCKS {
        blocks.push(BlockEnd {
            sector: None,
            dirty: None,
            journal: Items::new(alloc),
        })?;
    }
    Ok(Plain {
        bytes: vec![in alloc; 0; BLOCKS * BLOCK]?,
        has_space: vec![in alloc; false; BLOCKS]?,
        blocks,
    })
}

impl Plain {
    fn fill(&mut self, off: usize, len: usize, byte: u8) {
        for i in 0..len {
            if let Some(at) = self.bytes.get_mut(off.wrapping_add(i)) {
                *at = byte;
            }
        }
    }

    fn read(&self, alloc: Global, off: usize, len: usize) -> Result<Vec<u8>, AllocError> {
        let mut got = Vec::new(alloc);
        for i in 0..len {
            if let Some(byte) = self.bytes.get(off.wrapping_add(i)) {
                got.push(*byte)?;
            }
        }
        Ok(got)
    }

    // Stamps the blocks that a call meets.
    fn stamp(&mut self, call: u32, off: usize, len: usize) -> Result<(), AllocError> {
        let stamp = Stamp {
            caller: 0,
            call,
            mark: Mark::Done,
        };
        let end = off.wrapping_add(len).wrapping_add(BLOCK - 1) / BLOCK;
        for b in off / BLOCK..end {
            if let Some(block) = self.blocks.get_mut(b) {
                block.journal.push(stamp)?;
            }
        }
        Ok(())
    }

    // Blocks of a write get space, and those that a punch meets whole lose it.
    fn set_space(&mut self, first: usize, end: usize, space: bool) {
        for b in first..end {
            if let Some(has) = self.has_space.get_mut(b) {
                *has = space;
            }
        }
    }

    fn write(&mut self, off: usize, segments: &[Items<u8>]) -> usize {
        let Some(segment) = segments.first() else {
            return 0;
        };
        let Some(byte) = segment.as_slice().first() else {
            return 0;
        };
        let len = segment.len();
        self.fill(off, len, *byte);
        let end = off.wrapping_add(len).wrapping_add(BLOCK - 1) / BLOCK;
        self.set_space(off / BLOCK, end, true);
        len
    }

    // What a call gives, and how many bytes it is of.
    fn perform(
        &mut self,
        alloc: Global,
        verb: &Verb,
    ) -> Result<(Vec<u8>, usize, usize), AllocError> {
        match verb {
            Verb::Pread { off, lengths } | Verb::Dread { off, lengths } => {
                let len = lengths.as_slice().first().copied().unwrap_or(0);
                let got = self.read(alloc, *off as usize, len as usize)?;
                Ok((got, *off as usize, len as usize))
            }
            Verb::Pwrite { off, segments } | Verb::Dwrite { off, segments } => {
                let len = self.write(*off as usize, segments.as_slice());
                Ok((Vec::new(alloc), *off as usize, len))
            }
            Verb::Zero { off, length } => {
                self.fill(*off as usize, *length as usize, 0);
                Ok((Vec::new(alloc), *off as usize, *length as usize))
            }
            Verb::Punch { off, length } => {
                let (off, len) = (*off as usize, *length as usize);
                self.fill(off, len, 0);
                let first = off.wrapping_add(BLOCK - 1) / BLOCK;
                self.set_space(first, off.wrapping_add(len) / BLOCK, false);
                Ok((Vec::new(alloc), off, len))
            }
            _ => Ok((Vec::new(alloc), 0, 0)),
        }
    }
}

// Each call answers that it did all that was asked.
fn plain_ends(
    alloc: Global,
    plain: &mut Plain,
    calls: &[Call],
) -> Result<Vec<CallEnd>, AllocError> {
    let mut ends = Vec::new(alloc);
    let mut number: u32 = 0;
    for call in calls {
        number = number.wrapping_add(1);
        let (got, off, len) = plain.perform(alloc, &call.verb)?;
        plain.stamp(number, off, len)?;
        let reply = Reply::Ok {
            count: len as u64,
            stop: Stop::Whole,
        };
        ends.push(CallEnd {
            answer: Answer { reply, bios: 0 },
            got: Items::from_vec(got),
            pages: Items::new(alloc),
        })?;
    }
    Ok(ends)
}

// The run of the calls on a file of holes: which blocks are free, and not where the others are.
fn plain_run(alloc: Global, calls: &[Call]) -> Result<Run, AllocError>
    ensures { IfOk result (λ run. length run.ends.files ≡ 1) }
{
    let mut plain = file_of_holes(alloc)?;
    let ends = plain_ends(alloc, &mut plain, calls)?;
    let mut free: u32 = 8192 - BLOCKS as u32;
    for has in &plain.has_space {
        if !*has {
            free = free.wrapping_add(1);
        }
    }
    let Ok(geometry) = Geometry::new(512, 8) else {
        unreachable!()
    };
    let mut files = Items::new(alloc);
    files.push(FileEnd {
        extents: Items::new(alloc),
        blocks: Items::from_vec(plain.blocks),
        size: None,
        sizes: Items::new(alloc),
    })?;
    Ok(Run {
        calls: Items::from_vec(ends),
        closes: Items::new(alloc),
        ends: Unmounted {
            files,
            free: Items::from_vec(sectors(alloc, geometry, free, 0xee)?),
        },
        lanes: Items::new(alloc),
    })
}

#[test]
fn summary_of_seven_is_that_of_a_plain_run(rt: HostRuntime) -> Result<(), Fail> {
    let alloc = rt.alloc();
    let script = generate(alloc, SEED)?;
    let run = plain_run(alloc, script.calls.as_slice())?;
    assert_eq!(rt;
        print_summary(alloc, SEED, &run)?.as_slice(),
        SUMMARY_OF_SEVEN
    );
    Ok(())
}
