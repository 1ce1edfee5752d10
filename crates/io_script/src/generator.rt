//! A large script that a number gives: on one file, each caller in stripes of its own.
ghost use Rattle.std.specs.Prelude.{◌≡◌, ◌<◌, ◌≤◌, [], ◌∷◌, codes, replicate, IfOk};
ghost use Rattle.io_script.specs.Generated.{
  CALLS_GENERATED,
  block_count,
  block_length,
  block_offset,
  byte_length,
  byte_offset,
  caller_of,
  draws_from,
  drawn,
  first_byte,
  generated,
  generated_call,
  generated_calls,
  generated_file,
  next_state,
  pages_in,
  phase_of,
  state_after,
  stripe_of,
  verb_in,
  written_byte,
};

use io_model::{Call, FileSpec, Script, Verb};
use iob_base::{FileId, Geometry, Items, Mode};
use std::alloc::{AllocError, Global};

/// How many calls there are: 32 phases of eight calls of each of eight callers.
const CALLS: u64 = 2048;

/// How many bytes a stripe has.
const STRIPE: u64 = 32768;

/// The numbers from which a call is made, drawn one after another.
#[derive(Clone, Copy)]
pub struct Draws {
    pub r1: u32,
    pub r2: u32,
    pub r3: u32,
}

/// Bytes of the file.
#[derive(Clone, Copy)]
pub struct Place {
    pub off: u64,
    pub len: u64,
}

/// The state of the random numbers that follows another.
fn next(x: u64) -> u64
    ensures { result ≡ next_state x }
{
    x.wrapping_mul(6364136223846793005)
        .wrapping_add(1442695040888963407)
}

/// The number that is drawn at a state.
fn number_at(x: u64) -> u32
    ensures { result ≡ drawn x }
{
    (x / 4294967296) as u32
}

/// The numbers of a call, and the state after them.
fn draw(state: u64) -> (Draws, u64)
    ensures numbers { result.0 ≡ draws_from state }
    ensures state { result.1 ≡ state_after state }
{
    let first = next(state);
    let second = next(first);
    let third = next(second);
    let draws = Draws {
        r1: number_at(first),
        r2: number_at(second),
        r3: number_at(third),
    };
    (draws, third)
}

/// The bytes of a call that may begin at any byte of its stripe.
fn bytes_in_stripe(first: u64, d: Draws) -> Place
    requires { first ≤ 1015808 }
    ensures off { result.off ≡ byte_offset first d }
    ensures len { result.len ≡ byte_length first d }
{
    let off = first + u64::from(d.r2) % STRIPE;
    let len = (1 + u64::from(d.r3) % 2048).min(first + STRIPE - off);
    Place { off, len }
}

/// How many blocks a direct call asks.
fn blocks_asked(d: Draws) -> u64
    ensures value { result ≡ block_count d }
    ensures small { result ≤ 8 }
{
    (1 + u64::from(d.r3) % 8).min(64 - u64::from(d.r2) % 64)
}

/// The bytes of a direct call.
fn blocks_in_stripe(first: u64, d: Draws) -> Place
    requires { first ≤ 1015808 }
    ensures off { result.off ≡ block_offset first d }
    ensures len { result.len ≡ block_length d }
{
    let off = first + 512 * (u64::from(d.r2) % 64);
    Place {
        off,
        len: 512 * blocks_asked(d),
    }
}

/// One segment of so many bytes, all of them those of the draws.
fn segments(alloc: Global, d: Draws, len: u64) -> Result<Items<Items<u8>>, AllocError>
    ensures { IfOk result (λ all. all ≡ replicate len (written_byte d) ∷ []) }
{
    let byte = (d.r1 / 16777216) as u8;
    let mut all = Items::new(alloc);
    all.push(Items::from_vec(vec![in alloc; byte; len as usize]?))?;
    Ok(all)
}

/// One segment of so many bytes, to be read.
fn lengths(alloc: Global, len: u64) -> Result<Items<u64>, AllocError>
    ensures { IfOk result (λ all. all ≡ len ∷ []) }
{
    let mut all = Items::new(alloc);
    all.push(len)?;
    Ok(all)
}

/// What a call in a stripe does. Want of memory is the only error.
fn verb(alloc: Global, stripe: u64, d: Draws) -> Result<Verb, AllocError>
    requires { stripe < 32 }
    ensures { IfOk result (λ v. v ≡ verb_in stripe d) }
{
    let bytes = bytes_in_stripe(STRIPE * stripe, d);
    let blocks = blocks_in_stripe(STRIPE * stripe, d);
    match d.r1 % 8 {
        0 => Ok(Verb::Pread {
            off: bytes.off,
            lengths: lengths(alloc, bytes.len)?,
        }),
        2 => Ok(Verb::Dread {
            off: blocks.off,
            lengths: lengths(alloc, blocks.len)?,
        }),
        3 => Ok(Verb::Dwrite {
            off: blocks.off,
            segments: segments(alloc, d, blocks.len)?,
        }),
        4 => Ok(Verb::Zero {
            off: bytes.off,
            length: bytes.len,
        }),
        5 => Ok(Verb::Punch {
            off: bytes.off,
            length: bytes.len,
        }),
        6 => Ok(Verb::Wb {
            from: 64 * stripe,
            blocks: 64,
        }),
        _ => Ok(Verb::Pwrite {
            off: bytes.off,
            segments: segments(alloc, d, bytes.len)?,
        }),
    }
}

/// How many user pages a call has.
fn pages(d: Draws) -> u64
    ensures value { result ≡ pages_in d }
    ensures small { result ≤ 8 }
{
    match d.r1 % 8 {
        2 | 3 => blocks_asked(d),
        _ => 0,
    }
}

/// A call by its number from 0, the number of the next user page, and what was drawn for it. Want of
/// memory is the only error.
fn call(alloc: Global, n: u64, page: u64, d: Draws) -> Result<Call, AllocError>
    requires { n < CALLS_GENERATED }
    ensures { IfOk result (λ call. call ≡ generated_call n page d) }
{
    let phase = n / 64;
    let caller = n / 8 % 8;
    Ok(Call {
        phase: phase as u32 + 1,
        caller: caller as u32,
        file: FileId(0),
        first_page: page,
        verb: verb(alloc, (4 * caller + phase) % 32, d)?,
    })
}

/// All calls, in order. Want of memory is the only error.
fn calls(alloc: Global, seed: u64) -> Result<Items<Call>, AllocError>
    ensures { IfOk result (λ all. all ≡ generated_calls CALLS_GENERATED 0 seed 0) }
{
    let mut all = Items::new(alloc);
    let mut state = seed;
    let mut page: u64 = 0;
    for n in 0..CALLS {
        let (d, after) = draw(state);
        all.push(call(alloc, n, page, d)?)?;
        page += pages(d);
        state = after;
    }
    Ok(all)
}

/// The one file. Want of memory is the only error.
fn files(alloc: Global) -> Result<Items<FileSpec>, AllocError>
    ensures { IfOk result (λ files. files ≡ generated_file ∷ []) }
{
    let mut files = Items::new(alloc);
    files.push(FileSpec {
        mode: Mode::Cached,
        blocks: 2048,
        size: None,
        extents: Items::new(alloc),
    })?;
    Ok(files)
}

/// Its name. Want of memory is the only error.
fn names(alloc: Global) -> Result<Items<Items<u8>>, AllocError>
    ensures { IfOk result (λ names. names ≡ codes "g" ∷ []) }
{
    let mut names = Items::new(alloc);
    names.push(Items::from_slice(alloc, b"g")?)?;
    Ok(names)
}

/// The script that a number gives, and always the same one: 2048 calls of eight callers in 32 phases,
/// on a cached file of 2048 blocks of 512 bytes. In a phase each caller has 64 blocks that no other
/// caller meets.
///
/// # Errors
///
/// Want of memory, and nothing else.
pub fn generate(alloc: Global, seed: u64) -> Result<Script, AllocError>
    ensures { IfOk result (λ script. script ≡ generated seed) }
{
    let Ok(geometry) = Geometry::new(512, 8) else {
        unreachable!()
    };
    Ok(Script {
        geometry,
        device_blocks: 8192,
        fill: 0xee,
        blocks: Items::new(alloc),
        names: names(alloc)?,
        files: files(alloc)?,
        faults: Items::new(alloc),
        calls: calls(alloc, seed)?,
    })
}
