//! The job of a script of the one form that is built.
ghost use Rattle.std.specs.Prelude.{◌≡◌, ◌+◌, ◌≤◌, ℕ, [], ◌∷◌, true, IfSome};
ghost use Rattle.std.specs.List.{list_all};
ghost use Rattle.io_model.specs.declared.file.Kind.TheVariants.{Mapped};
ghost use Rattle.io_model.specs.declared.script.Verb.TheVariants.{Pread};
ghost use Rattle.iomap_replay.specs.Facts.{IsShape, LiesOn, is_whole};
ghost use Rattle.iomap_replay.specs.Form.{device_of as device_said, is_few, is_first, is_form, is_mapped_in, lies_on, range_read, asked_of, file_of, job_of as job_said};
ghost use Rattle.iomap_replay.specs.Jobs.{IsFirst, IsJobOf, one_call, one_file};

use crate::blocks::lies_in_one_folio;
use io_model::{Call, Extent, FileSpec, Kind, Script, Verb};
use iob_base::{Geometry, Items, Mode};

/// The device of a script: bytes in a block, blocks, and the byte that fills them.
#[derive(Clone, Copy)]
pub struct Device {
    pub block_size: u32,
    pub blocks: u32,
    pub fill: u8,
}

/// The range of the one read: its offset and its length, in bytes.
#[derive(Clone, Copy)]
pub struct Asked {
    pub off: u64,
    pub length: u64,
}

/// What the run of a script of the one form needs of it, beside the script itself.
#[derive(Clone, Copy)]
pub struct Job {
    pub device: Device,
    pub geometry: Geometry,
    pub blocks: u64,
    pub extent: Extent,
    pub asked: Asked,
}

fn device_of(script: &Script) -> Device
    ensures { result ≡ device_said script.now }
{
    Device {
        block_size: script.geometry.block_size(),
        blocks: script.device_blocks,
        fill: script.fill,
    }
}

/// Whether each of these blocks is one of the device, and given whole.
fn are_whole(device: Device, given: &[(u32, Items<u8>)]) -> bool
    ensures { result ≡ list_all (is_whole device) given.now }
{
    given.iter().all(|block| block.0 < device.blocks && block.1.len() == device.block_size as usize)
}

fn is_few_blocks(n: u64) -> bool
    ensures value { result ≡ is_few n }
    ensures facts { result ≡ true → (1 ≤ n) × (n ≤ 65536) }
{
    1 <= n && n <= 65536
}

fn is_mapped_on(device_blocks: u32, kind: Kind, n: u64) -> bool
    ensures value { result ≡ is_mapped_in device_blocks kind n }
    ensures facts { result ≡ true → (d : ℕ) × (kind ≡ Mapped d) × (d + n ≤ device_blocks) }
{
    match kind {
        Kind::Mapped(d) => u128::from(d) + u128::from(n) <= u128::from(device_blocks),
        Kind::Hole | Kind::Delalloc | Kind::Unwritten(_) => false,
    }
}

/// Whether an extent of at least one mapped block lies in a file and on a device of so many blocks.
fn lies_in(blocks: u64, device_blocks: u32, e: &Extent) -> bool
    ensures value { result ≡ lies_on blocks device_blocks e.now }
    ensures facts { result ≡ true → LiesOn blocks device_blocks e.now }
{
    if e.length < 1 {
        return false;
    }
    if u128::from(e.block) + u128::from(e.length) > u128::from(blocks) {
        return false;
    }
    is_mapped_on(device_blocks, e.kind, e.length)
}

/// The blocks and the extent of a cached file with one extent and no size.
fn file_said(file: &FileSpec) -> Option<(u64, Extent)>
    ensures value { result ≡ file_of file.now }
    ensures facts { IfSome result (λ f. (file.now ≡ one_file f.0 f.1) × (1 ≤ f.0) × (f.0 ≤ 65536)) }
{
    if !matches!(file.mode, Mode::Cached) {
        return None;
    }
    if !is_few_blocks(file.blocks) {
        return None;
    }
    if file.size.is_some() {
        return None;
    }
    match file.extents.as_slice() {
        [extent] => Some((file.blocks, *extent)),
        _ => None,
    }
}

/// Whether a call is one of the first file by caller 0 in the first phase, before any user page.
fn is_first_call(call: &Call) -> bool
    ensures value { result ≡ is_first call.now }
    ensures facts { result ≡ true → IsFirst call.now }
{
    if call.phase != 1 {
        return false;
    }
    if call.caller != 0 {
        return false;
    }
    if call.file.0 != 0 {
        return false;
    }
    call.first_page == 0
}

fn range_of(verb: &Verb) -> Option<Asked>
    ensures value { result ≡ range_read verb.now }
    ensures facts { IfSome result (λ a. verb.now ≡ Pread a.off (a.length ∷ [])) }
{
    match verb {
        Verb::Pread { off, lengths } => match lengths.as_slice() {
            [length] => Some(Asked {
                off: *off,
                length: *length,
            }),
            _ => None,
        },
        _ => None,
    }
}

/// The range of a `pread` by caller 0 in the first phase, with one length.
fn asked_by(call: &Call) -> Option<Asked>
    ensures value { result ≡ asked_of call.now }
    ensures facts { IfSome result (λ a. call.now ≡ one_call a) }
{
    if !is_first_call(call) {
        return None;
    }
    range_of(&call.verb)
}

/// Whether the device, the extent and the range are those of the one form.
fn has_form(script: &Script, blocks: u64, extent: &Extent, asked: &Asked) -> bool
    requires file { (1 ≤ blocks) × (blocks ≤ 65536) }
    ensures value { result ≡ is_form script.now blocks extent.now asked.now }
    ensures shape { result ≡ true → IsShape (device_said script.now) script.now.geometry blocks extent.now asked.now }
    ensures whole { result ≡ true → list_all (is_whole (device_said script.now)) script.now.blocks ≡ true }
{
    if script.geometry.grain() != script.geometry.block_size() {
        return false;
    }
    let device = device_of(script);
    if !is_few_blocks(u64::from(device.blocks)) {
        return false;
    }
    if !are_whole(device, script.blocks.as_slice()) {
        return false;
    }
    if !lies_in(blocks, device.blocks, extent) {
        return false;
    }
    if asked.length < 1 {
        return false;
    }
    lies_in_one_folio(
        script.geometry.block_size(),
        script.geometry.folio_blocks(),
        extent,
        asked,
    )
}

/// The job of a script of the one form that is built, and `None` of every other script.
pub fn job_of(script: &Script) -> Option<Job>
    ensures value { result ≡ job_said script.now }
    ensures job { IfSome result (IsJobOf script.now) }
{
    if !script.faults.as_slice().is_empty() {
        return None;
    }
    let [_] = script.names.as_slice() else {
        return None;
    };
    let [file] = script.files.as_slice() else {
        return None;
    };
    let (blocks, extent) = file_said(file)?;
    let [call] = script.calls.as_slice() else {
        return None;
    };
    let asked = asked_by(call)?;
    if !has_form(script, blocks, &extent, &asked) {
        return None;
    }
    Some(Job {
        device: device_of(script),
        geometry: script.geometry,
        blocks,
        extent,
        asked,
    })
}
