//! What a caller is answered, and what is left of a file, as text.
use io_model::{BlockEnd, Extent, Kind};
use iob_base::{Mark, Stamp};
use iomap_core::{Iomap, IomapType};
use range_core::Sample;
use std::alloc::{AllocError, Global};

// Bytes as text: zeros are dots, and those that cannot be shown are `~`.
fn add_bytes(text: &mut String, bytes: &[u8]) -> Result<(), AllocError> {
    for byte in bytes {
        let shown = match *byte {
            0 => '.',
            b'!'..=b'z' => char::from(*byte),
            _ => '~',
        };
        text.push(shown)?;
    }
    Ok(())
}

fn kind_text(alloc: Global, kind: Kind) -> Result<String, AllocError> {
    match kind {
        Kind::Hole => format!(in alloc; "hole"),
        Kind::Delalloc => format!(in alloc; "delalloc"),
        Kind::Unwritten(d) => format!(in alloc; "unwritten {d}"),
        Kind::Mapped(d) => format!(in alloc; "mapped {d}"),
    }
}

fn extent_text(alloc: Global, extent: Extent) -> Result<String, AllocError> {
    let Extent {
        block,
        length,
        kind,
    } = extent;
    let kind = kind_text(alloc, kind)?;
    format!(in alloc; "{block}+{length} {kind}")
}

/// The cookie of a sample, and its extent: its first block, how many it has, and their kind.
pub(crate) fn sample_text(alloc: Global, sample: Sample) -> Result<String, AllocError> {
    let extent = extent_text(alloc, sample.extent)?;
    format!(in alloc; "cookie {}, {extent}", sample.cookie)
}

fn type_text(kind: IomapType) -> &'static str {
    match kind {
        IomapType::Hole => "hole",
        IomapType::Delalloc => "delalloc",
        IomapType::Mapped => "mapped",
        IomapType::Unwritten => "unwritten",
    }
}

/// The cookie of a mapping, where it begins in the file and how long it is, in bytes, its type, and whether it is new.
pub(crate) fn mapping_text(alloc: Global, iomap: &Iomap) -> Result<String, AllocError> {
    let Iomap {
        offset,
        length,
        kind,
        flags,
        validity_cookie,
        ..
    } = *iomap;
    let kind = type_text(kind);
    let new = if flags.new { ", new" } else { "" };
    format!(in alloc; "cookie {validity_cookie}, {offset}+{length} {kind}{new}")
}

/// The extents of a file, in order.
pub(crate) fn extents_text(alloc: Global, extents: &[Extent]) -> Result<String, AllocError> {
    let mut text = String::new(alloc);
    for extent in extents {
        if !text.is_empty() {
            text.push_str(", ")?;
        }
        text.push_str(extent_text(alloc, *extent)?.as_str())?;
    }
    Ok(text)
}

fn mark_text(mark: Mark) -> &'static str {
    match mark {
        Mark::Done => "done",
        Mark::Landed => "landed",
        Mark::Missed => "missed",
    }
}

fn add_stamps(text: &mut String, alloc: Global, stamps: &[Stamp]) -> Result<(), AllocError> {
    for Stamp { caller, call, mark } in stamps {
        let mark = mark_text(*mark);
        text.push_str(format!(in alloc; ", {caller}.{call} {mark}")?.as_str())?;
    }
    Ok(())
}

/// The number and the bytes of a block's sector, then the bytes of its page where that is dirty, then its journal.
pub(crate) fn block_text(alloc: Global, block: &BlockEnd) -> Result<String, AllocError> {
    let mut text = String::new(alloc);
    match &block.sector {
        Some(sector) => {
            text.push_str(format!(in alloc; "{} ", sector.number())?.as_str())?;
            add_bytes(&mut text, sector.bytes())?;
        }
        None => text.push_str("no sector")?,
    }
    if let Some(page) = &block.dirty {
        text.push_str(", dirty ")?;
        add_bytes(&mut text, page.bytes.as_slice())?;
    }
    add_stamps(&mut text, alloc, block.journal.as_slice())?;
    Ok(text)
}
