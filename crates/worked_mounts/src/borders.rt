//! A file of three stripes: what is left of them is joined over the borders at blocks 64 and 128.
use crate::mount_ground::{letter, started};
use crate::mount_texts::{block_text, extents_text};
use crate::single::{Begin, ended};
use io_model::{Extent, Kind};
use std::alloc::{AllocError, Global};
use std::test::Fail;

const LONG: Begin = Begin {
    device: 160,
    blocks: 150,
    size: None,
    cookie: 0,
};

// Blocks 30 to 99, over the first border, are mapped to those from 3 on, and 100 to 139, over the second, have those from
// 100 on.
const RUNS: [Extent; 2] = [
    Extent {
        block: 30,
        length: 70,
        kind: Kind::Mapped(3),
    },
    Extent {
        block: 100,
        length: 40,
        kind: Kind::Unwritten(100),
    },
];

// A block of the file as text: its number on the device and its first byte, which is that of the device.
fn wanted_text(alloc: Global, block: usize) -> Result<String, AllocError> {
    let number = match block {
        30..=99 => (block - 27) as u32,
        100..=139 => block as u32,
        _ => return String::from_str(alloc, "no sector"),
    };
    let first = char::from(letter(number));
    format!(in alloc; "{number} {first}~~~~~~~~~~~~~~~")
}

#[test]
fn extents_join_over_a_border(rt: HostRuntime) -> Result<(), Fail> {
    let alloc = rt.alloc();
    let (mount, pass) = started(alloc, LONG, &RUNS)?;
    let left = ended(mount, pass)?;
    let file = left.files.as_slice().first().ok_or("there is a file")?;
    assert_eq!(rt;
        extents_text(alloc, file.extents.as_slice())?.as_str(),
        "0+30 hole, 30+70 mapped 3, 100+40 unwritten 100, 140+10 hole"
    );
    assert_eq!(rt; file.blocks.len(), 150);
    for (at, block) in file.blocks.as_slice().iter().enumerate() {
        assert_eq!(rt;
            block_text(alloc, block)?.as_str(),
            wanted_text(alloc, at)?.as_str()
        );
    }
    assert_eq!(rt; left.free.len(), 50);
    Ok(())
}
