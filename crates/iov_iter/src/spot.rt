//! Where in which page a byte is.
ghost use Rattle.std.specs.Prelude.{◌≡◌, ◌+◌, ◌-◌, ◌<◌, ◌≤◌, ◌^◌, length, sum, slice_index, vec_len};
ghost use Rattle.iov_iter.specs.IovView.{sizes};
ghost use Rattle.iov_iter.specs.Making.{IsPageSize, sizes_of};
ghost use Rattle.iov_iter.specs.Slots.{places};
ghost use Rattle.iov_iter.specs.Spots.{AreSome, Stands, byte_of};

use crate::slot::Slot;

/// A byte of a page.
#[derive(Clone, Copy)]
pub(crate) struct Spot {
    pub(crate) page: usize,
    pub(crate) offset: usize,
}

/// The spot of a byte, or the one behind all.
pub(crate) fn spot_at(page_size: u32, lengths: &[u64], at: u64) -> Spot
    requires size { IsPageSize page_size }
    requires within { at ≤ sum lengths.now }
    requires short { sum lengths.now < 2 ^ 64 }
    ensures stands { Stands (sizes_of page_size lengths.now) result }
    ensures byte { byte_of (sizes_of page_size lengths.now) result ≡ at }
{
    let size = u64::from(page_size);
    let mut page = 0;
    let mut left = at;
    for length in lengths {
        if left < *length {
            return Spot {
                page: (page + left / size) as usize,
                offset: (left % size) as usize,
            };
        }
        left -= *length;
        page += length.div_ceil(size);
    }
    Spot {
        page: page as usize,
        offset: 0,
    }
}

/// The spot `n` bytes on, within the page or at the next one's start.
pub(crate) fn spot_after(slots: &Vec<Slot>, spot: Spot, n: usize) -> Spot
    requires some { AreSome (sizes (places slots.now.items)) }
    requires page { spot.page < vec_len slots.now }
    requires within { spot.offset + n ≤ slice_index (sizes (places slots.now.items)) spot.page }
    ensures stands { Stands (sizes (places slots.now.items)) result }
    ensures byte { byte_of (sizes (places slots.now.items)) result ≡ byte_of (sizes (places slots.now.items)) spot + n }
{
    let size = slots[spot.page].len();
    let offset = spot.offset + n;
    if offset < size {
        return Spot {
            page: spot.page,
            offset,
        };
    }
    Spot {
        page: spot.page + 1,
        offset: 0,
    }
}
