//! A stripe of a file together with the file's mode and size.
use file_stripes::Stripe;
use iob_base::Mode;

/// A stripe of a file of this mode, which has this size in bytes where it has one.
#[derive(Drop)]
pub(crate) struct Piece {
    pub mode: Mode,
    pub size: Option<u64>,
    pub stripe: Stripe,
}
