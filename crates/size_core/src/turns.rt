//! The events of a size, each as the change of one turn.
ghost use Rattle.std.specs.Prelude.{◌≤◌, ◌<◌};
ghost use Rattle.size_core.specs.SizeTurns.{Sees, Readies, Grows, Cuts, Forgets};

use crate::claims::SizeClaims;
use crate::sizes::Sizes;
use iob_base::Tag;
use std::alloc::AllocError;
use turn_cell::Change;

/// The turn of `Sizes::see`. It answers the size.
#[derive(Clone, Copy)]
pub struct SeeSize {
    pub by: Tag,
}

impl Change<Sizes> for SeeSize {
    type Out = Result<u64, AllocError>;

    ghost ready = { λ _ _ _ _. Unit {0} };

    ghost does = { λ change opening history before claims later after left out entry. Sees change later opening history before after claims left out entry };

    fn apply(&mut self, value: &mut Sizes, _claims: &mut SizeClaims) -> Result<u64, AllocError> {
        value.see(self.by)
    }
}

/// The turn of `Sizes::ready`, which makes room for one entry.
#[derive(Clone, Copy)]
pub struct ReadyRoom {}

impl Change<Sizes> for ReadyRoom {
    type Out = Result<(), AllocError>;

    ghost ready = { λ _ _ _ _. Unit {0} };

    ghost does = { λ change opening history before claims later after left out entry. Readies change later opening history before after claims left out entry };

    fn apply(&mut self, value: &mut Sizes, claims: &mut SizeClaims) -> Result<(), AllocError> {
        value.ready(claims)
    }
}

/// The turn of `Sizes::grow`, which raises the size to at least `to`.
#[derive(Clone, Copy)]
pub struct GrowSize {
    pub by: Tag,
    pub to: u64,
}

impl Change<Sizes> for GrowSize {
    type Out = ();

    ghost ready = { λ change opening _ claims. (0 < claims.rooms) × (change.to ≤ opening.end) };

    ghost does = { λ change opening history before claims later after left _ entry. Grows change later opening history before after claims left entry };

    fn apply(&mut self, value: &mut Sizes, claims: &mut SizeClaims) {
        value.grow(claims, self.by, self.to);
    }
}

/// The turn of `Sizes::cut`, which sets the size to `to`.
#[derive(Clone, Copy)]
pub struct CutSize {
    pub by: Tag,
    pub to: u64,
}

impl Change<Sizes> for CutSize {
    type Out = ();

    ghost ready = { λ change opening _ claims. (0 < claims.rooms) × (change.to ≤ opening.end) };

    ghost does = { λ change opening history before claims later after left _ entry. Cuts change later opening history before after claims left entry };

    fn apply(&mut self, value: &mut Sizes, claims: &mut SizeClaims) {
        value.cut(claims, self.by, self.to);
    }
}

/// The turn of `Sizes::forget`, which gives a room up.
#[derive(Clone, Copy)]
pub struct ForgetRoom {}

impl Change<Sizes> for ForgetRoom {
    type Out = ();

    ghost ready = { λ _ _ _ claims. 0 < claims.rooms };

    ghost does = { λ change opening history before claims later after left _ entry. Forgets change later opening history before after claims left entry };

    fn apply(&mut self, value: &mut Sizes, claims: &mut SizeClaims) {
        value.forget(claims);
    }
}
