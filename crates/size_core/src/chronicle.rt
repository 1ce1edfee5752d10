//! A size as the value of a turn cell: what its history and its seats have to do with it, and how seats are cut.
ghost use Rattle.std.specs.Prelude.{◌≡◌, ◌<◌};

use crate::claims::SizeClaims;
use crate::entry::SizeEntry;
use crate::sizes::Sizes;
use turn_cell::{Chronicle, Cut};

impl Chronicle for Sizes {
    ghost use Rattle.size_core.specs.ClaimsView.{MayMerge, merged_claims};
    ghost use Rattle.size_core.specs.SizeTruth.{SizeTruth};

    type Claims = SizeClaims;

    type Entry = SizeEntry;

    ghost truth = { SizeTruth };

    ghost may_merge = { MayMerge };

    ghost merges = { λ into from both. both ≡ merged_claims into from };

    fn merge(into: &mut SizeClaims, from: SizeClaims) {
        into.take_in(from);
    }
}

/// Cuts a seat of a new caller off: it gets the lowest spare caller number.
#[derive(Clone, Copy)]
pub struct NextCaller {}

impl Cut<Sizes> for NextCaller {
    ghost use Rattle.size_core.specs.ClaimsView.{next_claims, rest_claims};

    ghost may_cut = { λ _ claims. 0 < claims.spare };

    ghost cuts = { λ _ claims _ left right. (left ≡ rest_claims claims) × (right ≡ next_claims claims) };

    fn cut(&mut self, claims: &mut SizeClaims) -> SizeClaims {
        claims.next_caller()
    }
}

/// Cuts another seat of the same caller off.
#[derive(Clone, Copy)]
pub struct SameCaller {}

impl Cut<Sizes> for SameCaller {
    ghost use Rattle.size_core.specs.ClaimsView.{same_claims};

    ghost may_cut = { λ _ _. Unit {0} };

    ghost cuts = { λ _ claims _ left right. (left ≡ claims) × (right ≡ same_claims claims) };

    fn cut(&mut self, claims: &mut SizeClaims) -> SizeClaims {
        claims.same_caller()
    }
}
