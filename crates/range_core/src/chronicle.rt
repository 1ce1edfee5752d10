//! A range as the value of a turn cell: what its history and its seats have to do with it, and how seats are cut.
ghost use Rattle.std.specs.Prelude.{◌≡◌, ◌<◌};

use crate::claims::Claims;
use crate::entry::Entry;
use crate::range::Range;
use turn_cell::{Chronicle, Cut};

impl Chronicle for Range {
    ghost use Rattle.range_core.specs.ClaimsView.{MayMerge, merged_claims};
    ghost use Rattle.range_core.specs.RangeTruth.{RangeTruth};

    type Claims = Claims;

    type Entry = Entry;

    ghost truth = { RangeTruth };

    ghost may_merge = { MayMerge };

    ghost merges = { λ into from both. both ≡ merged_claims into from };

    fn merge(into: &mut Claims, from: Claims) {
        into.take_in(from);
    }
}

/// Cuts a seat of a new caller off: it gets the lowest spare caller number.
#[derive(Clone, Copy)]
pub struct NextCaller {}

impl Cut<Range> for NextCaller {
    ghost use Rattle.range_core.specs.ClaimsView.{next_claims, rest_claims};

    ghost may_cut = { λ _ claims. 0 < claims.spare };

    ghost cuts = { λ _ claims _ left right. (left ≡ rest_claims claims) × (right ≡ next_claims claims) };

    fn cut(&mut self, claims: &mut Claims) -> Claims {
        claims.next_caller()
    }
}

/// Cuts a seat for a ticket off: it works under the same caller number.
#[derive(Clone, Copy)]
pub struct SameCaller {}

impl Cut<Range> for SameCaller {
    ghost use Rattle.range_core.specs.ClaimsView.{ticket_claims};

    ghost may_cut = { λ _ _. Unit {0} };

    ghost cuts = { λ _ claims _ left right. (left ≡ claims) × (right ≡ ticket_claims claims) };

    fn cut(&mut self, claims: &mut Claims) -> Claims {
        claims.same_caller()
    }
}

/// Cuts a seat off that carries the loan of this one: it works under the same caller number and has the claim, and the
/// first seat has none any more. Once the loan comes back, a join brings both together as they were.
#[derive(Clone, Copy)]
pub struct WithLoan {}

impl Cut<Range> for WithLoan {
    ghost use Rattle.range_core.specs.ClaimsView.{loan_claims, released};

    ghost may_cut = { λ _ _. Unit {0} };

    ghost cuts = { λ _ claims _ left right. (left ≡ released claims) × (right ≡ loan_claims claims) };

    fn cut(&mut self, claims: &mut Claims) -> Claims {
        claims.with_loan()
    }
}
