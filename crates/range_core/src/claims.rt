//! What a seat at a range claims.
ghost use Rattle.std.specs.Prelude.{◌≡◌, ◌<◌, ◌^◌};

use crate::lending::Held;
use std::marker::Model;

/// What a seat at a range claims: a caller number, the caller numbers that it may still hand on, and at most one claim
/// on blocks that are lent. Contracts see it as a `ClaimsView`.
///
/// The spare numbers are the greatest ones below 2^32.
#[derive(Drop)]
pub struct Claims {
    caller: u32,
    spare: u32,
    main: bool,
    held: Option<Held>,
}

impl Model for Claims {
    ghost use Rattle.range_core.specs.ClaimsView.{ClaimsView};

    ghost Value = { ClaimsView };

    ghost view = { λ c. record { caller = c.caller; spare = c.spare; main = c.main; held = c.held } };
}

impl Claims {
    ghost use Rattle.range_core.specs.ClaimsView.{MayMerge, first_claims, holding, loan_claims, merged_claims, next_claims, released, rest_claims, ticket_claims};

    /// The claims of the first seat: the caller number 0, and all others spare.
    pub fn first() -> Claims
        ensures { result ≡ first_claims }
    {
        Claims {
            caller: 0,
            spare: u32::MAX,
            main: true,
            held: None,
        }
    }

    /// The caller number of this seat.
    pub fn caller(&self) -> u32
        ensures { result ≡ self.now.caller }
    {
        self.caller
    }

    /// How many caller numbers this seat may hand on.
    pub fn spare(&self) -> u32
        ensures { result ≡ self.now.spare }
    {
        self.spare
    }

    /// The claims of a new caller: the lowest spare number of these, without spare numbers and without a claim.
    pub fn next_caller(&mut self) -> Claims
        requires { 0 < self.old.spare }
        ensures kept { self.new ≡ rest_claims self.old }
        ensures given { result ≡ next_claims self.old }
        ensures few { self.old.spare < 2 ^ 32 }
    {
        let caller = u32::MAX - self.spare + 1;
        self.spare -= 1;
        Claims {
            caller,
            spare: 0,
            main: true,
            held: None,
        }
    }

    /// The claims of a ticket of the same caller, without spare numbers and without a claim.
    pub fn same_caller(&self) -> Claims
        ensures { result ≡ ticket_claims self.now }
    {
        Claims {
            caller: self.caller,
            spare: 0,
            main: false,
            held: None,
        }
    }

    /// The claims of a seat that carries the loan of these: the same caller, no spare numbers, and the claim, which these give
    /// up.
    pub fn with_loan(&mut self) -> Claims
        ensures kept { self.new ≡ released self.old }
        ensures given { result ≡ loan_claims self.old }
    {
        Claims {
            caller: self.caller,
            spare: 0,
            main: false,
            held: self.held.take(),
        }
    }

    /// Takes the spare numbers and the claim of another seat, of which only one of the two may have any.
    pub(crate) fn take_in(&mut self, from: Claims)
        requires { MayMerge self.old from }
        ensures { self.new ≡ merged_claims self.old from }
    {
        self.spare += from.spare;
        if self.held.is_none() {
            self.held = from.held;
        }
    }

    /// Takes a claim on blocks that are lent.
    pub(crate) fn hold(&mut self, held: Held)
        ensures { self.new ≡ holding self.old held }
    {
        self.held = Some(held);
    }

    /// Gives its claim up.
    pub(crate) fn release(&mut self)
        ensures { self.new ≡ released self.old }
    {
        self.held = None;
    }
}
