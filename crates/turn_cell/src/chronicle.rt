//! What a cell's value has to do with its history, and what may change it.
ghost use Rattle.std.specs.Prelude.{List};
ghost use Rattle.turn_cell.specs.Stakes.{Stake};
ghost use Rattle.turn_cell.specs.Laws.{Standing, KeepsTurn, KeepsCut, KeepsMerge};

/// Relates a value, the history of its entries, and what all seats claim and have made.
pub trait Chronicle {
    /// What one seat claims.
    type Claims: Drop;

    /// One turn of the history. No value of it is made.
    type Entry;

    // Of the value that the cell was opened with, the value now, the history, and by seat numbers what each seat claims and made.
    ghost truth: { Self → Self → List Self.Entry → List (Stake Self.Claims Self.Entry) → Type 0 };

    // Whether the first claims may take in the second.
    ghost may_merge: { Self.Claims → Self.Claims → Type 0 };

    // Of the claims that take in, those that are taken in, and both together.
    ghost merges: { Self.Claims → Self.Claims → Self.Claims → Type 0 };

    /// Gives `into` the claims of both.
    fn merge(into: &mut Self::Claims, from: Self::Claims)
        requires { may_merge into.old from }
        ensures merged { merges into.old from into.new }
        ensures truth { KeepsMerge truth into.old from into.new };
}

/// What one turn does to the value and to the claims of its seat.
pub trait Change<T: Chronicle> {
    /// What a turn answers.
    type Out;

    // Of the change, the value that the cell was opened with, what the seat has seen, and its claims.
    ghost ready: { Self → T → List T.Entry → T.Claims → Type 0 };

    // Of the change, the opening value, the history, the value and the claims before the turn; the change, the value and the
    // claims after it; the answer; and the entry.
    ghost does: { Self → T → List T.Entry → T → T.Claims → Self → T → T.Claims → Self.Out → T.Entry → Type 0 };

    /// Changes the value and the claims, and answers. It makes one entry.
    fn apply(&mut self, value: &mut T, claims: &mut T::Claims) -> Self::Out
        requires { Standing T.truth (ready self.old) value.old claims.old }
        ensures { KeepsTurn T.truth (ready self.old) (λ opening history entry. does self.old opening history value.old claims.old self.new value.new claims.new result entry) value.old claims.old value.new claims.new };
}

/// How a seat's claims are cut in two.
pub trait Cut<T: Chronicle> {
    // Of the cut, and the claims before it.
    ghost may_cut: { Self → T.Claims → Type 0 };

    // Of the cut and the claims before it, the cut after it, the claims that are left, and those of the new seat.
    ghost cuts: { Self → T.Claims → Self → T.Claims → T.Claims → Type 0 };

    /// Takes a part of the claims for a new seat.
    fn cut(&mut self, claims: &mut T::Claims) -> T::Claims
        requires { may_cut self.old claims.old }
        ensures cut { cuts self.old claims.old self.new claims.new result }
        ensures truth { KeepsCut T.truth claims.old claims.new result };
}
