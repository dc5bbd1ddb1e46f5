// Scores. A score stands for a whole number, its worth: the less, the better.
ghost use Rattle.std.specs.Prelude.{◌≡◌, ℕ, ◌+◌, ◌^◌, ◌<◌, nat_lt};
ghost use Rattle.fronts.specs.Light.{Light};

pub trait Score: Copy {
    // The worth of a score.
    ghost worth: { Self → ℕ };

    // The sum of two scores, beyond the exact range too.
    ghost sum: { Self → Self → Self };

    // The score of worth 0.
    fn nought() -> Self
        ensures { worth result ≡ 0 };

    fn plus(self, other: Self) -> Self
        ensures { result ≡ sum self other };

    // No `Ord`: two scores of one worth may differ, as strikes do, and `Ord` lets only equal values tie.
    fn less(self, other: Self) -> bool
        ensures { result ≡ nat_lt (worth self) (worth other) };

    // A sum is exact while it is worth less than 2^30, as the sum of 1,024 scores of places is.
    ghost exact: { (a b : Self) → worth a + worth b < 2 ^ 30 → worth (sum a b) ≡ worth a + worth b };

    // A score takes little memory, so that a table of scores can be lent.
    ghost light: { Light Self.row };
}
