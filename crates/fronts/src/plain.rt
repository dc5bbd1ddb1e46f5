// The plain score: a number that is worth itself.
ghost use Rattle.std.specs.Prelude.{◌≡◌};
ghost use Rattle.fronts.specs.Scores.{plain_worth, plain_sum};
ghost use Rattle.std.proofs.Common.{rules};

use crate::score::Score;

#[derive(Clone, Copy, Debug, Default, PartialEq, Eq)]
pub struct Plain(pub u32);

impl Plain {
    // The worth as a number.
    pub fn worth(self) -> u64
        ensures { result ≡ plain_worth self }
    {
        u64::from(self)
    }
}

impl From<Plain> for u64 {
    ghost from_gives = { λ score worth. worth ≡ plain_worth score };

    fn from(score: Plain) -> u64 {
        u64::from(score.0)
    }
}

impl Score for Plain {
    ghost worth = { plain_worth };

    ghost sum = { plain_sum };

    ghost exact = { Prim.search rules };

    ghost light = { Prim.search rules };

    fn nought() -> Plain {
        Plain(0)
    }

    fn plus(self, other: Plain) -> Plain {
        Plain(self.0.saturating_add(other.0))
    }

    fn less(self, other: Plain) -> bool {
        self.0 < other.0
    }
}
