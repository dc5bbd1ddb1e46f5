// The score of strikes and a distance. A strike is a place whose phase lies two or more away from what was read; it is
// worth 65,536.
ghost use Rattle.std.specs.Prelude.{◌≡◌};
ghost use Rattle.fronts.specs.Scores.{strikes_worth, strikes_sum};
ghost use Rattle.std.proofs.Common.{rules};

use crate::score::Score;

#[derive(Clone, Copy, Debug, Default, PartialEq, Eq)]
pub struct Strikes {
    pub distance: u32,
    pub strikes: u16,
}

impl Strikes {
    // The worth as a number.
    pub fn worth(self) -> u64
        ensures { result ≡ strikes_worth self }
    {
        u64::from(self)
    }
}

impl From<Strikes> for u64 {
    ghost from_gives = { λ score worth. worth ≡ strikes_worth score };

    fn from(score: Strikes) -> u64 {
        u64::from(score.strikes) * 65_536 + u64::from(score.distance)
    }
}

impl Score for Strikes {
    ghost worth = { strikes_worth };

    ghost sum = { strikes_sum };

    ghost exact = { Prim.search rules };

    ghost light = { Prim.search rules };

    fn nought() -> Strikes {
        Strikes {
            distance: 0,
            strikes: 0,
        }
    }

    fn plus(self, other: Strikes) -> Strikes {
        Strikes {
            distance: self.distance.saturating_add(other.distance),
            strikes: self.strikes.saturating_add(other.strikes),
        }
    }

    fn less(self, other: Strikes) -> bool {
        self.worth() < other.worth()
    }
}
