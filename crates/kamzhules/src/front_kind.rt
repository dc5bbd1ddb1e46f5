// The fronts, as C names them by numbers.
ghost use Rattle.std.specs.Prelude.{◌≡◌, cond};
ghost use Rattle.fronts.specs.Clean.{clean_goes};
ghost use Rattle.kamzhules.specs.Fronts.{Names, meaning_of};

use crate::refused::Refused;
use code::Phase;
use fronts::{Front, Lost, Strike, Table};

#[derive(Clone, Copy, Debug, PartialEq, Eq)]
pub(crate) enum FrontKind {
    Table,
    Strike,
    LostTable,
    LostStrike,
}

impl TryFrom<u8> for FrontKind {
    type Error = Refused;

    ghost try_from_gives = { Names };

    fn try_from(number: u8) -> Result<FrontKind, Refused> {
        match number {
            0 => Ok(FrontKind::Table),
            1 => Ok(FrontKind::Strike),
            2 => Ok(FrontKind::LostTable),
            3 => Ok(FrontKind::LostStrike),
            _ => Err(Refused::NoFront),
        }
    }
}

// Each of the two has its switch: the fronts' scores have two types, so that no `dyn Front` is any of the four, and a trait
// above `Front` would say the clauses of both once more.
impl FrontKind {
    pub(crate) fn turned(self, phases: u8, reading: &mut [u16])
        ensures { reading.new ≡ (meaning_of self).turn phases reading.old }
    {
        match self {
            FrontKind::Table => Table.turned(phases, reading),
            FrontKind::Strike => Strike.turned(phases, reading),
            FrontKind::LostTable => Lost(Table).turned(phases, reading),
            FrontKind::LostStrike => Lost(Strike).turned(phases, reading),
        }
    }

    pub(crate) fn clean(self, phases: u8, phase: Phase, reading: &mut [u16]) -> bool
        ensures answer { result ≡ clean_goes (meaning_of self) phases phase.0 reading.old }
        ensures reading { reading.new ≡ cond (clean_goes (meaning_of self) phases phase.0 reading.old) ((meaning_of self).clean phases phase.0) reading.old }
    {
        match self {
            FrontKind::Table => Table.clean(phases, phase, reading),
            FrontKind::Strike => Strike.clean(phases, phase, reading),
            FrontKind::LostTable => Lost(Table).clean(phases, phase, reading),
            FrontKind::LostStrike => Lost(Strike).clean(phases, phase, reading),
        }
    }
}
