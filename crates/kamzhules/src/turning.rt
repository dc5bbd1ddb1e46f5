// Readings from C: turned by a phase, and clean.
ghost use Rattle.std.specs.Prelude.{◌≡◌};
ghost use Rattle.kamzhules.specs.Fronts.{any_front, turn_number, turn_reading, clean_number, clean_reading};
ghost use Rattle.kamzhules.specs.Refused.{number_in};

use crate::front_kind::FrontKind;
use crate::refused::{Refused, number};
use code::Phase;

// Turns the reading of one place by one phase.
#[unsafe(no_mangle)]
pub extern "C" fn kz_turn(front: u8, phases: u8, reading: &mut [u16]) -> u8
    ensures number { result ≡ turn_number (any_front front) }
    ensures reading { reading.new ≡ turn_reading (any_front front) phases reading.old }
{
    number(turn(front, phases, reading))
}

fn turn(front: u8, phases: u8, reading: &mut [u16]) -> Result<(), Refused>
    ensures number { number_in result ≡ turn_number (any_front front) }
    ensures reading { reading.new ≡ turn_reading (any_front front) phases reading.old }
{
    FrontKind::try_from(front)?.turned(phases, reading);
    Ok(())
}

// Writes the clean reading of a phase.
#[unsafe(no_mangle)]
pub extern "C" fn kz_clean(front: u8, phases: u8, phase: u8, reading: &mut [u16]) -> u8
    ensures number { result ≡ clean_number (any_front front) phases phase reading.old }
    ensures reading { reading.new ≡ clean_reading (any_front front) phases phase reading.old }
{
    number(clean(front, phases, phase, reading))
}

fn clean(front: u8, phases: u8, phase: u8, reading: &mut [u16]) -> Result<(), Refused>
    ensures number { number_in result ≡ clean_number (any_front front) phases phase reading.old }
    ensures reading { reading.new ≡ clean_reading (any_front front) phases phase reading.old }
{
    if FrontKind::try_from(front)?.clean(phases, Phase(phase), reading) {
        Ok(())
    } else {
        Err(Refused::Nowhere)
    }
}
