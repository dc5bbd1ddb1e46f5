// Whether the reading of a symbol can be taken.
ghost use Rattle.std.specs.Prelude.{◌≡◌, IfOk};
ghost use Rattle.receiver.specs.Refusal.{number_or, take_refusal_at};

use crate::reading::Reading;
use crate::refusal::Refusal;
use crate::sizes::held;
use code::Code;
use fronts::Front;

// The reading of the words, or why it is not taken, if so many symbols are in the block already.
pub(crate) fn takeable<'a, F: Front>(
    code: Code,
    cells: usize,
    count: usize,
    front: &'a F,
    words: &'a [u16],
) -> Result<Reading<'a, F>, Refusal>
    ensures number { number_or result ≡ take_refusal_at cells code.numbers count (F.Front.meaning front.now) words.now }
    ensures code { IfOk result (λ r. r.code ≡ code) }
    ensures front { IfOk result (λ r. r.front ≡ front.entry) }
    ensures words { IfOk result (λ r. r.words ≡ words.entry) }
{
    if count >= held(cells, code) {
        return Err(Refusal::Full);
    }
    let reading = Reading::new(code, front, words).ok_or(Refusal::Length)?;
    if !reading.is_fit() {
        return Err(Refusal::Unfit);
    }
    Ok(reading)
}
