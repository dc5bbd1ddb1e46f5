// The reading of a symbol: those of its places, one behind another, with as many words each.
ghost use Rattle.std.specs.Prelude.{◌≡◌, ◌*◌, ◌<◌, ◌↔◌, length, IsSome, IfSome};
ghost use Rattle.reception.specs.Reading.{all_fit, place_reading};

use code::Code;
use fronts::Front;

#[derive(Drop)]
pub(crate) struct Reading<'a, F: Front> {
    pub(crate) code: Code,
    pub(crate) front: &'a F,
    pub(crate) words: &'a [u16],
    width: usize,
    ghost wide: { width ≡ (F.Front.meaning front.now).width code.numbers.phases },
    ghost long: { length words.now ≡ code.numbers.places * width },
}

impl<'a, F: Front> Reading<'a, F> {
    // There is none where the words are not as many as the places have together.
    pub(crate) fn new(code: Code, front: &'a F, words: &'a [u16]) -> Option<Reading<'a, F>>
        ensures long { IsSome result ↔ (length words.now ≡ code.numbers.places * (F.Front.meaning front.now).width code.numbers.phases) }
        ensures code { IfSome result (λ r. r.code ≡ code) }
        ensures front { IfSome result (λ r. r.front ≡ front.entry) }
        ensures words { IfSome result (λ r. r.words ≡ words.entry) }
    {
        let places = usize::from(code.numbers.places);
        let width = words.len() / places;
        if words.len() % places == 0 && front.wide(code.numbers.phases, width) {
            Some(Reading {
                code,
                front,
                words,
                width,
            })
        } else {
            None
        }
    }

    // The words of one place.
    pub(crate) fn place(&self, place: u8) -> &'a [u16]
        requires { place < self.now.code.numbers.places }
        ensures { result.now ≡ place_reading ((F.Front.meaning self.now.front.now).width self.now.code.numbers.phases) self.now.words.now place }
    {
        let start = usize::from(place) * self.width;
        &self.words[start..start + self.width]
    }

    // Whether the readings of all places are fit.
    pub(crate) fn is_fit(&self) -> bool
        ensures { result ≡ all_fit (F.Front.meaning self.now.front.now) self.now.code.numbers.phases self.now.code.numbers.places self.now.words.now }
    {
        for place in 0..self.code.numbers.places {
            if !self.front.fit(self.code.numbers.phases, self.place(place)) {
                return false;
            }
        }
        true
    }
}
