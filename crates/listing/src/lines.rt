// Written lines, in fixed memory.
ghost use Rattle.std.specs.Prelude.{◌≡◌, ◌+◌, ◌<◌, ◌≤◌, [], ◌∷◌, length, decimal};
ghost use Rattle.listing.specs.Listing.{cell};
ghost use Rattle.listing.specs.Lines.{written, Appends};

use arrayvec::ArrayString;

#[derive(Drop, Debug, PartialEq, Eq)]
pub struct Lines {
    pub(crate) text: ArrayString<1024>,
}

impl Lines {
    // Lines that begin with a heading.
    pub(crate) fn headed(heading: &str) -> Lines
        requires { length heading.now ≤ 1024 }
        ensures { written result ≡ heading.now }
    {
        let mut text = ArrayString::new();
        text.push_str(heading);
        Lines { text }
    }

    pub fn as_bytes(&self) -> &[u8]
        ensures { result.now ≡ written self.now }
    {
        self.text.as_str().as_bytes()
    }

    // The number in decimal, and the character after it.
    #[tactic(auto, unfolding(crate::specs::Listing::cell), using(std::proofs::Common::append_assoc))]
    pub(crate) fn cell(&mut self, n: u8, after: char)
        requires room { length (written self.old) + 4 ≤ 1024 }
        requires ascii { after < 128 }
        ensures { Appends self.old (cell n after) 4 self.new }
    {
        self.decimal(n);
        self.text.push(after);
    }

    // Digit by digit: a copy of one to three bytes takes longer, and `write!` would answer a Result, of which no clause says that
    // what fits is written.
    fn decimal(&mut self, n: u8)
        requires { length (written self.old) + 3 ≤ 1024 }
        ensures { Appends self.old (decimal n) 3 self.new }
    {
        match n {
            0..=9 => self.digit(n),
            10..=99 => {
                self.digit(n / 10);
                self.digit(n % 10);
            }
            _ => {
                self.digit(n / 10 / 10);
                self.digit(n / 10 % 10);
                self.digit(n % 10);
            }
        }
    }

    fn digit(&mut self, digit: u8)
        requires room { length (written self.old) < 1024 }
        requires below { digit < 10 }
        ensures { Appends self.old ((48 + digit) ∷ []) 1 self.new }
    {
        self.text.push(char::from(b'0' + digit));
    }
}
