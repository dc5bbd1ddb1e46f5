// Why a word is not sent.
ghost use Rattle.std.specs.Prelude.{◌≡◌};
ghost use Rattle.sender.specs.Refusal.{refusal_number};

#[derive(Clone, Copy, Debug, PartialEq, Eq, PartialOrd, Ord)]
pub enum SendRefusal {
    // 255 words are sent.
    Full,
    // The word has more bits than a data word of the code.
    TooWide,
}

impl SendRefusal {
    pub fn number(self) -> u8
        ensures { result ≡ refusal_number self }
    {
        match self {
            SendRefusal::Full => 25,
            SendRefusal::TooWide => 7,
        }
    }
}
