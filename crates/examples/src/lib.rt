// Worked examples of codes, steps, bursts and receptions, proved of the definitions in one statement.

#![tactic(auto)]

ghost use Rattle.std.specs.Prelude.{◌≡◌};
ghost use Rattle.examples.specs.Examples.{Examples, one_place_code};

use trellis::Numbers;

// The numbers of the first example's code. That the examples hold is proved with it.
pub fn examples() -> Numbers
    ensures value { result ≡ one_place_code }
    ensures hold { Examples }
{
    one_place_code()
}

// One place, 8 phases, memory 2.
fn one_place_code() -> Numbers
    ensures { result ≡ one_place_code }
{
    Numbers {
        places: 1,
        phases: 8,
        offset: 0,
        checked: 1,
        memory: 2,
        h0: 0o5,
        h1: 0o2,
        h2: None,
        h3: None,
    }
}
