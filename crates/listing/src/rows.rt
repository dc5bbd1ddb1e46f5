// One line of the listing: a code with its step, or a fault.
ghost use Rattle.std.specs.Prelude.{◌+◌, ◌≤◌, length};
ghost use Rattle.listing.specs.Lines.{written, Appends};
ghost use Rattle.listing.specs.Listing.{step_row, fault_row};

use crate::lines::Lines;
use book::Fault;
use code::Code;

impl Lines {
    #[tactic(auto, unfolding(crate::specs::Listing::step_row), using(std::proofs::Common::append_assoc))]
    pub(crate) fn step_row(&mut self, code: Code)
        requires { length (written self.old) + 24 ≤ 1024 }
        ensures { Appends self.old (step_row code.numbers) 24 self.new }
    {
        let numbers = code.numbers;
        self.cell(numbers.places, ' ');
        self.cell(numbers.phases, ' ');
        self.cell(numbers.offset, ' ');
        self.cell(numbers.checked, ' ');
        self.cell(numbers.memory, ' ');
        self.cell(code.step(), '\n');
    }

    #[tactic(auto, unfolding(crate::specs::Listing::fault_row), using(std::proofs::Common::append_assoc))]
    pub(crate) fn fault_row(&mut self, fault: Fault)
        requires { length (written self.old) + 12 ≤ 1024 }
        ensures { Appends self.old (fault_row fault) 12 self.new }
    {
        self.cell(fault.line(), ' ');
        self.cell(fault.column(), ' ');
        self.cell(fault.number(), '\n');
    }
}
