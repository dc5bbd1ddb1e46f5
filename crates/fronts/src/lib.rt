// Scores, and the fronts that give them: from the reading of one place to a score of each phase.

#![tactic(auto)]

mod front;
mod lost;
mod plain;
mod score;
mod strike;
mod strikes;
mod table;

pub use front::Front;
pub use lost::Lost;
pub use plain::Plain;
pub use score::Score;
pub use strike::Strike;
pub use strikes::Strikes;
pub use table::Table;
