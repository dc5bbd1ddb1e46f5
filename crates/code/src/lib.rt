// Codes within their limits: labels, data words and phases, the mapper and the step.

#![tactic(auto)]

mod differential;
mod flaw;
mod limits;
mod make;
mod mapper;
mod parity;
mod polynomials;
mod record;
mod rows;
mod step;
mod turning;
mod units;

pub use flaw::Flaw;
pub use record::Code;
pub use units::{Label, Phase, State, Word};
