// The library as C calls it: plain structs that the caller owns, and numbers in the place of enums. The header
// include/kamzhules.h declares the same. No struct that crosses to C has an invariant: a caller may put any bytes into it.

#![tactic(auto)]

mod codes;
mod front_kind;
mod kind;
mod plain;
mod receivers;
mod refused;
mod senders;
mod strike;
mod texts;
mod turning;

pub use codes::{CCode, CSymbol, kz_check, kz_map, kz_step};
pub use plain::{CPlainCell, kz_plain_deliver, kz_plain_open, kz_plain_take, kz_plain_tell};
pub use receivers::{CDelivered, CReceiver, CTold};
pub use refused::CFault;
pub use senders::{CSender, kz_begin, kz_end, kz_send};
pub use strike::{CStrikeCell, kz_strike_deliver, kz_strike_open, kz_strike_take, kz_strike_tell};
pub use texts::{kz_entry, kz_steps};
pub use turning::{kz_clean, kz_turn};
