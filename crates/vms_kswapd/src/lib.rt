//! What kswapd asks of the page counters while threads change them: whether a zone has pages enough and a free block of
//! an order, whether a node is balanced, and a turn, which sets thresholds too. Each call makes single steps, with no
//! wait, no refusal and no memory.
#![tactic(auto)]

mod balances;
mod orders;
mod turns;

pub use balances::balanced;
pub use orders::zone_ok;
pub use turns::kswapd_turn;
