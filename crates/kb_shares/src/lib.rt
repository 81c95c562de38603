//! A total of something, as sockets or bytes, that holders share.
//!
//! A [`Budget`] is the total, and who holds how much of it. Each holder has a [`Share`]: a part of the total that is kept free for it, and
//! a limit. What no part takes up is the common rest, which goes to whoever comes first.
//!
//! `take` answers true exactly where the holder stays within its limit, and what it then has above its own part is free for it of the
//! common rest. So a holder within its own part always gets more of it, whatever others hold. A [`Budget`] keeps how much all have above
//! their parts, so no call but `new` goes over the holders.
//!
//! A [`Ledger`] is a budget, and of which member each part of it is that a holder has: so each gives back just what was counted of it.
//!
//! [`Turns`] is a queue of members, in which holders take turns and so do the members of each.
#![tactic(auto)]

mod budget;
mod fault;
mod ledger;
mod promises;
mod share;
mod turns;

pub use budget::Budget;
pub use fault::BudgetFault;
pub use ledger::{Booking, Ledger};
pub use promises::{nobody_takes_too_much, own_part_is_free, room_is_exact, turns_go_round};
pub use share::Share;
pub use turns::Turns;
