//! Where each row stands among the rows of its key (CQL 2006: PARTITION BY), by counting them.
//! The dispatcher counts the rows of each block as it gives it.
//!
//! - Parts: `keys` (a row's key list), `numbered` (`Numbered`: key lists, each with its number),
//!   `counts` (one more of a key list, by its number), `places` (`Places`, and the call).
//! - Calls: `Places::of_plan` gives a counter where the plan has PARTITION BY; `places_of` gives
//!   the places of a block's rows, and counts them. `Numbered` serves the stage too
//!   (`saber_partition`): `find` tells a list's number, `add` gives a new one the next.
//! - Proved: the places are those of the definition (`places_behind`), whatever rows came before
//!   (`specs/Counting.antt`). Without PARTITION BY they are an empty list, which takes no memory.
//!   A list's number is how many others came before it (`number_of`), whatever a hint tells.
//! - Not claimed: what is counted after want of memory; that hints are right, or lists found soon.
//! - Limits: eight columns. A key list that is known takes no memory. A new one takes a place in a
//!   list, one in a tree, and four hints at least.
#![tactic(auto)]

mod counts;
mod keys;
mod numbered;
mod places;

pub use numbered::Numbered;
pub use places::{Places, places_of};
