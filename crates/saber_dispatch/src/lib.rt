//! The rows of a query's inputs, cut into the blocks of tasks, and how far back each task looks.
//! The engine takes its blocks; the contracts of chain and top call cite its definitions.
//!
//! - Parts: `inputs`, `ends`, `reader` (rows of one input or of two merged), `fill` (rows of a
//!   block), `last_windows` and `lasts` (the free pointer of joins), `opening`, `cutter`,
//!   `closing`; the same over a feed: `fed_reader`, `fed_fill`, `fed_cutter`; `keeper` (what a
//!   query's blocks have beside their own rows), `letting` (values let go by calls), `laws` and
//!   `fed_laws`.
//! - Calls: `Cutter::next_block` takes the inputs and gives a `Block` or an `End`,
//!   `FedCutter::step` takes a feed, and may say that it is dry; `Keeper::pass_on` takes a block
//!   and gives it on; where memory lacks for that, `take_back` takes it back into the cutter.
//!   Where several queries share blocks that were cut without the input's end, `end_block` gives
//!   its block to those of them for which the end is a task (`end_counts`).
//! - Proved: a block is that of the next task, or of the input's end, with its mark, its number and
//!   the first block that it needs; an end has its cause. The blocks are the first tasks of the
//!   input, all of them where all was read or a line refused; after a failed read at least every
//!   whole task of the whole lines taken; the task told as too wide is the first that is
//!   (`specs/Telling.antt`). A feed gives the same blocks, whatever comes behind what was taken. A
//!   cutter serves each plan whose rows are cut alike (`specs/Serving.antt`), and the block of the
//!   end is the next one of each for which it counts (`specs/Ending.antt`). `Keeper` gives a block
//!   the last rows before it, or none, and with PARTITION BY its rows' places.
//! - Not claimed: to which blocks `Keeper` gives rows. A copy for which memory lacks is left out.
//! - Limits: those of `Sizes`. Over a feed, plans of one stream.
#![tactic(auto)]

mod closing;
mod cutter;
mod ends;
mod fed_cutter;
mod fed_fill;
mod fed_laws;
mod fed_reader;
mod fill;
mod inputs;
mod keeper;
mod last_windows;
mod lasts;
mod laws;
mod letting;
mod opening;
mod reader;

pub use cutter::{Cut, Cutter};
pub use ends::End;
pub use fed_cutter::{FedCutter, Step};
pub use fed_laws::{cuts_leave_whole_tasks, fed_blocks_are_near, fed_blocks_are_tasks};
pub use inputs::Inputs;
pub use keeper::Keeper;
pub use laws::{blocks_are_near, blocks_are_supplied, blocks_are_tasks, faults_leave_whole_tasks};
pub use opening::end_counts;
