//! A two-stacks queue of parts: from any one on, all are at hand merged, at few merges a part.
//! The merges don't depend on how many windows a part lies in. The operators of groups keep their
//! slices in it, those with PARTITION BY a queue for each key.
//!
//! - Parts: `queue` (`Sliding`) in one of two forms (`form`). `groups` has entries of many groups, each
//!   with memory of its own, `together` those of rows that share one. `ones` has entries of one group
//!   without a key, in lists of numbers: `stack` are such entries, and `one_front` those whose sums are
//!   made. `front` (`Front`, `waiting`): parts that are to be summed up at once. `open` (`Open`): the
//!   queue of the windows that aren't done, and the loop over those that are.
//! - Calls: `push` puts a part behind the others, with the first window that doesn't have it, unless
//!   it has no group; `push_one` does so with a part of one group, which is lent; `put` does too,
//!   but one of the same slice as the last entry goes into that, so that rows of one slice share an
//!   entry; `drop_to` lets those at the front go that a window doesn't have; `lines` prints the
//!   merge of all that are there, and `answers` gives its answers as values; `Front::into_queue`
//!   makes a queue of parts. `Open::close` passes the windows below a number, and appends what its
//!   `Output` says of each: its lines, or what it gains or loses; `close_lines` is for lines alone.
//! - Proved: each entry is seen with the merge of itself and all behind it (`specs/Entries.antt`),
//!   and the queue with how many steps (merges) it still owes. `push` or `put` costs two steps, now
//!   or later, `lines` or `answers` one more, `drop_to` none. Of a `Front` no part is merged before
//!   all are there, and then it is one step for each. After want of memory `lines` leaves the text
//!   as it was. Both forms meet one contract: which one is kept shows in no answer, text or count of
//!   steps. Of the windows that `close` passes each prints what is due of the answers that it
//!   has of the entries, and those stay that a later window has (`specs/Windows.antt`).
//! - Not claimed: what a step costs: a part of many groups is longer to merge than one of few. That
//!   `put` finds the last entry in the back: one that is summed up takes no more in. That parts of
//!   one group lie in one list, and that an entry that goes leaves its memory for the next one.
//! - Limits: those of `saber_partial`, also for what is printed: of checked group queries.
#![tactic(auto)]

mod form;
mod front;
mod groups;
mod one_front;
mod ones;
mod open;
mod queue;
mod stack;
mod together;
mod waiting;

pub use front::Front;
pub use open::Open;
pub use queue::Sliding;
