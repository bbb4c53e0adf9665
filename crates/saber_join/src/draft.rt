// The rows of a task in the making.
ghost use Rattle.std.specs.Prelude.{IfOk};
ghost use Rattle.saber_plan.specs.Trees.{Tree};
ghost use Rattle.saber_fragment.specs.Drafts.{own_sight};
ghost use Rattle.saber_join.specs.Sights.{HasSeen};

use saber_flat::Rows;
use saber_fragment::Block;
use saber_plan::{Mark, NoMemory};
use std::alloc::Global;

/// The rows of a join's task, and those that it looks back on so far, copied from their blocks, and
/// whether the input ends behind the task. Rows in front that lie in no window which is open before
/// the task's own aren't kept.
#[derive(Drop)]
pub struct JoinDraft {
    // the last timestamp before the rows that are looked back on
    pub(crate) last: Option<i64>,
    pub(crate) back: Rows,
    pub(crate) before: Mark,
    pub(crate) rows: Rows,
    pub(crate) ended: bool,
}

impl JoinDraft {
    /// The task's own rows.
    pub(crate) fn new(alloc: Global, own: &Block) -> Result<JoinDraft, NoMemory>
        ensures { IfOk result (λ d. (q : Tree) → HasSeen q d (own_sight own.now)) }
    {
        let rows = own.rows.copy(alloc)?;
        Ok(JoinDraft {
            last: own.before.last,
            back: Rows::new(alloc),
            before: own.before,
            rows,
            ended: own.ended,
        })
    }

    /// Lets the draft go.
    pub(crate) fn let_go(self) {}
}
