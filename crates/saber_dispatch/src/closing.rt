// A block of which all rows that come are there.
use crate::cutter::{Cut, Cutter, ended_by, stops};
use crate::ends::End;
use saber_flat::Rows;
use saber_plan::Mark;

impl Cutter {
    ghost use Rattle.std.specs.Prelude.{◌≡◌, Err};
    ghost use Rattle.saber_plan.specs.declared.rows.Side.{Side};
    ghost use Rattle.saber_plan.specs.declared.sizes.Sizes.{Sizes};
    ghost use Rattle.saber_plan.specs.Trees.{Tree};
    ghost use Rattle.saber_plan.specs.Inputs.{Input};
    ghost use Rattle.saber_dispatch.specs.declared.ends.End.{End};
    ghost use Rattle.saber_dispatch.specs.declared.cutter.Cut.{Cut};
    ghost use Rattle.saber_dispatch.specs.Sources.{Lefts};
    ghost use Rattle.saber_dispatch.specs.Cutting.{CutTo};
    ghost use Rattle.saber_dispatch.specs.Closing.{Closes, ClosedBy};

    /// The block of these rows, behind which no more come for this block, or what comes in its
    /// place.
    pub(crate) fn close(&mut self, filled: Result<(), End>, before: Mark, rows: Rows) -> Cut
        requires { (q : Tree) × (s : Sizes) × (had : Lefts) × (has : Lefts) × (r : Input) × Closes q s had has self.old r filled before rows }
        ensures cuts { (q : Tree) (s : Sizes) (had has : Lefts) (r : Input) → Closes q s had has self.old r filled before rows
            → CutTo result q s had has self.new r }
        ensures closed { ClosedBy filled self.old self.new }
        ensures read { (side : Side) → result ≡ Cut.Ended (End.ReadFault side) → filled ≡ Err (End.ReadFault side) }
        ensures told { (side : Side) → filled ≡ Err (End.ReadFault side) → result ≡ Cut.Ended (End.ReadFault side) }
        ensures lack { filled ≡ Err End.NoMemory → result ≡ Cut.Ended End.NoMemory }
    {
        self.ended = ended_by(filled);
        match stops(filled, rows.len()) {
            Some(end) => self.stop_at(end),
            None => self.put_block(before, rows),
        }
    }
}
