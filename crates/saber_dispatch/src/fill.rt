// The rows of one block.
ghost use Rattle.std.specs.Prelude.{Err, OnOk, ◌≡◌, ◌≢◌, []};
ghost use Rattle.saber_plan.specs.declared.rows.Side.{Side};
ghost use Rattle.saber_plan.specs.declared.windows.Mark.{Mark};
ghost use Rattle.saber_plan.specs.Trees.{Tree};
ghost use Rattle.saber_dispatch.specs.declared.ends.End.{End};
ghost use Rattle.saber_dispatch.specs.Readings.{reading_of, Suits, Reads, IsOpen};
ghost use Rattle.saber_dispatch.specs.Sources.{each_input, RoseAt, NoneFell};
ghost use Rattle.saber_dispatch.specs.Filling.{fill_state, FillsOn};

use crate::ends::End;
use crate::inputs::Inputs;
use crate::reader::Reader;
use saber_flat::{RowBuilder, RowRef};
use saber_io::Source;
use saber_plan::Mark;
use saber_window::step_mark;

// Appends the next row, and steps the mark over it.
fn push_next<S: Source>(
    reader: &mut Reader,
    inputs: &mut Inputs<S>,
    mark: &mut Mark,
    rows: &mut RowBuilder,
) -> Result<(), End>
    requires begun { rows.old.begun ≡ [] }
    requires suits { Suits (reading_of reader.old) (each_input S.left inputs.old) }
    requires opened { IsOpen (reading_of reader.old) }
    requires reads { (q : Tree) × Reads q mark.old (reading_of reader.old) }
    ensures fills { FillsOn result 1
        (fill_state mark.old (reading_of reader.old) (each_input S.left inputs.old) rows.old.rows)
        (fill_state mark.new (reading_of reader.new) (each_input S.left inputs.new) rows.new.rows) }
    ensures begun { OnOk result (rows.new.begun ≡ []) }
    ensures cause { (side : Side) → result ≡ Err (End.ReadFault side) → RoseAt side (each_input S.faults inputs.old) (each_input S.faults inputs.new) }
    ensures good { ((side : Side) → result ≢ Err (End.ReadFault side)) → each_input S.faults inputs.new ≡ each_input S.faults inputs.old }
    ensures count { NoneFell (each_input S.faults inputs.old) (each_input S.faults inputs.new) }
{
    match reader.next(inputs) {
        Ok(row) => {
            let row = RowRef::of(&row);
            *mark = step_mark(mark, &row);
            if rows.push(&row).is_err() {
                return Err(End::NoMemory);
            }
            Ok(())
        }
        Err(end) => Err(end),
    }
}

/// Appends the next rows, until there are so many more, and steps the mark over them.
pub(crate) fn fill<S: Source>(
    reader: &mut Reader,
    inputs: &mut Inputs<S>,
    mark: &mut Mark,
    rows: &mut RowBuilder,
    size: usize,
) -> Result<(), End>
    requires begun { rows.old.begun ≡ [] }
    requires suits { Suits (reading_of reader.old) (each_input S.left inputs.old) }
    requires opened { IsOpen (reading_of reader.old) }
    requires reads { (q : Tree) × Reads q mark.old (reading_of reader.old) }
    ensures fills { FillsOn result size
        (fill_state mark.old (reading_of reader.old) (each_input S.left inputs.old) rows.old.rows)
        (fill_state mark.new (reading_of reader.new) (each_input S.left inputs.new) rows.new.rows) }
    ensures cause { (side : Side) → result ≡ Err (End.ReadFault side) → RoseAt side (each_input S.faults inputs.old) (each_input S.faults inputs.new) }
    ensures good { ((side : Side) → result ≢ Err (End.ReadFault side)) → each_input S.faults inputs.new ≡ each_input S.faults inputs.old }
    ensures count { NoneFell (each_input S.faults inputs.old) (each_input S.faults inputs.new) }
{
    let mut done = 0;
    while done < size {
        done += reader.take_quick(mark, rows, size - done);
        if done == size {
            return Ok(());
        }
        match push_next(reader, inputs, mark, rows) {
            Ok(()) => {}
            Err(end) => return Err(end),
        }
        done += 1;
    }
    Ok(())
}
