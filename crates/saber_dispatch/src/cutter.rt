// Blocks, one after another.
ghost use Rattle.std.specs.Prelude.{◌≡◌, ◌≢◌, ◌≤◌, ◌^◌, IfSome, ℕ, ◌+◌, ◌*◌, ◌++◌, List, Option, Some, None, true, false, OnOk, IfOk, []};
ghost use Rattle.saber_plan.specs.declared.rows.Row.{Row};
ghost use Rattle.saber_plan.specs.declared.sizes.Sizes.{Sizes};
ghost use Rattle.saber_plan.specs.Trees.{Tree};
ghost use Rattle.saber_plan.specs.Inputs.{Input};
ghost use Rattle.saber_plan.specs.declared.rows.Side.{Side};
ghost use Rattle.saber_dispatch.specs.declared.ends.End.{End};
ghost use Rattle.saber_fragment.specs.declared.blocks.Block.{Block};
ghost use Rattle.saber_dispatch.specs.declared.cutter.Cut.{Cut};
ghost use Rattle.saber_dispatch.specs.Sources.{Lefts, each_input, NoneFell};
ghost use Rattle.saber_dispatch.specs.Filling.{keeps};
ghost use Rattle.saber_dispatch.specs.Cutting.{Behind, LooksBack, IsFirstOf, MayNote, NotesOn, Filled, PutsOn, Cuts, CutTo, CutsOn, ReadFaultsRose, CutsNothing, TakenBack, fresh, too_wide, ended_by, stops, is_due, end_of};
ghost use Rattle.saber_dispatch.specs.Readings.{reading_of};
ghost use Rattle.saber_dispatch.specs.Serving.{AreCutAlike};
ghost use Rattle.saber_dispatch.specs.Closing.{EndStays};
ghost use Rattle.saber_dispatch.specs.Looking.{Looked, BlockCounted};
ghost use Rattle.saber_dispatch.specs.Ending.{is_end_due, EndsEach};
ghost use Rattle.saber_plan.specs.Trees.{tree_of};
ghost use Rattle.saber_plan.specs.Checked.{IsChecked};
ghost use Rattle.saber_plan.specs.Sizes.{SizesFit, limits_of};

use crate::ends::End;
use crate::fill::fill;
use crate::inputs::Inputs;
use crate::lasts::Lasts;
use crate::letting::let_rows_go;
use crate::opening::{end_counts, lasts_for, reader_for};
use crate::reader::Reader;
use saber_flat::{RowBuilder, Rows};
use saber_fragment::{Block, Earlier};
use saber_io::Source;
use saber_plan::{Mark, NoMemory, Plan, Sizes};
use std::alloc::Global;

// A block has room for so many columns a row at first; with more of them it grows.
pub(crate) const USUAL_COLUMNS: usize = 4;

/// Cuts the rows of a query's inputs into blocks, and keeps what tells how far back each task
/// looks. It holds no rows. Contracts see it by `Cuts`: which tasks its blocks were. It is called
/// with the same inputs each time.
#[derive(Drop)]
pub struct Cutter {
    pub(crate) alloc: Global,
    pub(crate) reader: Reader,
    // of a query that joins two streams
    pub(crate) lasts: Option<Lasts>,
    // rows of a block
    pub(crate) size: usize,
    // how many blocks a task may need
    room: u64,
    // whether a block for the input's end follows, once all rows are in blocks
    flush: bool,
    pub(crate) mark: Mark,
    // the next block's
    number: u64,
    // why no more rows come
    pub(crate) ended: Option<End>,
}

/// What a call of a cutter comes to.
#[derive(Drop)]
pub enum Cut {
    /// The next task's block.
    Block(Block),
    /// No more blocks come.
    Ended(End),
}

// The first block that the next task looks back on.
fn look_back(lasts: &mut Option<Lasts>, number: u64, before: &Mark) -> u64
    requires { (q : Tree) × (n : ℕ) × (xs : List Row) × Behind q n xs number before.now × LooksBack q n xs number lasts.old }
    ensures first { IsFirstOf number before.now lasts.old result }
    ensures back { (q : Tree) (n : ℕ) (xs : List Row) → Behind q n xs number before.now → LooksBack q n xs number lasts.old → LooksBack q n xs number lasts.new }
    ensures within { result ≤ number }
    ensures few { number ≤ 2 ^ 41 }
{
    match lasts {
        None => number,
        Some(lasts) => lasts.look_back(before),
    }
}

// Notes the rows of a block.
fn note(lasts: &mut Option<Lasts>, before: &Mark, rows: &Rows) -> Result<(), NoMemory>
    requires { MayNote before.now rows.now lasts.old }
    ensures { OnOk result (NotesOn before.now rows.now lasts.old lasts.new) }
{
    match lasts {
        None => Ok(()),
        Some(lasts) => lasts.note(before, rows),
    }
}

// The end in place of a task that needs the blocks from this one on, where there is no room for so
// many.
fn too_wide(task: u64, first: u64, room: u64) -> Option<End>
    requires within { first ≤ task }
    requires few { task ≤ 2 ^ 41 }
    ensures { result ≡ too_wide task first room }
{
    let need = task - first + 1;
    if need > room {
        Some(End::TooWide { task, need })
    } else {
        None
    }
}

// Why no block follows the one that was filled so.
pub(crate) fn ended_by(filled: Result<(), End>) -> Option<End>
    ensures { result ≡ ended_by filled }
{
    match filled {
        Ok(()) => None,
        Err(end) => Some(end),
    }
}

// Whether the rows before an end are a block.
fn keeps(end: End) -> bool
    ensures { result ≡ keeps end }
{
    match end {
        End::AllRead => true,
        End::Bad { .. } => true,
        End::ReadFault { .. } => false,
        End::TooWide { .. } => false,
        End::NoMemory => false,
    }
}

// The end that comes in place of a block of so many rows, which was filled so.
pub(crate) fn stops(filled: Result<(), End>, count: usize) -> Option<End>
    ensures { result ≡ stops filled count }
{
    match filled {
        Ok(()) => None,
        Err(end) => {
            if keeps(end) && count != 0 {
                None
            } else {
                Some(end)
            }
        }
    }
}

// Whether the block of the input's end is still to come behind so many blocks, where no more rows
// come.
fn is_due(flush: bool, count: u64, end: End) -> bool
    ensures { result ≡ is_due flush count end }
{
    match end {
        End::AllRead => flush && count != 0,
        End::Bad { .. } => false,
        End::ReadFault { .. } => false,
        End::TooWide { .. } => false,
        End::NoMemory => false,
    }
}

impl Cutter {
    /// A cutter of a plan's inputs, which has read nothing. A block has `sizes.task` rows,
    /// and no task may need more than `sizes.ring` blocks, its own counted. With `sizes.flush` the
    /// end of the input is a block too, where the query has windows. The memory of the readers'
    /// buffers is taken here.
    pub fn new(alloc: Global, plan: &Plan, sizes: &Sizes) -> Result<Cutter, NoMemory>
        requires sizes { SizesFit sizes.now }
        ensures checked { IsChecked (tree_of plan.now) }
        ensures cuts { IfOk result (CutsNothing (tree_of plan.now) sizes.now) }

        // It serves each other plan too whose rows are cut alike.
        ensures serves { IfOk result (λ c. (p : Tree) → IsChecked p → AreCutAlike sizes.now (tree_of plan.now) p → CutsNothing p sizes.now c) }
        ensures goes { IfOk result (λ c. end_of c ≡ None) }
        ensures fresh { IfOk result (λ c. reading_of c.reader ≡ fresh (tree_of plan.now) (limits_of sizes.now)) }
        ensures unended { IfOk result (λ c. c.ended ≡ None) }
    {
        let reader = reader_for(alloc, plan, sizes)?;
        Ok(Cutter {
            alloc,
            reader,
            lasts: lasts_for(alloc, plan),
            size: sizes.task as usize,
            room: u64::from(sizes.ring),
            flush: end_counts(plan, sizes),
            mark: Mark {
                left: 0,
                right: 0,
                last: None,
                ended: false,
            },
            number: 0,
            ended: None,
        })
    }

    // The first block that the next task looks back on, if there is room for so many; else why the
    // task isn't given.
    fn first_needed(&mut self, before: &Mark) -> Result<u64, End>
        requires { (q : Tree) × (n : ℕ) × (xs : List Row) × Behind q n xs self.old.number before.now × LooksBack q n xs self.old.number self.old.lasts }
        ensures looked { Looked before.now result self.old self.new }
        ensures few { self.old.number ≤ 2 ^ 41 }
    {
        let first = look_back(&mut self.lasts, self.number, before);
        match too_wide(self.number, first, self.room) {
            None => Ok(first),
            Some(end) => {
                self.ended = Some(end);
                Err(end)
            }
        }
    }

    // Counts the block of these rows, which were read, as given, and answers the first block that
    // its task looks back on; or why it isn't given.
    fn count_block(&mut self, before: &Mark, rows: &Rows) -> Result<u64, End>
        requires { (q : Tree) × (s : Sizes) × (had : Lefts) × (has : Lefts) × (xs : List Row) × Filled q s had has self.old xs before.now rows.now }
        ensures { BlockCounted before.now rows.now result self.old self.new }
    {
        let number = self.number;
        match self.first_needed(before) {
            Err(end) => Err(end),
            Ok(first) => {
                if note(&mut self.lasts, before, rows).is_err() {
                    self.ended = Some(End::NoMemory);
                    return Err(End::NoMemory);
                }
                self.number = number + 1;
                Ok(first)
            }
        }
    }

    // The block of these rows, which were read.
    pub(crate) fn put_block(&mut self, before: Mark, rows: Rows) -> Cut
        requires { (q : Tree) × (s : Sizes) × (had : Lefts) × (has : Lefts) × (xs : List Row) × Filled q s had has self.old xs before rows }
        ensures cuts { PutsOn result before rows self.old self.new }
        ensures same { (b : Block) → result ≡ Cut.Block b → self.new.ended ≡ self.old.ended }
        ensures stays { EndStays self.old self.new }
        ensures read { (side : Side) → result ≢ Cut.Ended (End.ReadFault side) }
    {
        let number = self.number;
        match self.count_block(&before, &rows) {
            Ok(first) => Cut::Block(Block {
                number,
                first,
                earlier: Earlier::none(self.alloc, before),
                before,
                rows,
                places: Vec::new(self.alloc),
                ended: false,
            }),
            Err(end) => {
                let_rows_go(rows);
                Cut::Ended(end)
            }
        }
    }

    // The block of the input's end, behind all rows.
    fn put_end(&mut self) -> Cut
        requires ended { self.old.ended ≡ Some End.AllRead }
        requires due { is_due self.old.flush self.old.number End.AllRead ≡ true }
        requires cuts { (q : Tree) × (s : Sizes) × (had : Lefts) × (has : Lefts) × (r : Input) × Cuts q s had has self.old r }
        ensures cuts { (q : Tree) (s : Sizes) (had has : Lefts) (r : Input) → Cuts q s had has self.old r → CutTo result q s had has self.new r }
        ensures all { (b : Block) → result ≡ Cut.Block b → self.new.ended ≡ Some End.AllRead }
        ensures stays { EndStays self.old self.new }
        ensures read { (side : Side) → result ≢ Cut.Ended (End.ReadFault side) }
    {
        let number = self.number;
        let before = self.mark;
        match self.first_needed(&before) {
            Ok(first) => {
                self.number = number + 1;
                self.flush = false;
                Cut::Block(Block {
                    number,
                    first,
                    earlier: Earlier::none(self.alloc, before),
                    before,
                    rows: Rows::new(self.alloc),
                    places: Vec::new(self.alloc),
                    ended: true,
                })
            }
            Err(end) => Cut::Ended(end),
        }
    }

    /// The block of the input's end for queries that join no streams, whose blocks were cut without
    /// it: none where not all was read, or no row came. It is the same for each of them for which
    /// the end counts, and the cutter stays.
    pub fn end_block(&self) -> Option<Block>
        ensures none { result ≡ None → is_end_due self.now ≡ false }
        ensures due { IfSome result (λ b. is_end_due self.now ≡ true) }
        ensures ends { IfSome result (EndsEach self.now) }
    {
        let end = self.ended?;
        if !is_due(true, self.number, end) {
            return None;
        }
        Some(Block {
            number: self.number,
            first: self.number,
            earlier: Earlier::none(self.alloc, self.mark),
            before: self.mark,
            rows: Rows::new(self.alloc),
            places: Vec::new(self.alloc),
            ended: true,
        })
    }

    /// Takes back the block that was given last, which wasn't passed on for want of memory: no more
    /// come then.
    pub fn take_back(&mut self, number: u64, ended: bool)
        ensures cuts { TakenBack number ended self.old self.new }
        ensures ended { self.new.ended ≡ Some End.NoMemory }
        ensures reader { self.new.reader ≡ self.old.reader }
    {
        self.number = number;
        self.ended = Some(End::NoMemory);
        if ended {
            self.flush = true;
        }
    }

    // What comes where no more rows do: the block of the input's end, if it is due, else why.
    pub(crate) fn stop_at(&mut self, end: End) -> Cut
        requires ended { self.old.ended ≡ Some end }
        requires cuts { (q : Tree) × (s : Sizes) × (had : Lefts) × (has : Lefts) × (r : Input) × Cuts q s had has self.old r }
        ensures cuts { (q : Tree) (s : Sizes) (had has : Lefts) (r : Input) → Cuts q s had has self.old r → CutTo result q s had has self.new r }
        ensures all { (b : Block) → result ≡ Cut.Block b → self.new.ended ≡ Some End.AllRead }
        ensures stays { EndStays self.old self.new }
        ensures read { (side : Side) → result ≡ Cut.Ended (End.ReadFault side) → end ≡ End.ReadFault side }
        ensures again { is_due self.old.flush self.old.number end ≡ false → (result ≡ Cut.Ended end) × (self.new ≡ self.old) }
    {
        if is_due(self.flush, self.number, end) {
            self.put_end()
        } else {
            Cut::Ended(end)
        }
    }

    // Reads the rows of the next block.
    fn read_block<S: Source>(&mut self, inputs: &mut Inputs<S>) -> Cut
        requires goes { self.old.ended ≡ None }
        requires cuts { (q : Tree) × (s : Sizes) × (had : Lefts) × (r : Input) × Cuts q s had (each_input S.left inputs.old) self.old r }
        ensures cuts { CutsOn result (each_input S.left inputs.old) (each_input S.left inputs.new) self.old self.new }
        ensures cause { ReadFaultsRose result (each_input S.faults inputs.old) (each_input S.faults inputs.new) }
        ensures sound { (b : Block) → result ≡ Cut.Block b → (side : Side) → self.new.ended ≢ Some (End.ReadFault side) }
        ensures good { ((side : Side) → result ≢ Cut.Ended (End.ReadFault side)) → each_input S.faults inputs.new ≡ each_input S.faults inputs.old }
        ensures count { NoneFell (each_input S.faults inputs.old) (each_input S.faults inputs.new) }
    {
        let room = self.size.saturating_mul(USUAL_COLUMNS);
        let Ok(mut rows) = RowBuilder::with_capacity(self.alloc, self.size, room) else {
            self.ended = Some(End::NoMemory);
            return Cut::Ended(End::NoMemory);
        };
        let before = self.mark;
        let filled = fill(
            &mut self.reader,
            inputs,
            &mut self.mark,
            &mut rows,
            self.size,
        );
        self.close(filled, before, rows.finish())
    }

    /// The next block: the rows of the next task, which are as many as the size says, or the last
    /// ones before the end or a refused line; and, where that was asked for, a last one without
    /// rows for the end of an input that had some. Rows that came before a failed read or want of
    /// memory are in no block. A task that needs the rows of more tasks than there is room for is
    /// told in place of its block. After an end each later call gives the same answer and reads
    /// nothing.
    pub fn next_block<S: Source>(&mut self, inputs: &mut Inputs<S>) -> Cut
        requires cuts { (q : Tree) × (s : Sizes) × (had : Lefts) × (r : Input) × Cuts q s had (each_input S.left inputs.old) self.old r }

        // Whatever was cut before, the block is the next task's, or the end has its cause.
        ensures cuts { CutsOn result (each_input S.left inputs.old) (each_input S.left inputs.new) self.old self.new }

        // An end is given again.
        ensures again { IfSome (end_of self.old) (λ end. (result ≡ Cut.Ended end) × (self.new ≡ self.old) × (inputs.new ≡ inputs.old)) }

        // A fault of reading comes first only in a call in which that side's count rose, and with
        // no block; else all counts stay, and none falls.
        ensures cause { end_of self.old ≡ None → ReadFaultsRose result (each_input S.faults inputs.old) (each_input S.faults inputs.new) }
        ensures sound { (b : Block) → result ≡ Cut.Block b → (side : Side) → end_of self.new ≢ Some (End.ReadFault side) }
        ensures good { ((side : Side) → result ≢ Cut.Ended (End.ReadFault side)) → each_input S.faults inputs.new ≡ each_input S.faults inputs.old }
        ensures count { NoneFell (each_input S.faults inputs.old) (each_input S.faults inputs.new) }
    {
        match self.ended {
            Some(end) => self.stop_at(end),
            None => self.read_block(inputs),
        }
    }
}
