// What is kept from task to task: the slices that open windows have, and what closed ones print.
ghost use Rattle.std.specs.Prelude.{◌≡◌, ◌≤◌, ◌<◌, ◌+◌, ◌*◌, ℕ, [], Some, None, length, OnOk};
ghost use Rattle.saber_plan.specs.Texts.{Behind};
ghost use Rattle.saber_plan.specs.Trees.{tree_of};
ghost use Rattle.saber_plan.specs.Inputs.{going_on};
ghost use Rattle.saber_plan.specs.Answers.{way};
ghost use Rattle.saber_plan.specs.Tasks.{nothing_kept};
ghost use Rattle.saber_changes.specs.Outputs.{change_in, way_by, IsBefore};
ghost use Rattle.saber_group.specs.SliceStores.{kept_in, Answering, CanCome, CanGoOn, HasCome, HasGoneOn, PieceSteps, TakenIn};

use crate::complete::Complete;
use crate::group::Group;
use crate::slice_list::Slices;
use crate::slice_pieces::SlicePiece;
use saber_changes::{Change, Output};
use saber_partial::Steps;
use saber_plan::NoMemory;
use saber_sliding::Open;
use std::alloc::Global;
use std::sync::ledger::{Blank, Ledger};

/// The slices that windows have that aren't closed, how many windows are begun, and what is printed
/// of closed ones.
#[derive(Drop)]
pub struct SliceStore {
    pub(crate) windows: Open,
    pub(crate) begun: u64,
    pub(crate) output: Output,
}

impl Group<'_> {
    /// No slice yet, and no window begun, of which lines are printed, or this change. Takes no
    /// memory.
    pub(crate) fn no_slices(&self, alloc: Global, change: Option<Change>) -> SliceStore
        requires { way (tree_of self.now) ≡ way_by change }
        ensures contents { kept_in result ≡ nothing_kept }
        ensures taken { TakenIn (tree_of self.now) (going_on []) result }
    {
        let _plan = &self.plan;
        SliceStore {
            windows: Open::new(alloc, 0),
            begun: 0,
            output: Output::new(alloc, change),
        }
    }

    /// Takes the next slices in, and appends what the windows below `closed` print. A slice costs
    /// two steps, each now or later, and a window one, however many slices it has and however many
    /// windows have a slice: each merge of two parts is a step. After want of memory some of the
    /// text may be there, and store and output are only safe.
    pub(crate) fn take_slices<L: Ledger>(
        &self,
        alloc: Global,
        store: &mut Open,
        slices: Slices,
        closed: u64,
        output: &mut Output,
        out: &mut Vec<u8>,
        steps: &mut Steps<L>,
    ) -> Result<(), NoMemory>
        requires goes_on { CanGoOn (tree_of self.now) store.old slices closed }
        requires before { IsBefore output.old store.old.next }
        ensures next { OnOk result (store.new.next ≡ closed) }
        ensures went_on { OnOk result (HasGoneOn (tree_of self.now) store.old output.old slices closed store.new output.new out.old.items out.new.items) }
        ensures behind { Behind out.old.items out.new.items }
        ensures steps { OnOk result (steps.new + store.new.slices.owed + store.old.next ≤ steps.old + store.old.slices.owed + 2 * length slices + store.new.next) }
    {
        let _plan = &self.plan;
        let mut rest = slices;
        while let Some(first) = rest.first(0) {
            store.close(alloc, self.plan, first, output, out, steps)?;
            rest.enter_first(alloc, store, steps)?;
        }
        store.close(alloc, self.plan, closed, output, out, steps)?;
        Ok(())
    }

    // The piece of a task that answers windows itself: the store's windows get their last slices,
    // and what the task leaves open is the store's then.
    fn take_complete<L: Ledger>(
        &self,
        alloc: Global,
        store: &mut Open,
        slices: Slices,
        complete: Complete,
        output: &mut Output,
        out: &mut Vec<u8>,
        steps: &mut Steps<L>,
    ) -> Result<(), NoMemory>
        requires comes { (closed : ℕ) × CanCome (tree_of self.now) store.old slices (Some complete) closed }
        requires before { IsBefore output.old store.old.next }
        requires each { change_in output.old ≡ None }
        ensures come { OnOk result ((closed : ℕ) → HasCome (tree_of self.now) store.old output.old slices (Some complete) closed store.new output.new out.old.items out.new.items) }
        ensures behind { Behind out.old.items out.new.items }
        ensures steps { OnOk result (PieceSteps store.old (length slices) (Some complete) store.new steps.old steps.new) }
    {
        match self.take_slices(alloc, store, slices, complete.low, output, out, steps) {
            Ok(()) => {}
            Err(want) => {
                complete.let_go();
                return Err(want);
            }
        }
        match out.extend_from_slice(&complete.text) {
            Ok(()) => {}
            Err(want) => {
                complete.let_go();
                return Err(want);
            }
        }
        *store = complete.open;
        Ok(())
    }

    /// Takes the piece of the next task in, and appends what the windows below `closed` print.
    /// After want of memory some of the text may be there, and store and output are only safe.
    pub(crate) fn take_piece<L: Ledger>(
        &self,
        alloc: Global,
        store: &mut Open,
        piece: SlicePiece,
        closed: u64,
        output: &mut Output,
        out: &mut Vec<u8>,
        steps: &mut Steps<L>,
    ) -> Result<(), NoMemory>
        requires comes { CanCome (tree_of self.now) store.old piece.slices piece.complete closed }
        requires before { IsBefore output.old store.old.next }
        requires answering { Answering output.old piece.complete }
        ensures come { OnOk result (HasCome (tree_of self.now) store.old output.old piece.slices piece.complete closed store.new output.new out.old.items out.new.items) }
        ensures behind { Behind out.old.items out.new.items }
        ensures steps { OnOk result (PieceSteps store.old (length piece.slices) piece.complete store.new steps.old steps.new) }
    {
        let _plan = &self.plan;
        let SlicePiece {
            slices,
            complete,
            ..
        } = piece;
        match complete {
            Some(complete) => {
                self.take_complete(alloc, store, slices, complete, output, out, steps)
            }
            None => self.take_slices(alloc, store, slices, closed, output, out, steps),
        }
    }

    /// The same, where nobody asks for the steps.
    pub(crate) fn take_uncounted<L: Ledger>(
        &self,
        alloc: Global,
        store: &mut Open,
        piece: SlicePiece,
        closed: u64,
        output: &mut Output,
        out: &mut Vec<u8>,
        blank: Blank,
    ) -> Result<(), NoMemory>
        requires comes { CanCome (tree_of self.now) store.old piece.slices piece.complete closed }
        requires before { IsBefore output.old store.old.next }
        requires answering { Answering output.old piece.complete }
        requires name { blank.name ≡ L.name }
        requires parts { blank.parts ≡ L.parts }
        requires some { 0 < blank.parts }
        ensures come { OnOk result (HasCome (tree_of self.now) store.old output.old piece.slices piece.complete closed store.new output.new out.old.items out.new.items) }
        ensures behind { Behind out.old.items out.new.items }
    {
        let mut steps = Steps::<L>::new(blank);
        self.take_piece(alloc, store, piece, closed, output, out, &mut steps)
    }
}
