// What every kind of query does with tasks and what they give.
ghost use Rattle.std.specs.Prelude.{◌≡◌, ℕ, [], IfOk, OnOk};
ghost use Rattle.saber_plan.specs.Inputs.{Input, going_on};
ghost use Rattle.saber_plan.specs.Trees.{Tree};
ghost use Rattle.saber_plan.specs.Tasks.{Kept, nothing_kept};
ghost use Rattle.saber_plan.specs.Texts.{Behind};
ghost use Rattle.saber_fragment.specs.Drafts.{Sight, own_sight, seen_back, CanStart, CanLookBack, IsWhole, IsSightOf};
ghost use Rattle.saber_fragment.specs.Stores.{CanTakeIn, AddsText, LeavesKept, TakesIn};

use crate::Block;
use saber_plan::NoMemory;
use std::alloc::Global;

/// An operator of one plan (SABER 2016: its fragment function, which makes a piece of a task's
/// rows, and its assembly function, which takes pieces in, in the order of their tasks). What it
/// keeps in a draft, a piece or a store is its own matter.
pub trait Operator {
    /// A task's piece in the making.
    type Draft: Drop;

    /// What a task gives.
    type Piece: Drop;

    /// What is kept from task to task.
    type Store: Drop;

    /// The plan that it answers.
    ghost plan: { Self → Tree };

    /// How much of its task's input a draft has.
    ghost has_seen: { Self → Self.Draft → Sight → Type 0 };

    /// What a store keeps: open parts by window, or by key list and window, and the answers of the
    /// last closed window.
    ghost contents: { Self.Store → Kept };

    /// What stays of it, once the closed parts are dropped.
    ghost remainder: { Self.Store → Kept };

    /// What a store knows of the input whose pieces it has taken in, beside what it keeps.
    ghost has_taken: { Self → Self.Store → Input → Type 0 };

    /// A piece has what the arrivals of an input from one position up to another give. Of windows
    /// that print their answers as they are that is their shares (`shares_between`), of others what
    /// is handed on (`handed_between`).
    ghost is_of: { Self → Self.Piece → Input → ℕ → ℕ → Type 0 };

    /// Begins a task's piece by the task's own block, of which it copies what it keeps.
    fn start(&self, alloc: Global, own: &Block) -> Result<Self::Draft, NoMemory>
        requires { CanStart (plan self.now) own.now }
        ensures { IfOk result (λ d. has_seen self.now d (own_sight own.now)) };

    /// Takes in one block more of those before the task's own, from `first` on, each once and
    /// rising. After want of memory the draft is only safe to let go.
    fn look_back(
        &self,
        alloc: Global,
        draft: &mut Self::Draft,
        block: &Block,
    ) -> Result<(), NoMemory>
        requires { (s : Sight) × (has_seen self.now draft.old s) × CanLookBack (plan self.now) s block.now }
        ensures { OnOk result ((s : Sight) → has_seen self.now draft.old s → CanLookBack (plan self.now) s block.now
            → has_seen self.now draft.new (seen_back s block.now)) };

    /// The piece, once all blocks before the task's own are in: that of the arrivals that the
    /// task's own rows are.
    fn finish(&self, alloc: Global, draft: Self::Draft) -> Result<Self::Piece, NoMemory>
        requires { (s : Sight) × (has_seen self.now draft s) × IsWhole (plan self.now) s }
        ensures { IfOk result (λ p. (s : Sight) (r : Input) (x y : ℕ) → has_seen self.now draft s → IsWhole (plan self.now) s
            → IsSightOf (plan self.now) s r x y → is_of self.now p r x y) };

    /// A store with nothing in it. Takes no memory.
    fn empty_store(&self, alloc: Global) -> Self::Store
        ensures contents { contents result ≡ nothing_kept }
        ensures taken { has_taken self.now result (going_on []) };

    /// Takes in the piece of the next task, and appends what its arrivals add to the text: what is
    /// printed of the windows that are closed now, or of its rows. After want of memory some of the
    /// text may be there, and the store is only safe to let go.
    fn take_in(
        &self,
        alloc: Global,
        store: &mut Self::Store,
        piece: Self::Piece,
        out: &mut Vec<u8>,
    ) -> Result<(), NoMemory>
        requires { CanTakeIn (plan self.now) (contents store.old) (has_taken self.now store.old) (is_of self.now piece) }
        ensures text { OnOk result (AddsText (plan self.now) (contents store.old) (has_taken self.now store.old) (is_of self.now piece)
            out.old.items out.new.items) }
        ensures stays { OnOk result (LeavesKept (plan self.now) (contents store.old) (has_taken self.now store.old) (is_of self.now piece)
            (remainder store.new)) }
        ensures taken { OnOk result (TakesIn (plan self.now) (contents store.old) (has_taken self.now store.old) (is_of self.now piece)
            (has_taken self.now store.new)) }
        ensures behind { Behind out.old.items out.new.items };

    /// Drops the parts of closed windows. Takes no memory.
    fn drop_closed(&self, store: &mut Self::Store)
        ensures contents { contents store.new ≡ remainder store.old }
        ensures taken { (r : Input) → has_taken self.now store.old r → has_taken self.now store.new r };
}
