// Who does the works of a list.
ghost use Rattle.std.specs.Prelude.{◌≡◌, ◌≢◌, ◌⊎◌, ⊤, ◌≤◌, ◌^◌, ◌<◌, ◌+◌, ℕ, List, [], true, false, None, IfSome};
ghost use Rattle.std.specs.List.{AllByRecursion};
ghost use Rattle.saber_ring.specs.Shows.{first_of_task};
ghost use Rattle.saber_workers.specs.Labors.{IsOwn, Begins, CanLookBack, LooksBack, CanFinish, Finishes, IsNext, Absorbs};
ghost use Rattle.saber_many.specs.Sharing.{AreRows, ArePieces, AreStages};
ghost use Rattle.saber_many.specs.Labors.{flat, all_upto, each_first, AllSuit, CanMake, Makes, CanMakeEach, MakesEach, CanAbsorb, AbsorbsOne, CanAbsorbEach, AbsorbsEach, HasStopped, FirstIs};

use crate::member::Member;
use crate::shareable::Shareable;
use crate::work::Many;
use saber_workers::Labor;
use std::alloc::Global;
use std::collections::VecDeque;
use std::sync::atomic::{AtomicBool, Ordering};

/// Who does the works of a list, each its own.
pub struct Each<L> {
    pub list: Vec<L>,
    /// Of each work, whether its stage has stopped: then no piece of it is made any more. Nothing
    /// else stands on it, so one that is missing counts as false.
    pub stopped: Vec<AtomicBool>,
}

// A flag of a work whose stage has stopped. What it holds no clause can say; so it is a type
// parameter, and who tells that it was set has asked it.
pub(crate) trait StopFlag {
    ghost was_set: { Self → Type 0 };

    // Whether it was set.
    fn is_set(&self) -> bool
        ensures { result ≡ true → Self.was_set self.now };
}

impl StopFlag for AtomicBool {
    ghost was_set = { λ flag. ⊤ };

    fn is_set(&self) -> bool {
        self.load(Ordering::SeqCst)
    }
}

// Whether the first of these works has stopped, as far as was told.
fn has_stopped<A: StopFlag>(stopped: &[A]) -> bool
    ensures { result ≡ true → FirstIs A.was_set stopped.now }
{
    match stopped.split_first() {
        Some((first, _)) => first.is_set(),
        None => false,
    }
}

// Tells that the first of these works has stopped.
fn tell_stopped(stopped: &[AtomicBool]) {
    if let Some((first, _)) = stopped.split_first() {
        first.store(true, Ordering::SeqCst);
    }
}

// Of the works behind the first one.
fn others_of(stopped: &[AtomicBool]) -> &[AtomicBool] {
    match stopped.split_first() {
        Some((_, others)) => others,
        None => stopped,
    }
}

/// The piece of the task that has these rows. None for want of memory.
pub(crate) fn make<W: Shareable, L: Labor<W>>(
    labor: &L,
    alloc: Global,
    own: &W::Rows,
) -> Option<W::Piece>
    requires can { CanMake W.upto W.is_rows W.is_alone L.suits labor.now own.now }
    ensures makes { Makes W.upto W.is_rows W.is_alone L.suits W.is_piece labor.now own.now result }
    ensures lacks { result ≡ None → L.lacked labor.now }
{
    let Some(draft) = labor.start(alloc, own) else {
        return None;
    };
    labor.finish(alloc, draft)
}

// The same, and none where its stage has stopped. Who gives none has asked both.
fn make_one<W: Shareable, L: Labor<W>, A: StopFlag>(
    labor: &L,
    stopped: &[A],
    alloc: Global,
    own: &W::Rows,
) -> Option<W::Piece>
    requires can { CanMake W.upto W.is_rows W.is_alone L.suits labor.now own.now }
    ensures makes { Makes W.upto W.is_rows W.is_alone L.suits W.is_piece labor.now own.now result }
    ensures mark { result ≡ None → L.lacked labor.now ⊎ FirstIs A.was_set stopped.now }
{
    if has_stopped(stopped) {
        return None;
    }
    make::<W, L>(labor, alloc, own)
}

// The pieces of all, in their order, each of its own rows: those that have none here have the mark.
fn make_each<W: Shareable, L: Labor<W>>(
    labors: &[L],
    stopped: &[AtomicBool],
    alloc: Global,
    rows: &[W::Rows],
) -> VecDeque<Option<W::Piece>>
where
    W::Piece: Drop,
    requires can { CanMakeEach W.upto W.is_rows W.is_alone L.suits labors.now rows.now }
    ensures makes { MakesEach W.upto W.is_rows W.is_alone L.suits W.is_piece labors.now rows.now result.items }
{
    let Some((labor, others)) = labors.split_first() else {
        return VecDeque::new(alloc);
    };
    let Some((own, rest)) = rows.split_first() else {
        return VecDeque::new(alloc);
    };
    let mut pieces = make_each::<W, L>(others, others_of(stopped), alloc, rest);
    let piece = make_one::<W, L, AtomicBool>(labor, stopped, alloc, own);
    match pieces.push_front(piece) {
        Ok(()) => pieces,
        Err(_) => VecDeque::new(alloc),
    }
}

// Takes a piece into a stage that goes on. True where it goes on then.
fn absorb_one<W: Shareable, L: Labor<W>>(
    labor: &L,
    stopped: &[AtomicBool],
    alloc: Global,
    member: &mut Member<W::Stage>,
    piece: Option<W::Piece>,
) -> bool
where
    W::Piece: Drop,
    requires can { CanAbsorb W.upto W.is_piece W.is_stage L.suits labor.now member.old piece }
    ensures goes { result ≡ member.new.goes }
    ensures none { piece ≡ None → result ≡ false }
    ensures absorbs { AbsorbsOne W.upto W.is_piece W.is_stage L.suits labor.now member.old piece member.new }
{
    if !member.goes {
        return false;
    }
    let goes = labor.absorb(alloc, &mut member.stage, piece);
    member.goes = goes;
    if !goes {
        tell_stopped(stopped);
    }
    goes
}

// The piece, or the mark where there is none.
fn flat<P>(piece: Option<Option<P>>) -> Option<P>
    ensures { result ≡ flat piece }
{
    match piece {
        None => None,
        Some(piece) => piece,
    }
}

// Takes the pieces of all into their stages, in their order. True where one of them goes on then.
fn absorb_each<W: Shareable, L: Labor<W>>(
    labors: &[L],
    stopped: &[AtomicBool],
    alloc: Global,
    members: &mut [Member<W::Stage>],
    pieces: &mut VecDeque<Option<W::Piece>>,
) -> bool
where
    W::Piece: Drop,
    requires can { CanAbsorbEach W.upto W.is_piece W.is_stage L.suits labors.now members.old pieces.old.items }
    ensures stop { result ≡ false → AllByRecursion HasStopped members.new }
    ensures none { pieces.old.items ≡ [] → result ≡ false }
    ensures absorbs { AbsorbsEach W.upto W.is_piece W.is_stage L.suits labors.now members.old pieces.old.items members.new }
{
    let Some((labor, others)) = labors.split_first() else {
        return false;
    };
    let Some((member, rest)) = members.split_first_mut() else {
        return false;
    };
    let piece = flat(pieces.pop_front());
    let goes = absorb_one::<W, L>(labor, stopped, alloc, member, piece);
    let more = absorb_each::<W, L>(others, others_of(stopped), alloc, rest, pieces);
    goes || more
}

// The pieces, or none.
fn or_none<P>(alloc: Global, pieces: Option<VecDeque<Option<P>>>) -> VecDeque<Option<P>>
    ensures none { pieces ≡ None → result.items ≡ [] }
    ensures some { IfSome pieces (λ p. result.items ≡ p.items) }
{
    match pieces {
        None => VecDeque::new(alloc),
        Some(pieces) => pieces,
    }
}

impl<W: Shareable, L: Labor<W>> Labor<Many<W>> for Each<L>
where
    W::Piece: Drop,
{
    type Draft = VecDeque<Option<W::Piece>>;

    ghost suits = { λ each told. AllSuit L.suits each.list.items told };

    ghost has_blocks = { λ each told t u draft. ArePieces W.is_piece told t draft.items };

    // Where memory lacks for pieces, their list is there all the same.
    ghost lacked = { λ each. ⊥ };

    fn first(&self, own: &Vec<W::Rows>) -> u64
        ensures { (told : List W.Data) (t : ℕ) → AreRows W.is_rows W.is_alone told t own.now.items → result ≡ first_of_task (all_upto W.upto) (each_first W.first) told t }
    {
        let Some(own) = own.first() else {
            return 0;
        };
        W::number(own)
    }

    fn start(&self, alloc: Global, own: &Vec<W::Rows>) -> Option<VecDeque<Option<W::Piece>>>
        requires { IsOwn (all_upto W.upto) (λ told t rows. AreRows W.is_rows W.is_alone told t rows.items) (AllSuit L.suits self.now.list.items) own.now }
        ensures lacks { result ≢ None }
        ensures begins { Begins (all_upto W.upto) (each_first W.first) (λ told t rows. AreRows W.is_rows W.is_alone told t rows.items) (AllSuit L.suits self.now.list.items) (λ told t u draft. ArePieces W.is_piece told t draft.items) own.now result }
    {
        Some(make_each::<W, L>(&self.list, &self.stopped, alloc, own))
    }

    fn look_back(
        &self,
        _alloc: Global,
        _draft: &mut VecDeque<Option<W::Piece>>,
        _block: &Vec<W::Rows>,
    ) -> bool
        requires { CanLookBack (all_upto W.upto) (each_first W.first) (λ told t rows. AreRows W.is_rows W.is_alone told t rows.items) (AllSuit L.suits self.now.list.items) (λ told t u draft. ArePieces W.is_piece told t draft.items) _draft.old _block.now }
        ensures { LooksBack (all_upto W.upto) (each_first W.first) (λ told t rows. AreRows W.is_rows W.is_alone told t rows.items) (AllSuit L.suits self.now.list.items) (λ told t u draft. ArePieces W.is_piece told t draft.items) _draft.old _block.now result _draft.new }
    {
        true
    }

    fn finish(
        &self,
        _alloc: Global,
        draft: VecDeque<Option<W::Piece>>,
    ) -> Option<VecDeque<Option<W::Piece>>>
        requires { CanFinish (all_upto W.upto) (AllSuit L.suits self.now.list.items) (λ told t u draft. ArePieces W.is_piece told t draft.items) draft }
        ensures lacks { result ≢ None }
        ensures finishes { Finishes (all_upto W.upto) (AllSuit L.suits self.now.list.items) (λ told t u draft. ArePieces W.is_piece told t draft.items) (λ told t pieces. ArePieces W.is_piece told t pieces.items) draft result }
    {
        Some(draft)
    }

    fn absorb(
        &self,
        alloc: Global,
        stage: &mut Vec<Member<W::Stage>>,
        piece: Option<VecDeque<Option<W::Piece>>>,
    ) -> bool
        requires { IsNext (all_upto W.upto) (λ told t pieces. ArePieces W.is_piece told t pieces.items) (λ told k stopped stages. AreStages W.upto W.is_stage told k stopped stages.items) (AllSuit L.suits self.now.list.items) stage.old piece }
        ensures none { piece ≡ None → result ≡ false }
        ensures stage { Absorbs (all_upto W.upto) (λ told t pieces. ArePieces W.is_piece told t pieces.items) (λ told k stopped stages. AreStages W.upto W.is_stage told k stopped stages.items) (AllSuit L.suits self.now.list.items) stage.old piece stage.new result }
    {
        let mut pieces = or_none(alloc, piece);
        absorb_each::<W, L>(&self.list, &self.stopped, alloc, stage, &mut pieces)
    }
}
