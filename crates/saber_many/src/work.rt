// Several works as one.
ghost use Rattle.saber_many.specs.Sharing.{each_filled, AreTold, AreRows, ArePieces, AreStages};
ghost use Rattle.saber_many.specs.Labors.{all_upto, each_first};
ghost use Rattle.saber_many.specs.SharingLaws.{all_keep, all_again, all_whole, all_early, all_rise};

use crate::member::Member;
use crate::shareable::Shareable;
use saber_core::Work;
use std::collections::{LinkedList, VecDeque};
use std::marker::PhantomData;
use std::sync::Mutex;

/// Several works of one kind as one work, of which there is one at least. The rows of a task are
/// those of each, in their order; a piece has the piece of each, or the mark that memory lacked for
/// it; the stage has that of each, and goes on while one of them does.
pub struct Many<W> {
    work: PhantomData<Mutex<W>>,
}

impl<W: Shareable> Work for Many<W> {
    type Rows = Vec<W::Rows>;

    type Piece = VecDeque<Option<W::Piece>>;

    type Stage = Vec<Member<W::Stage>>;

    type Data = LinkedList<W::Data>;

    ghost is_told = { AreTold W.is_told W.is_alone };

    ghost filled = { λ told rows. each_filled W.filled told rows.items };

    ghost upto = { all_upto W.upto };

    ghost is_rows = { λ told t rows. AreRows W.is_rows W.is_alone told t rows.items };

    ghost is_piece = { λ told t pieces. ArePieces W.is_piece told t pieces.items };

    ghost first = { each_first W.first };

    ghost is_stage = { λ told k stopped stages. AreStages W.upto W.is_stage told k stopped stages.items };

    ghost keeps = { λ told d k rows was now is le. all_keep W.is_told W.is_alone W.filled W.upto W.is_rows W.keeps told d k rows.items was now is.1 le };

    ghost again = { λ told d j k was low high. all_again W.is_told W.is_alone W.upto W.again told d j k was low high };

    ghost whole = { λ told d was. all_whole W.is_told W.is_alone W.upto W.whole told d was };

    ghost early = { λ told d t was le. all_early W.is_told W.is_alone W.upto W.first W.early told d t was le };

    ghost rises = { λ told d j k was low high. all_rise W.is_told W.is_alone W.upto W.first W.rises told d j k was low high };
}
