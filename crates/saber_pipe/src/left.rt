// What is left of what a writer wrote.
ghost use Rattle.std.specs.Prelude.{◌≡◌, Some};
ghost use Rattle.saber_pipe.specs.Outboxes.{whole_of, all_of};
ghost use Rattle.saber_pipe.specs.declared.left.Left.TheVariants as left;
ghost use Rattle.saber_pipe.specs.Lefts.{MovesLeft, IsPouredOut};

use crate::outbox::Outbox;
use crate::{PipeName, Receipt};
use saber_io::EndMark;
use std::sync::Wait;

// Pieces and the mark behind them, or nothing more than what was sent.
#[derive(Drop)]
pub enum Left<'a, P: PipeName> {
    Kept(Outbox<'a, P>),
    Sent(Receipt<P>),
}

// Sends what is kept, as far as there is room for it, and the mark once nothing is kept.
pub(crate) fn send_left<'a, R: Wait, P: PipeName>(
    rt: &R,
    outbox: Outbox<'a, P>,
    mark: EndMark,
) -> Left<'a, P>
    requires { whole_of outbox ≡ Some (all_of outbox mark) }
    ensures moves { MovesLeft (left.Kept outbox.entry) result mark }
    ensures until { IsPouredOut result }
{
    let mut outbox = outbox;
    outbox.send_all(rt);
    if !outbox.is_empty() {
        return Left::Kept(outbox);
    }
    match outbox.send_last(rt, mark) {
        Ok(receipt) => Left::Sent(receipt),
        Err(outbox) => Left::Kept(outbox),
    }
}
