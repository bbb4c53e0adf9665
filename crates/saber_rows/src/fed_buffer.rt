// Bytes of a feed, as a reader holds them.
ghost use Rattle.std.specs.Prelude.{◌≡◌};
ghost use Rattle.saber_rows.specs.FedSizes.{size_of};

use crate::buffer::{Buffer, PIECE};
use saber_io::{Failed, Fed, Feed};

impl Buffer {
    ghost use Rattle.std.specs.Prelude.{◌≡◌, ◌≤◌, length, IfOk, OnOk, OnErr, Some};
    ghost use Rattle.saber_plan.specs.Outputs.{Rose};
    ghost use Rattle.saber_io.specs.Feeds.{IsCut};
    ghost use Rattle.saber_rows.specs.Buffer.{bytes_of, Gains};
    ghost use Rattle.saber_rows.specs.FedSizes.{Tells};

    /// Takes a piece of up to 4,096 bytes of a feed, and answers what it told.
    pub(crate) fn fill_fed<F: Feed>(&mut self, feed: &mut F) -> Result<Fed, Failed>
        requires { length (bytes_of self.old) ≤ 4097 }
        ensures bytes { IfOk result (λ fed. Gains (size_of fed) (bytes_of self.old) (bytes_of self.new) (Some (F.waiting feed.old)) (Some (F.waiting feed.new))) }
        ensures tells { IfOk result (λ fed. Tells (F.waiting feed.old) (F.waiting feed.new) (F.mark feed.old) fed) }
        ensures cut { OnErr result ((bytes_of self.new ≡ bytes_of self.old) × IsCut (F.waiting feed.old) (F.waiting feed.new) (F.mark feed.old)) }
        ensures stands { (F.taken feed.new ≡ F.taken feed.old) × (F.mark feed.new ≡ F.mark feed.old) }
        ensures cause { OnErr result (Rose (F.faults feed.old) (F.faults feed.new)) }
        ensures good { OnOk result (F.faults feed.new ≡ F.faults feed.old) }
        ensures count { F.faults feed.old ≤ F.faults feed.new }
    {
        self.make_room();
        let to = self.end + PIECE;
        match feed.feed(&mut self.buf[self.end..to]) {
            Ok(fed) => {
                self.end += size_fed(&fed);
                Ok(fed)
            }
            Err(failed) => Err(failed),
        }
    }
}

// How many bytes a feed gave.
fn size_fed(fed: &Fed) -> usize
    ensures { result ≡ size_of fed.now }
{
    match fed {
        Fed::Bytes(n) => *n,
        Fed::End => 0,
        Fed::NotYet => 0,
    }
}
