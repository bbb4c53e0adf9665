//! What threads share or move may cross them: this crate's own build says so, not the first
//! caller's.
use crate::job::Job;
use crate::ring::Ring;
use crate::seat::Seat;
use crate::turn::Turn;
use saber_core::Work;

fn is_moved<T: Send>() {}

fn is_shared<T: Sync>() {}

// Threads share a ring, and move seats, jobs and turns.
#[allow(dead_code)]
fn crosses<W: Work + Send + Sync>()
where
    W::Rows: Send,
    W::Piece: Send,
    W::Stage: Send,
{
    is_shared::<Ring<W>>();
    is_moved::<Ring<W>>();
    is_moved::<Seat<W>>();
    is_moved::<Job<W>>();
    is_moved::<Turn<W>>();
}
