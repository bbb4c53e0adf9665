// Seats round a ring, interleaved by hand. Each task needs the two before it.
use super::{
    Adding, Nothing, advance, end, firsts, is_full, is_held, is_not_ready, is_stopped, put, work,
};
use saber_ring::{Claim, Place, Read, Ring, Take, Win};
use std::test::Fail;

#[test]
fn one_cell_goes_round(rt: HostRuntime) -> Result<(), Fail> {
    let frees = firsts(&rt)?;
    let made = Ring::<Adding>::new::<Nothing>(rt.alloc(), 1, 0);
    let Ok((ring, mut s)) = made else {
        panic!(rt; "no memory")
    };
    let mut u = s.split(&ring);
    put(&rt, &mut s, &ring, 0, 7, &frees);
    is_full(&rt, &mut s, &ring, 1, &frees, Place::Cell, 2);
    let job = job!(rt, s.claim(&ring, 0));
    is_not_ready(&rt, &mut u, &ring, 0, 3);
    let mut turn = turn!(rt, u.win(&ring));
    is_held(&rt, &mut s, &ring, 1);
    not_yet!(rt, u.take(&ring, &mut turn), 3);
    u.release(&ring, turn);
    work(&rt, &mut s, &ring, job);
    assert!(rt; advance(&rt, &mut s, &ring));
    s.join(&ring, u);
    assert!(rt; end(ring, s) == 21);
    Ok(())
}

// Both tasks need block 0: one has it, and the other one finds it out.
#[test]
fn two_seats_add_up(rt: HostRuntime) -> Result<(), Fail> {
    let frees = firsts(&rt)?;
    let made = Ring::<Adding>::new::<Nothing>(rt.alloc(), 2, 0);
    let Ok((ring, mut s)) = made else {
        panic!(rt; "no memory")
    };
    let mut u = s.split(&ring);
    put(&rt, &mut s, &ring, 0, 10, &frees);
    put(&rt, &mut s, &ring, 1, 20, &frees);
    let first = job!(rt, s.claim(&ring, 0));
    let second = job!(rt, u.claim(&ring, 1));
    let oldest = rows!(rt, u.read(&ring, &second, 0));
    read_by_another!(rt, s.read(&ring, &first, 0), 3);
    u.put_back(&ring, &second, oldest);
    work(&rt, &mut s, &ring, first);
    assert!(rt; advance(&rt, &mut s, &ring));
    // Task 1 isn't assembled, and needs block 0, which lies where block 2 has to.
    is_full(&rt, &mut s, &ring, 2, &frees, Place::Turn, 2);
    work(&rt, &mut u, &ring, second);
    assert!(rt; advance(&rt, &mut s, &ring));
    s.join(&ring, u);
    assert!(rt; end(ring, s) == 70);
    Ok(())
}

#[test]
fn a_mark_stops_the_stage(rt: HostRuntime) -> Result<(), Fail> {
    let frees = firsts(&rt)?;
    let made = Ring::<Adding>::new::<Nothing>(rt.alloc(), 1, 0);
    let Ok((ring, mut s)) = made else {
        panic!(rt; "no memory")
    };
    put(&rt, &mut s, &ring, 0, 30, &frees);
    let job = job!(rt, s.claim(&ring, 0));
    s.deposit(&ring, job, None);
    assert!(rt; !advance(&rt, &mut s, &ring));
    is_stopped(&rt, &mut s, &ring);
    is_full(&rt, &mut s, &ring, 1, &frees, Place::Cell, 7);
    assert!(rt; end(ring, s) == 0);
    Ok(())
}
