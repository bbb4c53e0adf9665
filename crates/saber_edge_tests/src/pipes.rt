// A pipe whose writer is alone, since no thread could be had: it never waits, and then the same
// thread reads.
ghost use Rattle.std.specs.Prelude.{◌≡◌};
ghost use Rattle.saber_pipe.specs.Pipes.{id_of, IsNew};

use saber_io::{EndMark, Failed, Fed, Feed, Pour, Sink, WriteFault};
use saber_pipe::{Backlog, Pipe, PipeName, PipeSink, Receipt, Relay};
use std::alloc::Global;
use std::marker::Brand;
use std::process::Abort;
use std::sync::Wait;
use std::sync::atomic::AtomicBool;
use std::test::Fail;
use std::thread;

// Writes so many lines, with a pour behind each, and tells how they end.
fn write_lines<'a, R: Wait, P: PipeName>(
    mut sink: PipeSink<'a, R, P>,
    lines: u32,
    mark: EndMark,
) -> Result<(Receipt<P>, Backlog<'a, P>), WriteFault> {
    for _ in 0..lines {
        sink.write_all(b"7,8\n")?;
        sink.pour();
    }
    Ok(sink.finish(mark))
}

// The bytes up to the mark; Failed behind a cut, or where memory is short.
fn read_bytes<R: Wait, P: PipeName>(
    rt: &R,
    alloc: Global,
    relay: &mut Relay<'_, R, P>,
) -> Result<Vec<u8>, Failed> {
    let mut all = Vec::new(alloc);
    for _ in rt.forever() {
        let mut buf = [0; 7];
        match relay.feed(&mut buf)? {
            Fed::Bytes(n) => all.extend_from_slice(&buf[..n]).map_err(|_| Failed)?,
            Fed::NotYet => {
                if !relay.refill() {
                    thread::yield_now();
                }
            }
            Fed::End => return Ok(all),
        }
    }
    unreachable!()
}

// A writer that is alone writes more than the pipe has room for; then the same thread reads it, up
// to how it ended.
fn hand_over<R: Wait + Abort, P: PipeName>(
    rt: &R,
    alloc: Global,
    pipe: &mut Pipe,
    mark: EndMark,
) -> Result<Vec<u8>, Failed>
    requires new { IsNew pipe.old }
    requires named { P.id ≡ id_of pipe.old }
{
    let alone = AtomicBool::new(true);
    let (sink, feed) = pipe.ends::<R, P>(rt, &alone);
    let (receipt, backlog) = write_lines(sink, 100, mark).expect(rt, "memory");
    assert!(rt; !backlog.is_empty());
    let mut relay = Relay::new(feed, Some(backlog));
    let all = read_bytes(rt, alloc, &mut relay);
    relay.settle(receipt);
    all
}

#[test]
fn handed_over(rt: HostRuntime) -> Result<(), Fail> {
    let alloc = rt.alloc();
    let mut pipe = Pipe::new(alloc)?;
    let all = hand_over::<HostRuntime, Brand>(&rt, alloc, &mut pipe, EndMark::End);
    assert!(rt; all.is_ok_and(|all| all.len() == 400));
    Ok(())
}

#[test]
fn cut_off(rt: HostRuntime) -> Result<(), Fail> {
    let alloc = rt.alloc();
    let mut pipe = Pipe::new(alloc)?;
    let all = hand_over::<HostRuntime, Brand>(&rt, alloc, &mut pipe, EndMark::Cut);
    assert!(rt; all.is_err());
    Ok(())
}
