// The pipe between two queries.
ghost use Rattle.std.specs.Prelude.{◌≡◌, true, [], None};
ghost use Rattle.std.specs.Option.{ForSome};
ghost use Rattle.crossbeam_queue.specs.Passes.{view, IsPassOf, ruled_capacity};
ghost use Rattle.saber_pipe.specs.Order.{log};

use crate::rule::{End, Ends, Line};
use crate::{PipeFeed, PipeName, PipeSink};
use std::alloc::{AllocError, Global};
use std::sync::Wait;
use std::sync::atomic::AtomicBool;

// How many items a pipe holds at most.
const ROOM: usize = 64;

/// A pipe of 64 items. What is written at one end comes out at the other, whole and in order.
#[derive(Drop)]
pub struct Pipe {
    alloc: Global,
    pub(crate) line: Line,
    // The pass of a pipe whose ends weren't lent yet.
    pub(crate) fresh: Option<End>,
    pub ghost room: { ruled_capacity line ≡ 64 },
    pub ghost idle: { ForSome fresh (λ end. IsPassOf line end × (view end ≡ log true true [] [] None)) },
}

impl Pipe {
    ghost use Rattle.std.specs.Prelude.{◌≡◌, IfOk};
    ghost use Rattle.saber_pipe.specs.Pipes.{id_of, IsNew, Begin};

    /// A new pipe. Its memory is all that the ends need but for what is written.
    pub fn new(alloc: Global) -> Result<Pipe, AllocError>
        ensures { IfOk result IsNew }
    {
        let (line, end) = Line::ruled(alloc, ROOM)?;
        Ok(Pipe {
            alloc,
            line,
            fresh: Some(end),
        })
    }

    /// Lends both ends of a new pipe, which P names. `alone` is set while nobody reads: what is
    /// written then waits in the sink, and the writer never waits for room. Who begins to read
    /// takes it (`swap`), and so does a writer that is done: where the reader finds it taken
    /// already, the writer's backlog is its own to read.
    pub fn ends<'a, R: Wait, P: PipeName>(
        &'a mut self,
        rt: &'a R,
        alone: &'a AtomicBool,
    ) -> (PipeSink<'a, R, P>, PipeFeed<'a, R, P>)
        requires new { IsNew self.old }
        requires named { P.id ≡ id_of self.old }
        ensures begin { Begin result.0 result.1 }
    {
        let Some(mut sender) = self.fresh.take() else {
            unreachable!()
        };
        let alloc = self.alloc;
        let line = &self.line;
        let getter = line.another::<Ends>(&mut sender);
        let sink = PipeSink::new(rt, alloc, alone, line, sender);
        let feed = PipeFeed::new(rt, alloc, line, getter);
        (sink, feed)
    }
}
