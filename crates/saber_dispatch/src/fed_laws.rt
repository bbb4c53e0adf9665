// Laws of the blocks that a cutter over a feed gave.
ghost use Rattle.saber_dispatch.specs.FeedLaws.{FedBlocksAreNear, FedBlocksAreTasks, CutsLeaveWholeTasks};

/// No block's task is too wide, and a task that is told in place of its block is the first one that
/// is.
pub fn fed_blocks_are_near()
    ensures { FedBlocksAreNear }
{}

/// Whatever file goes on from what was taken of a feed, the blocks given so far are the first tasks
/// of its input, in order; an end of all rows is the input's, and a task is too wide where it is
/// the first such one.
pub fn fed_blocks_are_tasks()
    ensures { FedBlocksAreTasks }
{}

/// After a cut at least every whole task of the whole lines that were taken is in a block.
pub fn cuts_leave_whole_tasks()
    ensures { CutsLeaveWholeTasks }
{}
