// Laws of the blocks that a cutter gave.
ghost use Rattle.saber_dispatch.specs.Telling.{BlocksAreNear, BlocksAreTasks};
ghost use Rattle.saber_dispatch.specs.Supplying.{BlocksAreSupplied};
ghost use Rattle.saber_dispatch.specs.Leaving.{FaultsLeaveWholeTasks};

use saber_fragment::Operator;

/// No block's task is too wide, and a task that is told in place of its block is the first one that
/// is.
pub fn blocks_are_near()
    ensures { BlocksAreNear }
{}

/// Over inputs that tell their bytes, the blocks given so far are the first tasks of the run's
/// input, in order; an end of all rows is the input's, and a task is too wide where it is the first
/// such one.
pub fn blocks_are_tasks()
    ensures { BlocksAreTasks }
{}

/// A block that is given is the block of its task for the work of threads, and all that was filled
/// then comes in the tasks up to it.
pub fn blocks_are_supplied<O: Operator>()
    ensures { BlocksAreSupplied O.plan }
{}

/// After a failed read at least every whole task of the whole lines that were taken of each input
/// is in a block.
pub fn faults_leave_whole_tasks()
    ensures { FaultsLeaveWholeTasks }
{}
