// Drafts of tasks look back on blocks.
ghost use Rattle.saber_fragment.specs.LookBack.{DraftsLookBack};

/// A draft of a task can look back on the blocks whose rows the task needs (SABER 2016), one after
/// another, and what it then has is enough for the task's shares.
pub fn drafts_look_back()
    ensures { DraftsLookBack }
{}
