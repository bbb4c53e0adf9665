// Laws of the rows of a file, and of the merged rows of two.
ghost use Rattle.saber_laws.specs.Inputs.{FileRowsFit, FilesAreSorted, MergesAreOrdered, MergesBegin, MergesEnd};

/// The rows of a file fit its side, come in order of time, and are no more than its lines may be.
pub fn file_rows_fit()
    ensures { FileRowsFit }
{}

/// The rows of a file are its accepted rows, sorted by timestamp; those of one timestamp keep their
/// order.
pub fn files_are_sorted()
    ensures { FilesAreSorted }
{}

/// Timestamps of merged rows do not fall.
pub fn merges_are_ordered()
    ensures { MergesAreOrdered }
{}

/// The merged rows of one side are the first rows of that side.
pub fn merges_begin()
    ensures { MergesBegin }
{}

/// A merge that is read to its end has all rows of both sides.
pub fn merges_end()
    ensures { MergesEnd }
{}
