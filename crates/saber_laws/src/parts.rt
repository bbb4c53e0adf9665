// Laws of the parts of windows.
ghost use Rattle.saber_laws.specs.Parts.{MergeIsAssociative, MergeHasUnit, PartsJoin, PartHasLines, ClosedLinesStay};

/// Parts can be merged in any grouping.
pub fn merge_is_associative()
    ensures { MergeIsAssociative }
{}

/// The empty part changes nothing.
pub fn merge_has_unit()
    ensures { MergeHasUnit }
{}

/// The part of two stretches of rows is the merge of both parts.
pub fn parts_join()
    ensures { PartsJoin }
{}

/// The lines of a window's whole part are its answer lines.
pub fn part_has_lines()
    ensures { PartHasLines }
{}

/// The answer of a closed window stays, whatever rows follow.
pub fn closed_lines_stay()
    ensures { ClosedLinesStay }
{}
