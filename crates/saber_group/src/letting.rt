// Slices, and what has them, are let go by calls. Where a function held one at an exit of its own,
// the steps that let each of its parts go would stand in that function, once for each exit, and its
// proof would take them all in.
use crate::complete::Complete;
use crate::slice_list::Span;
use crate::slices::Slice;
use saber_partial::{Gathering, OneGathering};
use std::collections::VecDeque;

impl Slice {
    /// Lets the slice go.
    pub(crate) fn let_go(self) {}
}

/// Lets slices go.
pub(crate) fn let_groups_go(_slices: VecDeque<Slice>) {}

/// Lets go of a part in the making.
pub(crate) fn let_part_go(_part: Gathering) {}

/// Lets go of slices whose parts stand in a list, and of these parts.
pub(crate) fn let_spans_go(_spans: Vec<Span>, _parts: OneGathering) {}

impl Complete {
    /// Lets go of what a task answered.
    pub(crate) fn let_go(self) {
        self.open.let_go();
    }
}
