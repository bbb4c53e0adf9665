// What cuts rows into blocks is let go by calls. Where a function held a cutter at an exit of its
// own, the steps that let each of its parts go would stand in that function, and its proof would
// take them all in; and each crate that lets one go would prove anew how its parts are let go.
use crate::cutter::Cutter;
use crate::fed_cutter::{Begun, FedCutter};
use crate::keeper::Keeper;
use crate::lasts::Lasts;
use crate::reader::Reader;
use saber_flat::Rows;
use saber_fragment::Earlier;
use saber_places::Places;
use saber_rows::{Lines, Merge};

// Lets the reader of one input go.
pub(crate) fn let_lines_go(_lines: Lines) {}

// Lets those of two inputs go.
fn let_merge_go(_merge: Merge) {}

// Lets the reader of a query's inputs go.
fn let_reader_go(reader: Reader) {
    match reader {
        Reader::One(lines) => let_lines_go(lines),
        Reader::Two(merge) => let_merge_go(merge),
    }
}

// Lets the rows of a block go that isn't given.
pub(crate) fn let_rows_go(_rows: Rows) {}

// Lets the last windows of blocks go.
fn let_lasts_go(_lasts: Option<Lasts>) {}

// Lets the rows of the block before go.
fn let_kept_go(_kept: Option<Earlier>) {}

// Lets the counts of rows by key list go.
fn let_places_go(_places: Option<Places>) {}

// Lets a block that isn't whole go.
fn let_begun_go(_begun: Option<Begun>) {}

impl Cutter {
    /// Lets the cutter go.
    pub fn let_go(self) {
        let_reader_go(self.reader);
        let_lasts_go(self.lasts);
    }
}

impl FedCutter {
    /// Lets the cutter go, with the rows of a block that isn't whole.
    pub fn let_go(self) {
        self.cutter.let_go();
        let_begun_go(self.begun);
    }
}

impl Keeper {
    /// Lets the rows and counts go that are kept.
    pub fn let_go(self) {
        let_kept_go(self.kept);
        let_places_go(self.places);
    }
}
