// One line by itself.
ghost use Rattle.std.specs.Prelude.{◌≡◌, ◌≤◌, ◌<◌, ℤ, List, IfOk, OnErr, false, length};
ghost use Rattle.saber_plan.specs.Rows.{without_cr, stamp, stamp as stamp_in, raised_time, late, judge, judge_numbers, judge_fields, bad_field, fields_of, wide_field, numbers};
ghost use Rattle.saber_rows.specs.Judged.{judged_of, IfCounted, is_ready_at};

use crate::fields::{count_fields, first_bad, values_of};
use saber_plan::{NoMemory, RowCause, Values};
use std::alloc::Global;

/// The bytes of the longest content of a line: this project's limit.
pub(crate) const LONGEST: usize = 4096;

/// What a line is.
#[derive(Drop)]
pub(crate) enum Judged {
    Skipped,
    Taken(Values),
    Refused(RowCause),
}

/// A line's content.
pub(crate) fn content_of(line: &[u8]) -> &[u8]
    ensures { result.now ≡ without_cr line.now }
{
    if !line.is_empty() && line[line.len() - 1] == b'\r' {
        return &line[..line.len() - 1];
    }
    line
}

/// The timestamp of a row.
#[inline]
pub(crate) fn stamp_of(values: &[i64]) -> u64
    ensures { result ≡ stamp values.now }
{
    match values.split_first() {
        None => 0,
        Some((first, _)) => first.unsigned_abs(),
    }
}

/// The greatest timestamp, with one more.
#[inline]
pub(crate) fn raise(high: Option<u64>, stamp: u64) -> u64
    ensures { result ≡ raised_time high stamp }
{
    match high {
        None => stamp,
        Some(high) => high.max(stamp),
    }
}

/// Whether a row is below the greatest timestamp by more than the slack.
#[inline]
pub(crate) fn is_late(slack: u64, high: Option<u64>, values: &[i64]) -> bool
    ensures { result ≡ late slack high values.now }
{
    match high {
        None => false,
        Some(high) => {
            let stamp = stamp_of(values);
            stamp < high && slack < high - stamp
        }
    }
}

/// Whether a row with this timestamp is late where there is no slack.
#[inline(always)]
pub(crate) fn is_below(high: Option<u64>, stamp: u64) -> bool
    ensures late { (values : List ℤ) → stamp ≡ stamp_in values → result ≡ late 0 high values }
    ensures highest { result ≡ false → raised_time high stamp ≡ stamp }
{
    match high {
        None => false,
        Some(high) => stamp < high,
    }
}

/// Whether a row with this timestamp can be given.
#[inline]
pub(crate) fn is_ready(slack: u64, high: Option<u64>, stamp: u64) -> bool
    ensures { result ≡ is_ready_at slack high stamp }
{
    match high {
        None => false,
        Some(high) => stamp <= high && slack <= high - stamp,
    }
}

// A line of as many fields as there are columns.
fn judge_content(alloc: Global, columns: u32, content: &[u8]) -> Result<Judged, NoMemory>
    requires few { columns ≤ 32 }
    requires count { length (fields_of content.now) ≡ columns }
    ensures judged { IfOk result (λ j. judged_of j ≡ judge_fields (fields_of content.now) (bad_field 1 (fields_of content.now))) }
    ensures memory { OnErr result (8 < columns) }
{
    if let Some(field) = first_bad(content) {
        return Ok(Judged::Refused(RowCause::BadNumber { field }));
    }
    match values_of(alloc, content)? {
        Err(field) => Ok(Judged::Refused(RowCause::Range { field })),
        Ok(values) => Ok(Judged::Taken(values)),
    }
}

/// A line with this content and number, but for its timestamp.
#[tactic(auto, unfolding(saber_plan::specs::Rows::judge))]
pub(crate) fn judge_line(
    alloc: Global,
    columns: u32,
    most: u64,
    number: u64,
    content: &[u8],
) -> Result<Judged, NoMemory>
    requires { columns ≤ 32 }
    ensures judged { IfOk result (λ j. judged_of j ≡ judge columns most number content.now) }
    ensures counted { IfOk result (λ j. IfCounted j (number ≤ most)) }
    ensures memory { OnErr result (8 < columns) }
{
    if number > most {
        return Ok(Judged::Refused(RowCause::TooManyLines));
    }
    if content.is_empty() {
        return Ok(Judged::Skipped);
    }
    if content.len() > LONGEST {
        return Ok(Judged::Refused(RowCause::TooLong));
    }
    if count_fields(content) != columns as usize {
        return Ok(Judged::Refused(RowCause::FieldCount));
    }
    judge_content(alloc, columns, content)
}
