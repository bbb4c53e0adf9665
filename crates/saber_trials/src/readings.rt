// What fields say: numbers, files and faults.
ghost use Rattle.std.specs.Prelude.{◌≤◌, All, IfOk};

use crate::fields::{Field, Fields, Key};
use crate::names::Names;
use crate::refusals::{Cause, Refused};
use crate::texts::{Space, part_of, text_of};
use saber_io::{MemFail, MemFile};
use std::alloc::Global;

/// The number that a word is.
pub(crate) fn number(field: &Field<'_>, word: &str) -> Result<u64, Refused> {
    match word.parse::<u64>() {
        Ok(number) => Ok(number),
        Err(_) => Err(field.refused(Cause::BadNumber)),
    }
}

/// The numbers of a field, with a space between.
pub(crate) fn numbers(alloc: Global, field: &Field<'_>) -> Result<Vec<u64>, Refused> {
    let mut list = Vec::new(alloc);
    for word in field.first().split(' ') {
        list.push(number(field, word)?)?;
    }
    Ok(list)
}

// The cut that a word is: at least 1.
fn cut_of(field: &Field<'_>, word: &str) -> Result<u64, Refused>
    ensures { IfOk result (λ c. 1 ≤ c) }
{
    let cut = number(field, word)?;
    if cut == 0 {
        return Err(field.refused(Cause::BadNumber));
    }
    Ok(cut)
}

// The cuts of a field.
fn cuts(alloc: Global, field: &Field<'_>) -> Result<Vec<u64>, Refused>
    ensures { IfOk result (λ v. All (λ c. 1 ≤ c) v.items) }
{
    let mut list = Vec::new(alloc);
    for word in field.first().split(' ') {
        list.push(cut_of(field, word)?)?;
    }
    Ok(list)
}

// The cuts of a file of so many bytes: those that are named, or one size for all its reads, but
// where the numbers of reads count.
fn cuts_of(
    alloc: Global,
    fields: &Fields<'_>,
    name: &str,
    cut: u64,
    length: usize,
) -> Result<Vec<u64>, Refused>
    ensures { IfOk result (λ v. All (λ c. 1 ≤ c) v.items) }
{
    if let Some(field) = fields.find(Key::Cuts, name) {
        return cuts(alloc, field);
    }
    if cut == 0 || fields.find(Key::Reads, name).is_some() {
        return Ok(Vec::new(alloc));
    }
    equal_cuts(alloc, cut, length)
}

// So many cuts of one size.
fn equal_cuts(alloc: Global, cut: u64, count: usize) -> Result<Vec<u64>, Refused>
    requires { 1 ≤ cut }
    ensures { IfOk result (λ v. All (λ c. 1 ≤ c) v.items) }
{
    let mut list = Vec::new(alloc);
    for _ in 0..count {
        list.push(cut)?;
    }
    Ok(list)
}

// The numbers of a field of this key, none where there is no such field.
fn listed(alloc: Global, fields: &Fields<'_>, key: Key, name: &str) -> Result<Vec<u64>, Refused> {
    match fields.find(key, name) {
        Some(field) => numbers(alloc, field),
        None => Ok(Vec::new(alloc)),
    }
}

/// The number of the open that fails.
pub(crate) fn opens(alloc: Global, fields: &Fields<'_>) -> Result<Vec<u64>, Refused> {
    listed(alloc, fields, Key::Open, "")
}

/// The number of the write that fails, and after how many bytes.
pub(crate) fn writes(
    alloc: Global,
    fields: &Fields<'_>,
    key: Key,
) -> Result<Vec<(u64, u64)>, Refused> {
    let mut list = Vec::new(alloc);
    if let Some(field) = fields.find(key, "") {
        list.push(write_of(field)?)?;
    }
    Ok(list)
}

/// The number of the create that fails.
pub(crate) fn creates(alloc: Global, fields: &Fields<'_>) -> Result<Vec<u64>, Refused> {
    listed(alloc, fields, Key::Create, "")
}

/// The writes to files that are created that fail: the case's own, and then its section's.
pub(crate) fn part_writes(alloc: Global, fields: &Fields<'_>) -> Result<Vec<MemFail>, Refused> {
    let mut list = Vec::new(alloc);
    push_part_writes(alloc, &fields.own, &mut list)?;
    push_part_writes(alloc, &fields.shared, &mut list)?;
    Ok(list)
}

fn push_part_writes(
    alloc: Global,
    some: &[Field<'_>],
    list: &mut Vec<MemFail>,
) -> Result<(), Refused> {
    for field in some {
        if field.key == Key::PartWrite {
            let (write, out) = write_of(field)?;
            let name = String::from_str(alloc, field.name)?;
            list.push(MemFail { name, write, out })?;
        }
    }
    Ok(())
}

fn write_of(field: &Field<'_>) -> Result<(u64, u64), Refused> {
    let Some((write, after)) = field.first().split_once(" after ") else {
        return Err(field.refused(Cause::BadNumber));
    };
    Ok((number(field, write)?, number(field, after)?))
}

/// The files of a case. Those of its own stand first: they are opened in place of its section's.
/// Each read gives at most `cut` bytes, where that isn't 0.
pub(crate) fn files_of(
    alloc: Global,
    names: &Names,
    fields: &Fields<'_>,
    cut: u64,
) -> Result<Vec<MemFile>, Refused> {
    let mut files = Vec::new(alloc);
    push_files(alloc, names, fields, cut, &fields.own, &mut files)?;
    push_files(alloc, names, fields, cut, &fields.shared, &mut files)?;
    Ok(files)
}

fn push_files(
    alloc: Global,
    names: &Names,
    fields: &Fields<'_>,
    cut: u64,
    some: &[Field<'_>],
    files: &mut Vec<MemFile>,
) -> Result<(), Refused> {
    for field in some {
        if field.key == Key::File {
            files.push(file_of(alloc, names, fields, cut, field)?)?;
        }
    }
    Ok(())
}

fn file_of(
    alloc: Global,
    names: &Names,
    fields: &Fields<'_>,
    cut: u64,
    field: &Field<'_>,
) -> Result<MemFile, Refused> {
    let name = name_of(alloc, names, field)?;
    let bytes = text_of(alloc, names, &field.lines, field.line)?;
    let cuts = cuts_of(alloc, fields, field.name, cut, bytes.len())?;
    let fails = listed(alloc, fields, Key::Reads, field.name)?;
    Ok(MemFile {
        name,
        bytes,
        cuts,
        fails,
    })
}

fn name_of(alloc: Global, names: &Names, field: &Field<'_>) -> Result<String, Refused> {
    let name = part_of(alloc, names, field.name, Space::Itself, field.line)?;
    match String::from_utf8(name) {
        Ok(name) => Ok(name),
        Err(_) => Err(field.refused(Cause::NotUtf8)),
    }
}
