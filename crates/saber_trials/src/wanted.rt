// What has to come of a case, and how what came differs.
use crate::fields::{Fields, Key};
use crate::names::Names;
use crate::readings::{number, numbers};
use crate::refusals::{Cause, Refused};
use crate::texts::text_of;
use saber_notes::Noted;
use std::alloc::{AllocError, Global};

/// What has to come of each run of a case.
#[derive(Drop)]
pub(crate) struct Wanted {
    status: u64,
    out: Vec<u8>,
    // whether the answer has to end so, and no more
    is_end: bool,
    note: Vec<u8>,
    noted: Noted,
    // how many tasks are assembled, for each size of tasks; any number where there are none
    tasks: Vec<u64>,
    // whether a task went on before the one that its gate has it wait for
    is_late: bool,
    // of each query of several
    parts: Vec<WantedPart>,
}

/// What has to come of a part.
#[derive(Drop)]
struct WantedPart {
    status: u64,
    out: Vec<u8>,
    tasks: Vec<u64>,
}

/// What came of a part.
#[derive(Drop)]
pub(crate) struct SeenPart {
    pub(crate) status: u8,
    pub(crate) out: Vec<u8>,
    pub(crate) tasks: u64,
}

/// What came of a run.
#[derive(Drop)]
pub(crate) struct Seen {
    pub(crate) status: u8,
    pub(crate) out: Vec<u8>,
    pub(crate) note: Vec<u8>,
    pub(crate) noted: Noted,
    pub(crate) tasks: u64,
    pub(crate) is_late: bool,
    pub(crate) parts: Vec<SeenPart>,
}

impl Seen {
    pub(crate) fn let_go(self) {}
}

/// What a case wants: status 0 and no bytes where it says nothing else.
pub(crate) fn wanted_of(
    alloc: Global,
    names: &Names,
    fields: &Fields<'_>,
) -> Result<Wanted, Refused> {
    let status = match fields.find(Key::Status, "") {
        Some(field) => number(field, field.first())?,
        None => 0,
    };
    let is_late = wanted_lateness(fields)?;
    let is_end = fields.find(Key::OutEnd, "").is_some();
    let out = wanted_text(
        alloc,
        names,
        fields,
        if is_end { Key::OutEnd } else { Key::Out },
        "",
    )?;
    let tasks = wanted_numbers(alloc, fields, Key::Tasks, "")?;
    Ok(Wanted {
        status,
        out,
        is_end,
        note: wanted_text(alloc, names, fields, Key::Note, "")?,
        noted: noted_of(status, fields),
        tasks,
        is_late,
        parts: wanted_parts(alloc, names, fields)?,
    })
}

// Tasks come in time where nothing else is said.
fn wanted_lateness(fields: &Fields<'_>) -> Result<bool, Refused> {
    let Some(field) = fields.find(Key::Late, "") else {
        return Ok(false);
    };
    match field.first() {
        "yes" => Ok(true),
        "no" => Ok(false),
        _ => Err(field.refused(Cause::UnknownWord)),
    }
}

fn wanted_numbers(
    alloc: Global,
    fields: &Fields<'_>,
    key: Key,
    name: &str,
) -> Result<Vec<u64>, Refused> {
    match fields.find(key, name) {
        Some(field) => numbers(alloc, field),
        None => Ok(Vec::new(alloc)),
    }
}

// So many parts, which a run of several queries has alone.
fn wanted_parts(
    alloc: Global,
    names: &Names,
    fields: &Fields<'_>,
) -> Result<Vec<WantedPart>, Refused> {
    let mut parts = Vec::new(alloc);
    let Some(field) = fields.find(Key::Parts, "") else {
        return Ok(parts);
    };
    for index in 0..number(field, field.first())? {
        parts.push(wanted_part(alloc, names, fields, index.saturating_add(1))?)?;
    }
    Ok(parts)
}

// The part of this number: status 0 and no bytes where a case says nothing else.
fn wanted_part(
    alloc: Global,
    names: &Names,
    fields: &Fields<'_>,
    count: u64,
) -> Result<WantedPart, Refused> {
    let name = format!(in alloc; "{count}")?;
    let status = match fields.find(Key::PartStatus, &name) {
        Some(field) => number(field, field.first())?,
        None => 0,
    };
    Ok(WantedPart {
        status,
        out: wanted_text(alloc, names, fields, Key::PartOut, &name)?,
        tasks: wanted_numbers(alloc, fields, Key::PartTasks, &name)?,
    })
}

// The number for the task size of this number: the last one holds for the rest.
fn number_at(list: &[u64], size: usize) -> Option<u64> {
    match list.get(size) {
        Some(count) => Some(*count),
        None => list.last().copied(),
    }
}

impl WantedPart {
    fn is_met(&self, seen: &SeenPart, size: usize) -> bool {
        let tasks = number_at(&self.tasks, size).unwrap_or(seen.tasks);
        u64::from(seen.status) == self.status
            && seen.out.as_slice() == self.out.as_slice()
            && seen.tasks == tasks
    }

    // Writes what isn't as it has to be of the part of this number.
    fn tell(
        &self,
        seen: &SeenPart,
        count: usize,
        size: usize,
        report: &mut String,
    ) -> Result<(), AllocError> {
        if self.is_met(seen, size) {
            return Ok(());
        }
        let tasks = number_at(&self.tasks, size).unwrap_or(seen.tasks);
        write!(
            report,
            "; part {count}: status {}, wanted {}",
            seen.status, self.status
        )?;
        write!(report, ", tasks {}, wanted {tasks}", seen.tasks)?;
        tell_text("out", &seen.out, &self.out, report)
    }
}

fn wanted_text(
    alloc: Global,
    names: &Names,
    fields: &Fields<'_>,
    key: Key,
    name: &str,
) -> Result<Vec<u8>, Refused> {
    match fields.find(key, name) {
        Some(field) => text_of(alloc, names, &field.lines, field.line),
        None => Ok(Vec::new(alloc)),
    }
}

// What becomes of the note: there is none with status 0, and it is whole where its write doesn't
// fail.
fn noted_of(status: u64, fields: &Fields<'_>) -> Noted {
    if status == 0 {
        return Noted::Nothing;
    }
    match fields.find(Key::NoteWrite, "") {
        Some(_) => Noted::Failed,
        None => Noted::Whole,
    }
}

impl Wanted {
    // How many tasks have to be assembled with the task size of this number.
    fn tasks_at(&self, size: usize) -> Option<u64> {
        number_at(&self.tasks, size)
    }

    // Whether each part is as it has to be, and there are as many.
    fn has_parts(&self, seen: &[SeenPart], size: usize) -> bool {
        if seen.len() != self.parts.len() {
            return false;
        }
        for (wanted, part) in self.parts.iter().zip(seen.iter()) {
            if !wanted.is_met(part, size) {
                return false;
            }
        }
        true
    }

    fn has_out(&self, out: &[u8]) -> bool {
        if self.is_end {
            out.ends_with(&self.out)
        } else {
            out == self.out.as_slice()
        }
    }

    /// Whether all is as it has to be, in tasks of the size of this number.
    pub(crate) fn is_met(&self, seen: &Seen, size: usize) -> bool {
        let tasks = self.tasks_at(size).unwrap_or(seen.tasks);
        u64::from(seen.status) == self.status
            && self.has_out(&seen.out)
            && seen.note.as_slice() == self.note.as_slice()
            && seen.noted == self.noted
            && seen.tasks == tasks
            && seen.is_late == self.is_late
            && self.has_parts(&seen.parts, size)
    }

    /// Writes what isn't as it has to be: what came, and what is wanted.
    pub(crate) fn tell(
        &self,
        seen: &Seen,
        size: usize,
        report: &mut String,
    ) -> Result<(), AllocError> {
        self.tell_status(seen, report)?;
        tell_text("note", &seen.note, &self.note, report)?;
        if !self.has_out(&seen.out) {
            tell_text("out", &seen.out, &self.out, report)?;
        }
        self.tell_noted(seen, report)?;
        self.tell_tasks(seen, size, report)?;
        self.tell_lateness(seen, report)?;
        self.tell_parts(&seen.parts, size, report)
    }

    fn tell_parts(
        &self,
        seen: &[SeenPart],
        size: usize,
        report: &mut String,
    ) -> Result<(), AllocError> {
        if seen.len() != self.parts.len() {
            write!(
                report,
                "; parts {}, wanted {}",
                seen.len(),
                self.parts.len()
            )?;
        }
        for (index, (wanted, part)) in self.parts.iter().zip(seen.iter()).enumerate() {
            wanted.tell(part, index.saturating_add(1), size, report)?;
        }
        Ok(())
    }

    fn tell_status(&self, seen: &Seen, report: &mut String) -> Result<(), AllocError> {
        if u64::from(seen.status) != self.status {
            write!(report, "; status {}, wanted {}", seen.status, self.status)?;
        }
        Ok(())
    }

    fn tell_noted(&self, seen: &Seen, report: &mut String) -> Result<(), AllocError> {
        if seen.noted != self.noted {
            write!(report, "; noted {:?}, wanted {:?}", seen.noted, self.noted)?;
        }
        Ok(())
    }

    fn tell_tasks(&self, seen: &Seen, size: usize, report: &mut String) -> Result<(), AllocError> {
        let tasks = self.tasks_at(size).unwrap_or(seen.tasks);
        if seen.tasks != tasks {
            write!(report, "; tasks {}, wanted {tasks}", seen.tasks)?;
        }
        Ok(())
    }

    fn tell_lateness(&self, seen: &Seen, report: &mut String) -> Result<(), AllocError> {
        if seen.is_late != self.is_late {
            let came = lateness(seen.is_late);
            write!(report, "; {came}, wanted {}", lateness(self.is_late))?;
        }
        Ok(())
    }

    pub(crate) fn let_go(self) {}
}

fn lateness(is_late: bool) -> &'static str {
    if is_late { "late" } else { "in time" }
}

// Tells a text that is another one than is wanted.
fn tell_text(
    what: &str,
    seen: &[u8],
    wanted: &[u8],
    report: &mut String,
) -> Result<(), AllocError> {
    if seen == wanted {
        return Ok(());
    }
    write!(report, "; {what} ")?;
    quote(seen, report)?;
    report.push_str(", wanted ")?;
    quote(wanted, report)
}

// Bytes between quotes, the first 300 of them.
fn quote(bytes: &[u8], report: &mut String) -> Result<(), AllocError> {
    let (front, end) = match bytes.get(..300) {
        Some(front) => (front, "\" .."),
        None => (bytes, "\""),
    };
    report.push('"')?;
    for byte in front.escape_ascii() {
        report.push(char::from(byte))?;
    }
    report.push_str(end)
}
