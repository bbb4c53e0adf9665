// The fields of a file of cases.
use crate::refusals::{Cause, Refused};
use std::alloc::Global;

/// What a field is about.
#[derive(Clone, Copy, PartialEq, Eq)]
pub(crate) enum Key {
    /// Begins a section, whose fields hold for all its cases.
    Section,
    /// Begins a case.
    Case,
    /// A text that later ones name.
    Text,
    /// The words of the call.
    Words,
    /// A file, by its name: what it has, where its reads are cut, and which of them fail.
    File,
    Cuts,
    Reads,
    /// The open, the write and the write of the note that fail.
    Open,
    Write,
    NoteWrite,
    /// The create that fails, and the write to a file that is created, by its name.
    Create,
    PartWrite,
    /// The gate that holds tasks back, and how often a task looks at it at most.
    Gate,
    Limit,
    /// Values with each of which the case is tried.
    Each,
    /// The sizes that it is tried with.
    TaskSizes,
    RingSizes,
    Threads,
    CutSizes,
    /// What has to come of it.
    Status,
    Out,
    OutEnd,
    Note,
    Tasks,
    Late,
    /// How many parts there are, and what has to come of one, by its number.
    Parts,
    PartStatus,
    PartOut,
    PartTasks,
}

/// A field: its line, what it is about, of which file, and the lines of its text.
#[derive(Drop)]
pub(crate) struct Field<'a> {
    pub(crate) line: u64,
    pub(crate) key: Key,
    pub(crate) name: &'a str,
    pub(crate) lines: Vec<&'a str>,
}

impl<'a> Field<'a> {
    /// The first line of the text.
    pub(crate) fn first(&self) -> &'a str {
        match self.lines.first() {
            Some(text) => *text,
            None => "",
        }
    }

    pub(crate) fn refused(&self, cause: Cause) -> Refused {
        Refused::At {
            line: self.line,
            cause,
        }
    }
}

// What stands before the `:`.
fn key_of(head: &str) -> Option<(Key, &str)> {
    match whole_key(head) {
        Some(key) => Some((key, "")),
        None => key_with_name(head),
    }
}

fn whole_key(head: &str) -> Option<Key> {
    match asked_key(head) {
        Some(key) => Some(key),
        None => match size_key(head) {
            Some(key) => Some(key),
            None => wanted_key(head),
        },
    }
}

// What is asked.
fn asked_key(head: &str) -> Option<Key> {
    match head {
        "section" => Some(Key::Section),
        "case" => Some(Key::Case),
        "words" => Some(Key::Words),
        "failing open" => Some(Key::Open),
        "failing write" => Some(Key::Write),
        "failing note" => Some(Key::NoteWrite),
        "failing create" => Some(Key::Create),
        "gate" => Some(Key::Gate),
        "limit" => Some(Key::Limit),
        _ => None,
    }
}

// What it is tried with.
fn size_key(head: &str) -> Option<Key> {
    match head {
        "each" => Some(Key::Each),
        "task sizes" => Some(Key::TaskSizes),
        "ring sizes" => Some(Key::RingSizes),
        "threads" => Some(Key::Threads),
        "cut sizes" => Some(Key::CutSizes),
        _ => None,
    }
}

// What has to come of it.
fn wanted_key(head: &str) -> Option<Key> {
    match head {
        "status" => Some(Key::Status),
        "out" => Some(Key::Out),
        "out ends" => Some(Key::OutEnd),
        "note" => Some(Key::Note),
        "tasks" => Some(Key::Tasks),
        "late" => Some(Key::Late),
        "parts" => Some(Key::Parts),
        _ => None,
    }
}

fn key_with_name(head: &str) -> Option<(Key, &str)> {
    if let Some(name) = head.strip_prefix("text ") {
        return Some((Key::Text, name));
    }
    if let Some(name) = head.strip_prefix("file ") {
        return Some((Key::File, name));
    }
    if let Some(name) = head.strip_prefix("cuts of ") {
        return Some((Key::Cuts, name));
    }
    if let Some(name) = head.strip_prefix("failing write of ") {
        return Some((Key::PartWrite, name));
    }
    if let Some(name) = head.strip_prefix("failing reads of ") {
        return Some((Key::Reads, name));
    }
    part_key(head)
}

// What has to come of a part.
fn part_key(head: &str) -> Option<(Key, &str)> {
    if let Some(number) = head.strip_prefix("status of ") {
        return Some((Key::PartStatus, number));
    }
    if let Some(number) = head.strip_prefix("out of ") {
        return Some((Key::PartOut, number));
    }
    head.strip_prefix("tasks of ")
        .map(|number| (Key::PartTasks, number))
}

// The field that a line begins.
fn field_of<'a>(alloc: Global, line: &'a str, number: u64) -> Result<Field<'a>, Refused> {
    let Some((head, rest)) = line.split_once(':') else {
        return Err(at(number, Cause::NoColon));
    };
    let Some((key, name)) = key_of(head) else {
        return Err(at(number, Cause::UnknownField));
    };
    let mut lines = Vec::new(alloc);
    if let Some(text) = rest.strip_prefix(' ') {
        lines.push(text)?;
    }
    Ok(Field {
        line: number,
        key,
        name,
        lines,
    })
}

fn at(line: u64, cause: Cause) -> Refused {
    Refused::At { line, cause }
}

// One more line of the text of the last field.
fn push_line<'a>(fields: &mut Vec<Field<'a>>, line: &'a str, number: u64) -> Result<(), Refused> {
    let Some(field) = fields.last_mut() else {
        return Err(at(number, Cause::NoField));
    };
    field.lines.push(line)?;
    Ok(())
}

// The next line of the file.
fn take_line<'a>(
    alloc: Global,
    fields: &mut Vec<Field<'a>>,
    line: &'a str,
    number: u64,
) -> Result<(), Refused> {
    if let Some(more) = line.strip_prefix("  ") {
        return push_line(fields, more, number);
    }
    if line.is_empty() || line.starts_with('#') {
        return Ok(());
    }
    fields.push(field_of(alloc, line, number)?)?;
    Ok(())
}

/// All fields of a file, in order.
pub(crate) fn fields_of<'a>(alloc: Global, text: &'a str) -> Result<Vec<Field<'a>>, Refused> {
    let mut fields: Vec<Field<'a>> = Vec::new(alloc);
    let mut number = 0u64;
    for line in text.lines() {
        number = number.saturating_add(1);
        take_line(alloc, &mut fields, line, number)?;
    }
    Ok(fields)
}

/// The fields of a section, and those of one of its cases, which hold in place of the section's.
#[derive(Drop)]
pub(crate) struct Fields<'a> {
    pub(crate) shared: Vec<Field<'a>>,
    pub(crate) own: Vec<Field<'a>>,
}

impl<'a> Fields<'a> {
    pub(crate) fn new(alloc: Global) -> Fields<'a> {
        Fields {
            shared: Vec::new(alloc),
            own: Vec::new(alloc),
        }
    }

    /// The field with this key, and of this file where the key is of a file.
    pub(crate) fn find(&self, key: Key, name: &str) -> Option<&Field<'a>> {
        match find(&self.own, key, name) {
            Some(field) => Some(field),
            None => find(&self.shared, key, name),
        }
    }
}

// The field with this key, of this name.
pub(crate) fn find<'b, 'a>(fields: &'b [Field<'a>], key: Key, name: &str) -> Option<&'b Field<'a>> {
    for field in fields {
        if field.key == key && field.name == name {
            return Some(field);
        }
    }
    None
}
