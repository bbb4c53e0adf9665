// The sizes that a case is tried with.
use crate::fields::{Fields, Key};
use crate::readings::number;
use crate::refusals::Refused;
use std::alloc::{AllocError, Global};

// Where a case and its section name none. The answer is the same for all. Reads give all that fit,
// or one byte each.
const TASKS: &str = "1 2 5 65536";

const RINGS: &str = "1 64";

const THREADS: &str = "0 2 8";

// In place of a size: no word is added.
const NONE: &str = "-";

/// The sizes to be tried, as words.
#[derive(Drop)]
pub(crate) struct Sizes<'a> {
    pub(crate) tasks: Vec<&'a str>,
    pub(crate) rings: Vec<&'a str>,
    pub(crate) threads: Vec<&'a str>,
    // how many bytes a read gives at most, 0 where they are all that fit
    pub(crate) cuts: Vec<u64>,
}

impl Sizes<'_> {
    pub(crate) fn let_go(self) {}
}

/// The sizes of a case with these words.
pub(crate) fn sizes_of<'a>(
    alloc: Global,
    fields: &Fields<'a>,
    words: &[&str],
) -> Result<Sizes<'a>, Refused> {
    Ok(Sizes {
        tasks: tried(alloc, fields, Key::TaskSizes, "--task", words, TASKS)?,
        rings: tried(alloc, fields, Key::RingSizes, "--ring", words, RINGS)?,
        threads: tried(alloc, fields, Key::Threads, "--threads", words, THREADS)?,
        cuts: cuts(alloc, fields)?,
    })
}

fn cuts(alloc: Global, fields: &Fields<'_>) -> Result<Vec<u64>, Refused> {
    let Some(field) = fields.find(Key::CutSizes, "") else {
        return Ok(vec![in alloc; 0, 1]?);
    };
    let mut sizes = Vec::new(alloc);
    for word in field.first().split(' ') {
        let size = if word == NONE {
            0
        } else {
            number(field, word)?
        };
        sizes.push(size)?;
    }
    Ok(sizes)
}

// The sizes of one kind: those that are named, or the usual ones; none where the words have one, or
// are of no run.
fn tried<'a>(
    alloc: Global,
    fields: &Fields<'a>,
    key: Key,
    option: &str,
    words: &[&str],
    usual: &'a str,
) -> Result<Vec<&'a str>, AllocError> {
    let text = if !is_run(words) || has(words, option) {
        NONE
    } else {
        match fields.find(key, "") {
            Some(field) => field.first(),
            None => usual,
        }
    };
    let mut sizes = Vec::new(alloc);
    for size in text.split(' ') {
        sizes.push(size)?;
    }
    Ok(sizes)
}

fn is_run(words: &[&str]) -> bool {
    match words.get(1) {
        Some(word) => { *word == "run" || *word == "chain" || *word == "demo" || *word == "many" }
        None => false,
    }
}

fn has(words: &[&str], option: &str) -> bool {
    for word in words {
        if *word == option {
            return true;
        }
    }
    false
}

/// The words with these sizes behind them.
pub(crate) fn with_sizes<'a>(
    alloc: Global,
    words: &[&'a str],
    task: &'a str,
    ring: &'a str,
    threads: &'a str,
) -> Result<Vec<&'a str>, AllocError> {
    let mut all = words.to_vec(alloc)?;
    add(&mut all, "--task", task)?;
    add(&mut all, "--ring", ring)?;
    add(&mut all, "--threads", threads)?;
    Ok(all)
}

fn add<'a>(words: &mut Vec<&'a str>, option: &'a str, size: &'a str) -> Result<(), AllocError> {
    if size != NONE {
        words.push(option)?;
        words.push(size)?;
    }
    Ok(())
}
