// The cases of a file, tried one after another.
use crate::fields::{Field, Fields, Key, fields_of, find};
use crate::names::Names;
use crate::refusals::{Cause, Refused};
use crate::runs::run_once;
use crate::sizes::{Sizes, sizes_of, with_sizes};
use crate::texts::{BETWEEN, Space, part_of, text_of};
use crate::wanted::{Seen, Wanted, wanted_of};
use std::alloc::{AllocError, Global};
use std::str;
use std::sync::Wait;
use std::thread::Threads;

/// How many cases were tried, in how many runs, and how many cases failed.
#[derive(Clone, Copy)]
pub struct Counts {
    pub cases: u64,
    pub runs: u64,
    pub failed: u64,
}

/// Tries the cases of a file of this name and text. For each that fails a line of the report says
/// what came in its first run that isn't as it has to be, and what is wanted. A file is refused at
/// its first line that isn't as the format wants it; what stands before that was tried.
pub fn try_cases<R: Threads + Wait + Sync>(
    rt: &R,
    alloc: Global,
    file: &str,
    text: &str,
    report: &mut String,
) -> Result<Counts, Refused> {
    let mut trial = Trial::new(alloc, file);
    let end = trial.take_all(rt, alloc, text, report);
    let counts = trial.counts;
    trial.let_go();
    match end {
        Ok(()) => Ok(counts),
        Err(refused) => Err(refused),
    }
}

// Where the next field belongs.
#[derive(Clone, Copy, PartialEq, Eq)]
enum Place {
    Nowhere,
    Section,
    Case,
}

#[derive(Drop)]
struct Trial<'a> {
    file: &'a str,
    names: Names,
    fields: Fields<'a>,
    place: Place,
    // of the case
    line: u64,
    title: &'a str,
    counts: Counts,
}

impl<'a> Trial<'a> {
    fn new(alloc: Global, file: &'a str) -> Trial<'a> {
        Trial {
            file,
            names: Names::new(alloc),
            fields: Fields::new(alloc),
            place: Place::Nowhere,
            line: 0,
            title: "",
            counts: Counts {
                cases: 0,
                runs: 0,
                failed: 0,
            },
        }
    }

    fn let_go(self) {}

    // All fields of the file.
    fn take_all<R: Threads + Wait + Sync>(
        &mut self,
        rt: &R,
        alloc: Global,
        text: &'a str,
        report: &mut String,
    ) -> Result<(), Refused> {
        for field in fields_of(alloc, text)? {
            self.take(rt, alloc, field, report)?;
        }
        self.end_case(rt, alloc, report)
    }

    // The next field of the file.
    fn take<R: Threads + Wait + Sync>(
        &mut self,
        rt: &R,
        alloc: Global,
        field: Field<'a>,
        report: &mut String,
    ) -> Result<(), Refused> {
        match field.key {
            Key::Section => {
                self.end_case(rt, alloc, report)?;
                self.fields.shared.clear();
                self.place = Place::Section;
                Ok(())
            }
            Key::Case => {
                self.end_case(rt, alloc, report)?;
                self.begin_case(&field)
            }
            Key::Text => self.name(alloc, &field),
            _ => self.add(field),
        }
    }

    fn begin_case(&mut self, field: &Field<'a>) -> Result<(), Refused> {
        if self.place == Place::Nowhere {
            return Err(field.refused(Cause::NoSection));
        }
        self.place = Place::Case;
        self.line = field.line;
        self.title = field.first();
        Ok(())
    }

    // A text under a name.
    fn name(&mut self, alloc: Global, field: &Field<'_>) -> Result<(), Refused> {
        let name = field.name.as_bytes();
        if self.names.find(name).is_some() {
            return Err(field.refused(Cause::Twice));
        }
        let bytes = text_of(alloc, &self.names, &field.lines, field.line)?;
        self.names.add(name.to_vec(alloc)?, bytes)?;
        Ok(())
    }

    // A field of the section or of the case.
    fn add(&mut self, field: Field<'a>) -> Result<(), Refused> {
        match self.place {
            Place::Nowhere => Err(field.refused(Cause::NoSection)),
            Place::Section => push_once(&mut self.fields.shared, field),
            Place::Case => push_once(&mut self.fields.own, field),
        }
    }

    // Tries the case whose fields are all there, if one is begun.
    fn end_case<R: Threads + Wait + Sync>(
        &mut self,
        rt: &R,
        alloc: Global,
        report: &mut String,
    ) -> Result<(), Refused> {
        if self.place == Place::Case {
            let is_met = self.is_met(rt, alloc, report)?;
            self.counts.cases = self.counts.cases.saturating_add(1);
            if !is_met {
                self.counts.failed = self.counts.failed.saturating_add(1);
            }
            self.place = Place::Section;
        }
        self.fields.own.clear();
        Ok(())
    }

    // Whether the case is as it has to be, with each of its values.
    fn is_met<R: Threads + Wait + Sync>(
        &mut self,
        rt: &R,
        alloc: Global,
        report: &mut String,
    ) -> Result<bool, Refused> {
        let (values, line) = match self.fields.find(Key::Each, "") {
            Some(field) => (field.first(), field.line),
            None => ("", 0),
        };
        for value in values.split(' ') {
            let each = part_of(alloc, &self.names, value, Space::Itself, line)?;
            self.names.set_each(each);
            if !self.is_met_with_value(rt, alloc, report)? {
                return Ok(false);
            }
        }
        Ok(true)
    }

    // The same with one value.
    fn is_met_with_value<R: Threads + Wait + Sync>(
        &mut self,
        rt: &R,
        alloc: Global,
        report: &mut String,
    ) -> Result<bool, Refused> {
        let bytes = self.words_of(alloc)?;
        let words = self.split(alloc, &bytes)?;
        self.is_met_with_words(rt, alloc, &words, report)
    }

    // The same with these words.
    fn is_met_with_words<R: Threads + Wait + Sync>(
        &mut self,
        rt: &R,
        alloc: Global,
        words: &[&str],
        report: &mut String,
    ) -> Result<bool, Refused> {
        let sizes = sizes_of(alloc, &self.fields, words)?;
        let is_met = self.is_met_in_sizes(rt, alloc, words, &sizes, report);
        sizes.let_go();
        is_met
    }

    // The same in these sizes.
    fn is_met_in_sizes<R: Threads + Wait + Sync>(
        &mut self,
        rt: &R,
        alloc: Global,
        words: &[&str],
        sizes: &Sizes<'_>,
        report: &mut String,
    ) -> Result<bool, Refused> {
        let wanted = wanted_of(alloc, &self.names, &self.fields)?;
        let is_met = self.is_met_as_wanted(rt, alloc, words, sizes, &wanted, report);
        wanted.let_go();
        is_met
    }

    fn is_met_as_wanted<R: Threads + Wait + Sync>(
        &mut self,
        rt: &R,
        alloc: Global,
        words: &[&str],
        sizes: &Sizes<'_>,
        wanted: &Wanted,
        report: &mut String,
    ) -> Result<bool, Refused> {
        for size in 0..sizes.tasks.len() {
            if !self.is_met_in_tasks(rt, alloc, words, sizes, size, wanted, report)? {
                return Ok(false);
            }
        }
        Ok(true)
    }

    // The words of the case, with a byte between that no word has.
    fn words_of(&self, alloc: Global) -> Result<Vec<u8>, Refused> {
        let Some(field) = self.fields.find(Key::Words, "") else {
            return Err(self.refused(Cause::NoWords));
        };
        part_of(
            alloc,
            &self.names,
            field.first(),
            Space::Between,
            field.line,
        )
    }

    fn split<'b>(&self, alloc: Global, bytes: &'b [u8]) -> Result<Vec<&'b str>, Refused> {
        let mut words = Vec::new(alloc);
        for part in bytes.split(|byte| *byte == BETWEEN) {
            match str::from_utf8(part) {
                Ok(word) => words.push(word)?,
                Err(_) => return Err(self.refused(Cause::NotUtf8)),
            }
        }
        Ok(words)
    }

    fn refused(&self, cause: Cause) -> Refused {
        Refused::At {
            line: self.line,
            cause,
        }
    }

    // The same in tasks of one size, on each ring, by each number of threads.
    fn is_met_in_tasks<R: Threads + Wait + Sync>(
        &mut self,
        rt: &R,
        alloc: Global,
        words: &[&str],
        sizes: &Sizes<'_>,
        size: usize,
        wanted: &Wanted,
        report: &mut String,
    ) -> Result<bool, Refused> {
        let Some(task) = sizes.tasks.get(size) else {
            return Ok(true);
        };
        for ring in sizes.rings.iter() {
            for threads in sizes.threads.iter() {
                let all = with_sizes(alloc, words, *task, *ring, *threads)?;
                if !self.is_met_with_cuts(rt, alloc, &all, sizes, size, wanted, report)? {
                    return Ok(false);
                }
            }
        }
        Ok(true)
    }

    // The same with reads of each size.
    fn is_met_with_cuts<R: Threads + Wait + Sync>(
        &mut self,
        rt: &R,
        alloc: Global,
        words: &[&str],
        sizes: &Sizes<'_>,
        size: usize,
        wanted: &Wanted,
        report: &mut String,
    ) -> Result<bool, Refused> {
        for cut in sizes.cuts.iter() {
            if !self.is_met_by_run(rt, alloc, words, *cut, size, wanted, report)? {
                return Ok(false);
            }
        }
        Ok(true)
    }

    // The same in one run.
    fn is_met_by_run<R: Threads + Wait + Sync>(
        &mut self,
        rt: &R,
        alloc: Global,
        words: &[&str],
        cut: u64,
        size: usize,
        wanted: &Wanted,
        report: &mut String,
    ) -> Result<bool, Refused> {
        let seen = run_once(rt, alloc, &self.names, &self.fields, words, cut)?;
        self.counts.runs = self.counts.runs.saturating_add(1);
        let is_met = wanted.is_met(&seen, size);
        let told = if is_met {
            Ok(())
        } else {
            self.tell(words, cut, &seen, size, wanted, report)
        };
        seen.let_go();
        match told {
            Ok(()) => Ok(is_met),
            Err(_) => Err(Refused::NoMemory),
        }
    }

    // Writes the line of a run that isn't as it has to be.
    fn tell(
        &self,
        words: &[&str],
        cut: u64,
        seen: &Seen,
        size: usize,
        wanted: &Wanted,
        report: &mut String,
    ) -> Result<(), AllocError> {
        write!(report, "{} line {}: {}:", self.file, self.line, self.title)?;
        tell_words(words, report)?;
        tell_cut(cut, report)?;
        wanted.tell(seen, size, report)?;
        report.push('\n')?;
        Ok(())
    }
}

// How many bytes a read gives, where that is limited.
fn tell_cut(cut: u64, report: &mut String) -> Result<(), AllocError> {
    if cut > 0 {
        write!(report, ", by reads of {cut}")?;
    }
    Ok(())
}

fn tell_words(words: &[&str], report: &mut String) -> Result<(), AllocError> {
    for word in words {
        write!(report, " {word}")?;
    }
    Ok(())
}

// One field more, of which there is none yet.
fn push_once<'a>(fields: &mut Vec<Field<'a>>, field: Field<'a>) -> Result<(), Refused> {
    if find(fields, field.key, field.name).is_some() {
        return Err(field.refused(Cause::Twice));
    }
    fields.push(field)?;
    Ok(())
}
