//! The program that tries files of cases, which the words name; `data/` has them.
//! It prints a line for each case that fails and for each file that is refused, and at last how
//! many cases and runs there were. The status is 0 where none failed and no file was refused.
//!
//! - Call: `main` takes the runtime; `try_cases` of `saber_trials` does the work, file by file.
//! - Proved: that it is safe, and no more.
//! - Tested: `args` names the files of `data/`, and `stdout` has the line of counts, so that it
//!   changes with each new case. The gate makes this run with two compilers; docs/CASES.md has the
//!   format.
#![tactic(auto)]

use saber_trials::{Counts, try_cases};
use std::alloc::Global;
use std::process::ExitCode;
use std::rt::{Env, Files};
use std::sync::Wait;
use std::thread::Threads;
use std::{env, fs, io};

// What was tried so far.
#[derive(Clone, Copy)]
struct Sums {
    cases: u64,
    runs: u64,
    failed: u64,
}

impl Sums {
    fn add(&mut self, counts: Counts) {
        self.cases = self.cases.saturating_add(counts.cases);
        self.runs = self.runs.saturating_add(counts.runs);
        self.failed = self.failed.saturating_add(counts.failed);
    }
}

// Tries the cases of one file.
fn try_file<R: Threads + Wait + Sync>(
    rt: &R,
    alloc: Global,
    file: &str,
    text: &str,
    sums: &mut Sums,
) -> io::Result<String> {
    let mut report = String::new(alloc);
    match try_cases(rt, alloc, file, text, &mut report) {
        Ok(counts) => sums.add(counts),
        Err(refused) => {
            sums.failed = sums.failed.saturating_add(1);
            writeln!(&mut report, "{file} {refused}")?;
        }
    }
    Ok(report)
}

// Tries the files that the words name, and prints what is told of them.
fn try_all<R: Env + Files + Print + AllocGlobal + Threads + Wait + Sync>(
    rt: &R,
    alloc: Global,
) -> io::Result<Sums> {
    let mut sums = Sums {
        cases: 0,
        runs: 0,
        failed: 0,
    };
    let mut is_name = false;
    for file in env::args(rt)? {
        if is_name {
            let text = fs::read_to_string(rt, file.as_str())?;
            let report = try_file(rt, alloc, file.as_str(), text.as_str(), &mut sums)?;
            print!(rt; "{report}")?;
        }
        is_name = true;
    }
    Ok(sums)
}

fn main(rt: HostRuntime) -> io::Result<ExitCode> {
    let sums = try_all(&rt, rt.alloc())?;
    let Sums {
        cases,
        runs,
        failed,
    } = sums;
    println!(rt; "{cases} cases in {runs} runs, {failed} failed")?;
    if failed == 0 {
        Ok(ExitCode::SUCCESS)
    } else {
        Ok(ExitCode::FAILURE)
    }
}
