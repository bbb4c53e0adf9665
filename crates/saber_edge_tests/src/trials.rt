// Files of cases that hold, that fail, and that are refused.
use saber_trials::try_cases;
use std::alloc::Global;
use std::process::Abort;
use std::sync::Wait;
use std::test::Fail;
use std::thread::Threads;

// What came of the cases: how many failed, of how many runs, and what is told of them.
fn tried<R: Threads + Wait + Sync>(rt: &R, alloc: Global, text: &str) -> Result<String, Fail> {
    let mut report = String::new(alloc);
    match try_cases(rt, alloc, "f", text, &mut report) {
        Ok(counts) => Ok(format!(in alloc;
            "{} of {} <{}>",
            counts.failed,
            counts.runs,
            report.trim_end()
        )?),
        Err(refused) => Ok(format!(in alloc; "{refused}")?),
    }
}

// The lines of a text, of which each `/` begins another one.
fn lines_of(alloc: Global, front: &str, text: &str) -> Result<String, Fail> {
    let mut lines = String::from_str(alloc, front)?;
    for line in text.split('/') {
        lines.push_str(line)?;
        lines.push('\n')?;
    }
    Ok(lines)
}

fn check_row<R: Abort + Threads + Wait + Sync>(
    rt: &R,
    alloc: Global,
    front: &str,
    row: &str,
) -> Result<(), Fail> {
    let Some((text, wanted)) = row.split_once('|') else {
        panic!(rt; "a row without a bar");
    };
    let lines = lines_of(alloc, front, text)?;
    let found = tried(rt, alloc, &lines)?;
    assert!(rt; found.as_str() == wanted, "{found}, and not {wanted}");
    Ok(())
}

const FRONT: &str = "\
# Counts.
text rows:
  0,1
  1,2\\

section: counts
words: saber run q l
file q: STREAM S(t,g); SELECT COUNT(*) FROM S [ROWS 2 SLIDE 2]
file l: \\<rows>
task sizes: 1 2
ring sizes: 4
threads: 0
cut sizes: -

case: all
";

// What a case wants, and behind the bar what comes of it.
const CASES: &str = "\
out: 0,2|0 of 2 <>
out: 0,2/tasks: 2 1|0 of 2 <>
out ends: ,2|0 of 2 <>
out: 0,3|1 of 1 <f line 15: all: saber run q l --task 1 --ring 4 --threads 0; out \"0,2\\n\", wanted \"0,3\\n\">
out: 0,2/tasks: 2|1 of 2 <f line 15: all: saber run q l --task 2 --ring 4 --threads 0; tasks 1, wanted 2>
file l: 0/note: saber: left line 1: field count|1 of 1 <f line 15: all: saber run q l --task 1 --ring 4 --threads 0; status 4, wanted 0; noted Whole, wanted Nothing>
out: 0,2/gate: hold 0 1/limit: 9/late: yes|0 of 2 <>
out: 0,2/gate: hold 1 0/limit: 9/late: no|0 of 2 <>
out: 0,2/gate: order 1 0/limit: 9|1 of 1 <f line 15: all: saber run q l --task 1 --ring 4 --threads 0; late, wanted in time>
each: 0,1 \\x78/file l: \\{2 \\<each>\\n}\\/out: 0,2|1 of 3 <f line 15: all: saber run q l --task 1 --ring 4 --threads 0; status 4, wanted 0; note \"saber: left line 1: field count\\n\", wanted \"\"; out \"\", wanted \"0,2\\n\"; noted Whole, wanted Nothing>
";

#[test]
fn cases(rt: HostRuntime) -> Result<(), Fail> {
    for row in CASES.lines() {
        check_row(&rt, rt.alloc(), FRONT, row)?;
    }
    Ok(())
}

// A file, and behind the bar why it is refused.
const REFUSED: &str = "\
section|line 1: no colon
/queries: 1|line 2: unknown field
section: a/out: 1/out: 1|line 3: field given twice
text a: 1/text a: 2|line 2: field given twice
# a/  0,1|line 2: indented line without a field
out: 1|line 1: field before the first section
case: 1|line 1: field before the first section
text a: \\q|line 1: bad escape
text a: \\x7g|line 1: bad escape
text a: \\<b>|line 1: unknown text
text a: \\{2 b|line 1: repetition or name not closed
text a: \\<b|line 1: repetition or name not closed
text a: \\{2000001 b}|line 1: bad number
section: a/case: b/out: 1|line 2: no words
section: a/words: \\xfe//case: b|line 4: not UTF-8
section: a/words: \\xff//case: b|line 2: not UTF-8
section: a/words: s/cuts of l: 0/file l: 1/case: b|line 3: bad number
section: a/words: s/status: x/case: b|line 3: bad number
section: a/words: s/failing write: 1/case: b|line 3: bad number
section: a/words: s/gate: open/case: b|line 3: unknown word
section: a/words: s/gate: hold 0/case: b|line 3: bad number
section: a/words: s/gate: order 0 x/case: b|line 3: bad number
section: a/words: s/gate: order 0 0 0 0 0 0 0 0 0 0 0 0 0 0 0 0 0 0 0 0 0 0 0 0 0 0 0 0 0 0 0 0 0 0 0 0 0 0 0 0 0 0 0 0 0 0 0 0 0 0 0 0 0 0 0 0 0 0 0 0 0 0 0 0 0/case: b|line 3: order of more than 64 tasks
section: a/words: s/late: perhaps/case: b|line 3: unknown word
";

#[test]
fn refused_files(rt: HostRuntime) -> Result<(), Fail> {
    for row in REFUSED.lines() {
        check_row(&rt, rt.alloc(), "", row)?;
    }
    Ok(())
}
