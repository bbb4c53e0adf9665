// Words that the system can't hand over.
use crate::texts::assert_text;
use saber_cli::{WordsFault, refuse_words};
use saber_io::MemSink;
use std::alloc::Global;
use std::process::Abort;
use std::test::Fail;

// The status and the note of a call whose words were not handed over.
fn check_refused(
    rt: &impl Abort,
    alloc: Global,
    fault: WordsFault,
    status: u8,
    note: &str,
) -> Result<(), Fail> {
    let mut notes = MemSink::new(alloc, Vec::new(alloc));
    let refused = refuse_words(fault, &mut notes);
    assert!(rt; refused.status == status);
    assert_text(rt, notes.bytes().to_vec(alloc)?, note);
    Ok(())
}

#[test]
fn no_words(rt: HostRuntime) -> Result<(), Fail> {
    let alloc = rt.alloc();
    let usage = "saber: usage: saber run QUERY LEFT [RIGHT] | check QUERY | demo SEED ROWS;";
    check_refused(&rt, alloc, WordsFault::Usage, 2, usage)?;
    check_refused(&rt, alloc, WordsFault::NoMemory, 8, "saber: out of memory;")
}
