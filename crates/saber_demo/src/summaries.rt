// The summary of a text.
ghost use Rattle.std.specs.Prelude.{◌≡◌, ◌++◌, IfOk, OnOk, length, codes};
ghost use Rattle.saber_plan.specs.Rows.{lines_of};
ghost use Rattle.saber_demo.specs.Feeds.{IsBehindFeeds};
ghost use Rattle.saber_demo.specs.Summary.{entry, feeds, last_content, summary};

use saber_digits::write_count;
use saber_plan::NoMemory;
use std::alloc::Global;

// How many line feeds a text has.
fn feeds(text: &[u8]) -> usize
    ensures { result ≡ feeds text.now }
{
    text.iter().filter(|b| **b == b'\n').count()
}

// What stands behind the last line feed.
fn behind_feeds(text: &[u8]) -> &[u8]
    ensures { IsBehindFeeds text.now result.now }
{
    let mut start = text.len();
    while start > 0 {
        if text[start - 1] == b'\n' {
            return &text[start..];
        }
        start -= 1;
    }
    text
}

// The last line without its line feed; `-` where there is none.
fn last_line(text: &[u8]) -> &[u8]
    ensures { result.now ≡ last_content (lines_of text.now) }
{
    match text.split_last() {
        None => b"-",
        Some((last, before)) => {
            if *last == b'\n' {
                behind_feeds(before)
            } else {
                behind_feeds(text)
            }
        }
    }
}

// A name, a number, and LF.
fn add_entry(out: &mut Vec<u8>, name: &str, number: u64) -> Result<(), NoMemory>
    ensures { OnOk result (out.new.items ≡ out.old.items ++ entry name.now number) }
{
    out.extend_from_slice(name.as_bytes())?;
    write_count(out, number)?;
    out.push(b'\n')?;
    Ok(())
}

/// Four lines on a text that so many rows gave: `rows`, `lines` and `bytes` with a number, and
/// `last` with the last line, or `-`.
pub fn summary(alloc: Global, rows: u64, text: &[u8]) -> Result<Vec<u8>, NoMemory>
    ensures { IfOk result (λ out. out.items ≡ summary rows text.now) }
{
    let mut out = Vec::new(alloc);
    add_entry(&mut out, "rows ", rows)?;
    add_entry(&mut out, "lines ", feeds(text) as u64)?;
    add_entry(&mut out, "bytes ", text.len() as u64)?;
    out.extend_from_slice(b"last ")?;
    out.extend_from_slice(last_line(text))?;
    out.push(b'\n')?;
    Ok(out)
}
