// Tables are texts, a row a line, with bars between its parts. In a part that is a file, ; stands
// for a line end.
use std::process::Abort;

// What stands before and behind a sign.
pub(crate) fn cut<'a>(rt: &impl Abort, text: &'a str, sign: char) -> (&'a str, &'a str) {
    text.split_once(sign).expect(rt, text)
}

pub(crate) fn assert_same(rt: &impl Abort, found: &str, wanted: &str) {
    assert!(rt; found == wanted, "{found}, and not {wanted}");
}

// These bytes are the text of a table.
pub(crate) fn assert_text(rt: &impl Abort, mut out: Vec<u8>, wanted: &str) {
    for byte in out.iter_mut() {
        if *byte == b'\n' {
            *byte = b';';
        }
    }
    assert_same(rt, std::str::from_utf8(&out).unwrap_or("no text"), wanted);
}
