// What a text of a file of cases says, byte by byte: its escapes, its repetitions and the texts
// that it names.
use crate::names::Names;
use crate::refusals::{Cause, Refused};
use std::alloc::Global;
use std::mem;

// Stands between two words, of which no UTF-8 has such a byte.
pub(crate) const BETWEEN: u8 = 255;

// The most times that a part is repeated.
const MOST: u64 = 2_000_000;

// What a space means.
#[derive(Clone, Copy, PartialEq, Eq)]
pub(crate) enum Space {
    Itself,
    Between,
}

// What came before the next byte.
#[derive(Clone, Copy, PartialEq, Eq)]
enum State {
    Plain,
    // behind a `\`
    Escape,
    // behind `\x`, and behind its first digit
    High,
    Low(u8),
    // behind `\{` and some digits
    Times(u64),
    // behind `\<` and some of the name
    Name,
    // behind `>`
    Named,
}

// A part that is repeated: how often, and what stands before it.
#[derive(Drop)]
struct Part {
    times: u64,
    before: Vec<u8>,
}

#[derive(Drop)]
struct Writer {
    out: Vec<u8>,
    parts: Vec<Part>,
    name: Vec<u8>,
    state: State,
    space: Space,
    line: u64,
}

impl Writer {
    fn new(alloc: Global, space: Space, line: u64) -> Writer {
        Writer {
            out: Vec::new(alloc),
            parts: Vec::new(alloc),
            name: Vec::new(alloc),
            state: State::Plain,
            space,
            line,
        }
    }

    fn refused(&self, cause: Cause) -> Refused {
        Refused::At {
            line: self.line,
            cause,
        }
    }

    fn put(&mut self, byte: u8) -> Result<(), Refused> {
        self.out.push(byte)?;
        self.state = State::Plain;
        Ok(())
    }

    // The next byte of a line.
    fn take(&mut self, alloc: Global, names: &Names, byte: u8) -> Result<(), Refused> {
        match self.state {
            State::Plain | State::Named => self.plain(byte),
            State::Escape => self.escaped(byte),
            State::High => self.high(byte),
            State::Low(high) => self.low(high, byte),
            State::Times(times) => self.times(alloc, times, byte),
            State::Name => self.name(alloc, names, byte),
        }
    }

    fn plain(&mut self, byte: u8) -> Result<(), Refused> {
        match byte {
            b'\\' => {
                self.state = State::Escape;
                Ok(())
            }
            b'}' => self.close(),
            b' ' if self.space == Space::Between => self.put(BETWEEN),
            _ => self.put(byte),
        }
    }

    // The end of a repeated part; elsewhere a `}` is itself.
    fn close(&mut self) -> Result<(), Refused> {
        let Some(Part { times, before }) = self.parts.pop() else {
            return self.put(b'}');
        };
        let part = mem::replace(&mut self.out, before);
        for _ in 0..times {
            self.out.extend_from_slice(&part)?;
        }
        self.state = State::Plain;
        Ok(())
    }

    fn escaped(&mut self, byte: u8) -> Result<(), Refused> {
        match byte {
            b'n' => self.put(b'\n'),
            b'r' => self.put(b'\r'),
            b't' => self.put(b'\t'),
            b'0' => self.put(0),
            b's' => self.put(b' '),
            b'\\' | b'}' => self.put(byte),
            b'-' => {
                self.state = State::Plain;
                Ok(())
            }
            b'x' => {
                self.state = State::High;
                Ok(())
            }
            b'{' => {
                self.state = State::Times(0);
                Ok(())
            }
            b'<' => {
                self.name.clear();
                self.state = State::Name;
                Ok(())
            }
            _ => Err(self.refused(Cause::BadEscape)),
        }
    }

    fn high(&mut self, byte: u8) -> Result<(), Refused> {
        let Some(digit) = hex(byte) else {
            return Err(self.refused(Cause::BadEscape));
        };
        self.state = State::Low(digit);
        Ok(())
    }

    fn low(&mut self, high: u8, byte: u8) -> Result<(), Refused> {
        let Some(digit) = hex(byte) else {
            return Err(self.refused(Cause::BadEscape));
        };
        let value = high.wrapping_mul(16).wrapping_add(digit);
        if self.space == Space::Between && value == BETWEEN {
            return Err(self.refused(Cause::NotUtf8));
        }
        self.put(value)
    }

    // A digit of the count, or the space behind it.
    fn times(&mut self, alloc: Global, times: u64, byte: u8) -> Result<(), Refused> {
        match byte {
            b'0'..=b'9' => {
                let more = times
                    .saturating_mul(10)
                    .saturating_add(u64::from(byte - b'0'));
                self.state = State::Times(more);
                Ok(())
            }
            b' ' if times <= MOST => {
                let before = mem::replace(&mut self.out, Vec::new(alloc));
                self.parts.push(Part { times, before })?;
                self.state = State::Plain;
                Ok(())
            }
            _ => Err(self.refused(Cause::BadNumber)),
        }
    }

    // A byte of a text's name, or the `>` behind it.
    fn name(&mut self, alloc: Global, names: &Names, byte: u8) -> Result<(), Refused> {
        if byte != b'>' {
            self.name.push(byte)?;
            return Ok(());
        }
        let name = mem::replace(&mut self.name, Vec::new(alloc));
        let Some(text) = names.find(&name) else {
            return Err(self.refused(Cause::UnknownText));
        };
        if self.space == Space::Between && text.contains(&BETWEEN) {
            return Err(self.refused(Cause::NotUtf8));
        }
        self.out.extend_from_slice(text)?;
        self.state = State::Named;
        Ok(())
    }

    // The end of a line: an LF, but where the line ends with a `\` or with the name of a text.
    fn end_line(&mut self) -> Result<(), Refused> {
        match self.state {
            State::Plain => self.put(b'\n'),
            State::Escape | State::Named => {
                self.state = State::Plain;
                Ok(())
            }
            State::Name | State::Times(_) => Err(self.refused(Cause::Unclosed)),
            State::High | State::Low(_) => Err(self.refused(Cause::BadEscape)),
        }
    }

    // What was written, where nothing is open.
    fn end(self) -> Result<Vec<u8>, Refused> {
        let is_whole = self.parts.is_empty()
            && (self.state == State::Plain || self.state == State::Named);
        if !is_whole {
            return Err(self.refused(Cause::Unclosed));
        }
        Ok(self.out)
    }
}

fn hex(byte: u8) -> Option<u8> {
    match byte {
        b'0'..=b'9' => Some(byte - b'0'),
        b'a'..=b'f' => Some(byte - b'a' + 10),
        _ => None,
    }
}

/// What these lines say, each with its LF.
pub(crate) fn text_of(
    alloc: Global,
    names: &Names,
    lines: &[&str],
    line: u64,
) -> Result<Vec<u8>, Refused> {
    let mut writer = Writer::new(alloc, Space::Itself, line);
    for text in lines {
        for byte in text.bytes() {
            writer.take(alloc, names, byte)?;
        }
        writer.end_line()?;
    }
    writer.end()
}

/// What a part of a line says.
pub(crate) fn part_of(
    alloc: Global,
    names: &Names,
    text: &str,
    space: Space,
    line: u64,
) -> Result<Vec<u8>, Refused> {
    let mut writer = Writer::new(alloc, space, line);
    for byte in text.bytes() {
        writer.take(alloc, names, byte)?;
    }
    writer.end()
}
