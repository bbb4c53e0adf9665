// Lines of text in a buffer of a fixed size.
use arrayvec::ArrayString;
use itoa::Buffer;

/// A line that is being written. Its bytes lie in the value, so it takes no memory.
#[derive(Drop)]
pub(crate) struct Line {
    text: ArrayString<128>,
}

impl Line {
    ghost use Rattle.std.specs.Prelude.{◌≡◌, ◌≤◌, ◌+◌, ◌++◌, [], length, decimal};
    ghost use Rattle.saber_notes.specs.Lines.{bytes_of};

    /// Nothing is written yet.
    pub(crate) fn new() -> Line
        ensures { bytes_of result ≡ [] }
    {
        Line {
            text: ArrayString::new(),
        }
    }

    /// A text behind what is there.
    pub(crate) fn add(&mut self, text: &str)
        requires { length (bytes_of self.old) + length text.now ≤ 128 }
        ensures { bytes_of self.new ≡ bytes_of self.old ++ text.now }
    {
        self.text.push_str(text);
    }

    /// A number in decimal behind what is there.
    pub(crate) fn add_number(&mut self, number: u64)
        requires { length (bytes_of self.old) ≤ 108 }
        ensures bytes { bytes_of self.new ≡ bytes_of self.old ++ decimal number }
        ensures short { length (bytes_of self.new) ≤ length (bytes_of self.old) + 20 }
    {
        let mut digits = Buffer::new();
        self.text.push_str(digits.format(number));
    }

    /// What is written, as a text.
    pub(crate) fn as_str(&self) -> &str
        ensures { result.now ≡ bytes_of self.now }
    {
        self.text.as_str()
    }

    /// What is written.
    pub(crate) fn as_bytes(&self) -> &[u8]
        ensures { result.now ≡ bytes_of self.now }
    {
        self.text.as_str().as_bytes()
    }
}
