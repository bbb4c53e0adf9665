// Texts that stand under a name.
use std::alloc::{AllocError, Global};

/// A text and its name.
#[derive(Drop)]
struct Named {
    name: Vec<u8>,
    bytes: Vec<u8>,
}

/// The texts that were named so far, and the value that a case is tried with, whose name is `each`.
#[derive(Drop)]
pub(crate) struct Names {
    texts: Vec<Named>,
    each: Vec<u8>,
}

impl Names {
    /// No text yet.
    pub(crate) fn new(alloc: Global) -> Names {
        Names {
            texts: Vec::new(alloc),
            each: Vec::new(alloc),
        }
    }

    /// Gives a text this name, which none has yet.
    pub(crate) fn add(&mut self, name: Vec<u8>, bytes: Vec<u8>) -> Result<(), AllocError> {
        self.texts.push(Named { name, bytes })?;
        Ok(())
    }

    /// From now on `each` is this text.
    pub(crate) fn set_each(&mut self, bytes: Vec<u8>) {
        self.each = bytes;
    }

    /// The text of this name.
    pub(crate) fn find(&self, name: &[u8]) -> Option<&[u8]> {
        if name == b"each".as_slice() {
            return Some(self.each.as_slice());
        }
        for named in self.texts.iter() {
            if named.name.as_slice() == name {
                return Some(named.bytes.as_slice());
            }
        }
        None
    }
}
