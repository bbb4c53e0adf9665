// What a task gives.
use saber_plan::NoMemory;
use std::alloc::Global;
use std::marker::Model;

/// Parts of windows, each with its window's number; the numbers rise. Seen as their list.
#[derive(Drop)]
pub struct Parts<P> {
    items: Vec<(u64, P)>,
}

impl<P> Model for Parts<P> {
    ghost use Rattle.std.specs.Prelude.{List, ℕ};

    ghost Value = { List (ℕ × P) };

    ghost view = { λ v. v.items.items };
}

impl<P: Drop> Parts<P> {
    ghost use Rattle.std.specs.Prelude.{◌≡◌, [], ◌∷◌, ◌++◌, OnOk, OnErr};

    /// No part yet. Takes no memory.
    pub fn new(alloc: Global) -> Parts<P>
        ensures { result ≡ [] }
    {
        Parts {
            items: Vec::new(alloc),
        }
    }

    /// The part of one window more, behind the others.
    pub fn push(&mut self, window: u64, part: P) -> Result<(), NoMemory>
        ensures ok { OnOk result (self.new ≡ self.old ++ (window, part) ∷ []) }
        ensures err { OnErr result (self.new ≡ self.old) }
    {
        self.items.push((window, part))?;
        Ok(())
    }

    /// The parts in order, given away.
    pub fn into_vec(self) -> Vec<(u64, P)>
        ensures { result.items ≡ self }
    {
        self.items
    }
}

/// Bytes that are printed, seen as their list.
#[derive(Drop)]
pub struct Text {
    bytes: Vec<u8>,
}

impl Model for Text {
    ghost use Rattle.std.specs.Prelude.{List, ℕ};

    ghost Value = { List ℕ };

    ghost view = { λ v. v.bytes.items };
}

impl Text {
    ghost use Rattle.std.specs.Prelude.{◌≡◌};

    /// These bytes.
    pub fn from_vec(bytes: Vec<u8>) -> Text
        ensures { result ≡ bytes.items }
    {
        Text { bytes }
    }

    /// The bytes in order.
    pub fn as_slice(&self) -> &[u8]
        ensures { result.now ≡ self.now }
    {
        &self.bytes
    }
}

/// What a task gives to its windows. A window without a passing row in the task has no part.
#[derive(Drop)]
pub struct Piece<P> {
    /// The parts of windows that earlier tasks began and this one closes.
    pub closing: Parts<P>,
    /// The text of the windows that lie whole in the task; of a selection, the text of its rows.
    pub complete_text: Text,
    /// The parts of windows that earlier tasks began and later ones close.
    pub pending: Parts<P>,
    /// The parts of windows that this task begins and later ones close.
    pub opening: Parts<P>,
    /// How many windows are closed behind the task.
    pub closed_below: u64,
}
