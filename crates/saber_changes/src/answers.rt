// The answers of one window.
ghost use Rattle.std.specs.Prelude.{◌≡◌, ◌++◌, OnOk};
ghost use Rattle.saber_changes.specs.Spans.{Grown};

use crate::rising::comes_before;
use saber_plan::NoMemory;
use std::alloc::Global;
use std::marker::Model;

/// The answers of one window, each a line without the window's number, seen as their list. Their
/// numbers lie one behind another in one list, so that a line takes no memory of its own.
#[derive(Drop)]
pub struct Answers {
    numbers: Vec<i128>,
    // where each line begins, and where it ends
    spans: Vec<(usize, usize)>,
    // whether no line is below one before it
    rising: bool,
}

impl Model for Answers {
    ghost use Rattle.std.specs.Prelude.{◌≡◌, true};
    ghost use Rattle.saber_plan.specs.Answers as a;
    ghost use Rattle.saber_changes.specs.Spans.{lines_in, AreWithin};
    ghost use Rattle.saber_changes.specs.Rising.{Rises};

    ghost Value = { a.Answers };

    ghost view = { λ v. lines_in v.numbers.items v.spans.items };

    ghost invariant = { λ v. AreWithin v.numbers.items v.spans.items × (v.rising ≡ true → Rises (lines_in v.numbers.items v.spans.items)) };
}

// Appends a line's numbers one by one: a line is short.
#[inline(always)]
fn put_numbers(numbers: &mut Vec<i128>, line: &[i128]) -> Result<(), NoMemory>
    ensures ok { OnOk result (numbers.new.items ≡ numbers.old.items ++ line.now) }
    ensures grown { Grown numbers.old.items numbers.new.items }
{
    for number in line {
        numbers.push(*number)?;
    }
    Ok(())
}

impl Answers {
    ghost use Rattle.std.specs.Prelude.{◌≡◌, ◌<◌, [], ◌∷◌, ◌++◌, length, get_or, List, ℤ, true, IfOk, OnOk, OnErr};
    ghost use Rattle.saber_changes.specs.Rising.{Rises};

    /// None yet. Takes no memory.
    pub fn new(alloc: Global) -> Answers
        ensures { result ≡ [] }
    {
        Answers {
            numbers: Vec::new(alloc),
            spans: Vec::new(alloc),
            rising: true,
        }
    }

    /// None yet, and room for so many lines of so many numbers each.
    pub fn with_room(alloc: Global, lines: usize, width: usize) -> Result<Answers, NoMemory>
        ensures { IfOk result (λ a. a ≡ []) }
    {
        Ok(Answers {
            numbers: Vec::with_capacity(alloc, lines.saturating_mul(width))?,
            spans: Vec::with_capacity(alloc, lines)?,
            rising: true,
        })
    }

    /// How many there are.
    #[inline]
    pub(crate) fn len(&self) -> usize
        ensures { result ≡ length self.now }
    {
        self.spans.len()
    }

    /// One of them.
    #[inline]
    pub(crate) fn line(&self, i: usize) -> &[i128]
        requires { i < length self.now }
        ensures { (d : List ℤ) → result.now ≡ get_or self.now i d }
    {
        let (start, end) = self.spans[i];
        &self.numbers[start..end]
    }

    /// Whether no line is known to be below one before it.
    #[inline]
    pub(crate) fn rise(&self) -> bool
        ensures { result ≡ true → Rises self.now }
    {
        self.rising
    }

    // Whether a line behind all others isn't below one of them, if none of them is below one before
    // it.
    #[inline]
    fn goes_on(&self, line: &[i128]) -> bool
        ensures { result ≡ true → Rises (self.now ++ line.now ∷ []) }
    {
        if !self.rising {
            return false;
        }
        let count = self.len();
        count == 0 || !comes_before(line, self.line(count - 1))
    }

    /// One answer more, behind the others.
    #[inline]
    pub fn push(&mut self, line: &[i128]) -> Result<(), NoMemory>
        ensures ok { OnOk result (self.new ≡ self.old ++ line.now ∷ []) }
        ensures err { OnErr result (self.new ≡ self.old) }
    {
        let rising = self.goes_on(line);
        let start = self.numbers.len();
        put_numbers(&mut self.numbers, line)?;
        self.spans.push((start, self.numbers.len()))?;
        self.rising = rising;
        Ok(())
    }
}
