// Rows at the front of what is held, in one pass.
ghost use Rattle.std.specs.Prelude.{◌≡◌, ◌≤◌, ◌<◌, [], None, IfSome, length, take, get_or};
ghost use Rattle.saber_rows.specs.QuickRows.{EndDigits, EndsField, Begun, IsFeedBehind, IsRowAt, IsPut};

use crate::judge::{LONGEST, is_below, stamp_of};
use saber_flat::RowBuilder;
use saber_plan::{NoMemory, Side, Values};

/// Where the numbers of a row go, one after another.
pub(crate) trait Numbers {
    ghost use Rattle.std.specs.Prelude.{◌≡◌, ◌∷◌, [], ◌++◌, List, ℤ, OnOk};
    ghost use Rattle.saber_plan.specs.declared.rows.Row.{Row};

    /// Those that are there.
    ghost numbers: { Self → List ℤ };

    /// The rows before them, if there are any.
    ghost behind: { Self → List Row };

    /// One number more.
    fn put(&mut self, number: i64) -> Result<(), NoMemory>
        ensures number { OnOk result (numbers self.new ≡ numbers self.old ++ number ∷ []) }
        ensures behind { behind self.new ≡ behind self.old };
}

impl Numbers for Values {
    ghost use Rattle.std.specs.Prelude.{[]};

    ghost numbers = { λ values. values };

    ghost behind = { λ _. [] };

    #[inline(always)]
    fn put(&mut self, number: i64) -> Result<(), NoMemory> {
        self.push(number)
    }
}

impl Numbers for RowBuilder {
    ghost numbers = { λ rows. rows.begun };

    ghost behind = { λ rows. rows.rows };

    #[inline(always)]
    fn put(&mut self, number: i64) -> Result<(), NoMemory> {
        RowBuilder::put(self, number)
    }
}

// So many digits have 64 bits.
const MOST_DIGITS: usize = 18;

// The digits at the front, how many they are, and the byte behind them.
#[inline(always)]
fn digits_among(held: &[u8]) -> Option<(u64, usize, u8)>
    requires { length held.now ≤ 19 }
    ensures { IfSome result (λ r. EndDigits held.now r.0 r.1 r.2) }
{
    let mut size = 0u64;
    for i in 0..held.len() {
        let digit = u64::from(held[i]).wrapping_sub(48);
        if digit > 9 {
            return Some((size, i, held[i]));
        }
        size = size.wrapping_mul(10).wrapping_add(digit);
    }
    None
}

// Up to 18 digits at the front, how many they are, and the byte behind them. That the bytes which
// can be so are of a length that is known makes it fast.
#[inline(always)]
fn digits_in(held: &[u8]) -> Option<(u64, usize, u8)>
    ensures { IfSome result (λ r. EndDigits held.now r.0 r.1 r.2) }
{
    if held.len() > MOST_DIGITS {
        return digits_among(&held[..MOST_DIGITS + 1]);
    }
    digits_among(held)
}

// The number at the front of up to 18 digits, how many bytes it is, and the byte behind it. The
// first column is a time.
#[inline(always)]
fn field_in(held: &[u8], column: u32) -> Option<(i64, usize, u8)>
    ensures { IfSome result (λ r. EndsField held.now column r.0 r.1 r.2) }
{
    let (size, n, next) = digits_in(held)?;
    if n > 0 {
        return Some((size as i64, n, next));
    }
    if column == 1 || next != b'-' {
        return None;
    }
    let (size, n, next) = digits_in(&held[1..])?;
    if n == 0 {
        return None;
    }
    Some((-(size as i64), n + 1, next))
}

// Reads all fields but the last, with their commas, and answers how many bytes they are.
#[inline(always)]
fn fields_in<N: Numbers>(columns: u32, held: &[u8], out: &mut N) -> Option<usize>
    requires empty { N.numbers out.old ≡ [] }
    requires some { 1 ≤ columns }
    ensures within { IfSome result (λ n. n ≤ length held.now) }
    ensures begun { IfSome result (λ n. Begun (take n held.now) columns (N.numbers out.new)) }
    ensures behind { N.behind out.new ≡ N.behind out.old }
{
    let mut at = 0;
    for column in 1..columns {
        let (value, n, next) = field_in(&held[at..], column)?;
        if next != b',' || out.put(value).is_err() {
            return None;
        }
        at += n + 1;
    }
    Some(at)
}

// Where the line ends whose content ends here before this byte, if it does.
#[inline(always)]
fn feed_at(held: &[u8], end: usize, next: u8) -> Option<usize>
    requires inside { end < length held.now }
    requires next { next ≡ get_or held.now end 0 }
    ensures { IfSome result (λ n. IsFeedBehind held.now end n) }
{
    if next == b'\n' {
        return Some(end);
    }
    if next == b'\r' && end + 1 < held.len() && held[end + 1] == b'\n' {
        return Some(end + 1);
    }
    None
}

/// Reads a whole row at the front, and tells its length, if it is one that needs no second look:
/// without an error, and with at most 18 digits a field. Where it is not, some of its numbers may
/// be there.
#[inline(always)]
pub(crate) fn row_in<N: Numbers>(columns: u32, held: &[u8], out: &mut N) -> Option<usize>
    requires empty { N.numbers out.old ≡ [] }
    requires some { 1 ≤ columns }
    ensures row { IfSome result (IsRowAt columns held.now (N.numbers out.new)) }
    ensures behind { N.behind out.new ≡ N.behind out.old }
{
    let at = fields_in(columns, held, out)?;
    let (value, n, next) = field_in(&held[at..], columns)?;
    let end = at + n;
    if end > LONGEST || out.put(value).is_err() {
        return None;
    }
    feed_at(held, end, next)
}

/// Appends the row at the front, if it needs no second look and is not below this timestamp.
/// Answers its length, and its own timestamp. Where it is not, nothing is appended.
#[inline(always)]
pub(crate) fn put_row(
    side: Side,
    columns: u32,
    held: &[u8],
    high: Option<u64>,
    out: &mut RowBuilder,
) -> Option<(usize, u64)>
    requires begun { out.old.begun ≡ [] }
    requires some { 1 ≤ columns }
    ensures begun { out.new.begun ≡ [] }
    ensures none { result ≡ None → out.new.rows ≡ out.old.rows }
    ensures some { IfSome result (λ r. IsPut side columns held.now high out.old.rows out.new.rows r.0 r.1) }
{
    let Some(n) = row_in(columns, held, out) else {
        out.drop_begun();
        return None;
    };
    let stamp = stamp_of(out.begun());
    if is_below(high, stamp) || out.close(side).is_err() {
        out.drop_begun();
        return None;
    }
    Some((n, stamp))
}
