// Numbers written behind a text.
ghost use Rattle.std.specs.Prelude.{◌≡◌, ◌+◌, ◌/◌, ◌%◌, ◌<◌, ◌≤◌, [], ◌∷◌, ◌++◌, OnOk, decimal, drop};
ghost use Rattle.std.specs.Fmt.{signed_decimal};
ghost use Rattle.saber_plan.specs.Texts.{Behind};

use itoa::{Buffer, write_digits};
use saber_plan::NoMemory;

// The two digits of each number below 100.
static PAIRS: [u8; 200] =
    *b"00010203040506070809101112131415161718192021222324252627282930313233343536373839404142434445464748495051525354555657585960616263646566676869707172737475767778798081828384858687888990919293949596979899";

#[inline(always)]
pub(crate) fn pair(number: u64) -> (u8, u8)
    requires { number < 100 }
    ensures tens { result.0 ≡ 48 + number / 10 }
    ensures ones { result.1 ≡ 48 + number % 10 }
{
    let at = number as usize * 2;
    (PAIRS[at], PAIRS[at + 1])
}

// A comma, and a number of one digit.
#[inline(always)]
fn cell_of_one(number: u64) -> [u8; 2]
    requires { number < 10 }
    ensures { result ≡ 44 ∷ decimal number }
{
    [b',', b'0' + number as u8]
}

#[inline(always)]
fn cell_of_two(number: u64) -> [u8; 3]
    requires { (10 ≤ number) × (number < 100) }
    ensures { result ≡ 44 ∷ decimal number }
{
    let (tens, ones) = pair(number);
    [b',', tens, ones]
}

#[inline(always)]
fn cell_of_three(number: u64) -> [u8; 4]
    requires { (100 ≤ number) × (number < 1000) }
    ensures { result ≡ 44 ∷ decimal number }
{
    let (tens, ones) = pair(number % 100);
    [b',', b'0' + (number / 100) as u8, tens, ones]
}

#[inline(always)]
fn cell_of_four(number: u64) -> [u8; 5]
    requires { (1000 ≤ number) × (number < 10000) }
    ensures { result ≡ 44 ∷ decimal number }
{
    let (thousands, hundreds) = pair(number / 100);
    let (tens, ones) = pair(number % 100);
    [b',', thousands, hundreds, tens, ones]
}

// The last four digits of a number.
#[inline(always)]
fn last_four(number: u64) -> [u8; 4]
    ensures { result ≡ (48 + number % 10000 / 100 / 10) ∷ (48 + number % 10000 / 100 % 10)
        ∷ (48 + number % 10000 % 100 / 10) ∷ (48 + number % 10000 % 100 % 10) ∷ [] }
{
    let four = number % 10_000;
    let (thousands, hundreds) = pair(four / 100);
    let (tens, ones) = pair(four % 100);
    [thousands, hundreds, tens, ones]
}

// Whether a cell of up to four digits needs no more memory. Asked first, so that what writes one
// calls nothing.
#[inline(always)]
fn has_room(out: &Vec<u8>) -> bool {
    out.capacity() - out.len() >= 5
}

// Writes a number of any length.
#[inline(never)]
fn write_any(out: &mut Vec<u8>, count: u64) -> Result<(), NoMemory>
    ensures ok { OnOk result (out.new.items ≡ out.old.items ++ decimal count) }
    ensures behind { Behind out.old.items out.new.items }
{
    let mut digits = Buffer::new();
    out.extend_from_slice(digits.format(count).as_bytes())
}

// Writes a number of up to four digits, as most are, without a buffer.
#[inline]
fn write_four(out: &mut Vec<u8>, number: u64) -> Result<(), NoMemory>
    requires { number < 10000 }
    ensures ok { OnOk result (out.new.items ≡ out.old.items ++ decimal number) }
    ensures behind { Behind out.old.items out.new.items }
{
    if !has_room(out) {
        return write_any(out, number);
    }
    if number < 10 {
        return out.extend_from_slice(&cell_of_one(number)[1..]);
    }
    if number < 100 {
        return out.extend_from_slice(&cell_of_two(number)[1..]);
    }
    if number < 1000 {
        return out.extend_from_slice(&cell_of_three(number)[1..]);
    }
    out.extend_from_slice(&cell_of_four(number)[1..])
}

// Writes a number of more than four digits.
#[inline(never)]
fn write_long(out: &mut Vec<u8>, number: u64) -> Result<(), NoMemory>
    requires { 10000 ≤ number }
    ensures ok { OnOk result (out.new.items ≡ out.old.items ++ decimal number) }
    ensures behind { Behind out.old.items out.new.items }
{
    if number >= 100_000_000 {
        return write_any(out, number);
    }
    write_four(out, number / 10_000)?;
    out.extend_from_slice(&last_four(number))?;
    Ok(())
}

/// Writes a number in decimal behind what `out` has. After want of memory a part may be there.
#[inline]
pub fn write_number(out: &mut Vec<u8>, number: i128) -> Result<(), NoMemory>
    ensures ok { OnOk result (out.new.items ≡ out.old.items ++ signed_decimal number) }
    ensures behind { Behind out.old.items out.new.items }
{
    if let Ok(count) = u64::try_from(number) {
        return write_count(out, count);
    }
    write_wide(out, number)
}

// Writes a number that may be less than 0, or have more than 64 bits.
#[inline(never)]
fn write_wide(out: &mut Vec<u8>, number: i128) -> Result<(), NoMemory>
    ensures ok { OnOk result (out.new.items ≡ out.old.items ++ signed_decimal number) }
    ensures behind { Behind out.old.items out.new.items }
{
    let mut digits = Buffer::new();
    out.extend_from_slice(digits.format(number).as_bytes())
}

/// The same for a number that has no sign.
#[inline]
pub fn write_count(out: &mut Vec<u8>, count: u64) -> Result<(), NoMemory>
    ensures ok { OnOk result (out.new.items ≡ out.old.items ++ decimal count) }
    ensures behind { Behind out.old.items out.new.items }
{
    if count < 10_000 {
        return write_four(out, count);
    }
    write_long(out, count)
}

// Writes a number so that it ends with the cell, and returns where it starts.
#[inline]
fn write_short(cell: &mut [u8; 24], number: i64) -> usize
    ensures room { (1 ≤ result) × (result ≤ 24) }
    ensures written { drop result cell.new ≡ signed_decimal number }
{
    let start = write_digits(number.unsigned_abs(), cell, 24);
    if number >= 0 {
        return start;
    }
    cell[start - 1] = b'-';
    start - 1
}

// A comma and a number of 64 bits, in one piece.
#[inline]
fn write_short_cell(out: &mut Vec<u8>, number: i64) -> Result<(), NoMemory>
    ensures ok { OnOk result (out.new.items ≡ out.old.items ++ 44 ∷ signed_decimal number) }
    ensures behind { Behind out.old.items out.new.items }
{
    let mut cell = [0; 24];
    let start = write_short(&mut cell, number);
    cell[start - 1] = b',';
    out.extend_from_slice(&cell[start - 1..])
}

// A comma and any number.
#[inline(never)]
fn write_any_cell(out: &mut Vec<u8>, number: i128) -> Result<(), NoMemory>
    ensures ok { OnOk result (out.new.items ≡ out.old.items ++ 44 ∷ signed_decimal number) }
    ensures behind { Behind out.old.items out.new.items }
{
    if let Ok(short) = i64::try_from(number) {
        return write_short_cell(out, short);
    }
    out.push(b',')?;
    write_wide(out, number)
}

// A comma and a number of up to four digits.
#[inline]
fn write_four_cell(out: &mut Vec<u8>, number: u64) -> Result<(), NoMemory>
    requires { number < 10000 }
    ensures ok { OnOk result (out.new.items ≡ out.old.items ++ 44 ∷ decimal number) }
    ensures behind { Behind out.old.items out.new.items }
{
    if !has_room(out) {
        return write_any_cell(out, i128::from(number));
    }
    if number < 10 {
        return out.extend_from_slice(&cell_of_one(number));
    }
    if number < 100 {
        return out.extend_from_slice(&cell_of_two(number));
    }
    if number < 1000 {
        return out.extend_from_slice(&cell_of_three(number));
    }
    out.extend_from_slice(&cell_of_four(number))
}

// A comma and a number that has more than four digits, or is less than 0.
#[inline(never)]
fn write_long_cell(out: &mut Vec<u8>, number: i128) -> Result<(), NoMemory>
    ensures ok { OnOk result (out.new.items ≡ out.old.items ++ 44 ∷ signed_decimal number) }
    ensures behind { Behind out.old.items out.new.items }
{
    if 10_000 <= number && number < 100_000_000 {
        return write_eight_cell(out, number as u64);
    }
    write_any_cell(out, number)
}

// A comma and a number of five to eight digits.
#[inline]
fn write_eight_cell(out: &mut Vec<u8>, number: u64) -> Result<(), NoMemory>
    requires { (10000 ≤ number) × (number < 100000000) }
    ensures ok { OnOk result (out.new.items ≡ out.old.items ++ 44 ∷ decimal number) }
    ensures behind { Behind out.old.items out.new.items }
{
    write_four_cell(out, number / 10_000)?;
    out.extend_from_slice(&last_four(number))?;
    Ok(())
}

/// Writes a comma and a number: one cell more of a line.
#[inline]
pub fn write_cell(out: &mut Vec<u8>, number: i128) -> Result<(), NoMemory>
    ensures ok { OnOk result (out.new.items ≡ out.old.items ++ 44 ∷ signed_decimal number) }
    ensures behind { Behind out.old.items out.new.items }
{
    if 0 <= number && number < 10_000 {
        return write_four_cell(out, number as u64);
    }
    write_long_cell(out, number)
}
