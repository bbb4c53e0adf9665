// The fields of a line.
ghost use Rattle.std.specs.Prelude.{◌≡◌, [], ◌∷◌, ◌++◌, ◌+◌, ◌<◌, ◌^◌, ◌-◌, ◌≤◌, ◌==◌, pos, count_by, length, is_some, unwrap_or, option_copied, option_map, IfOk, OnErr, Ok, None, true};
ghost use Rattle.saber_plan.specs.Rows.{fields_of, bad_field, in_range, number_of, numbers, wide_field};
ghost use Rattle.saber_rows.specs.Fields.{fields_from, AreValues};

use crate::numbers::parse;
use saber_plan::{NoMemory, Values};
use std::alloc::Global;

// The first field, and what stands behind its comma.
#[tactic(auto, using(crate::proofs::FieldsLemmas::field_steps))]
fn split_field(part: &[u8]) -> (&[u8], Option<&[u8]>)
    ensures { fields_of part.now ≡ result.0.now ∷ fields_from (option_copied result.1) }
{
    for i in 0..part.len() {
        if part[i] == b',' {
            let (_, tail) = part.split_at(i + 1);
            return (&part[..i], Some(tail));
        }
    }
    (part, None)
}

fn count_commas(content: &[u8]) -> usize
    ensures counted { result ≡ count_by (λ b. b == 44) content.now }
    ensures within { result ≤ length content.now }
{
    content.iter().filter(|byte| **byte == b',').count()
}

// How many fields there are.
#[tactic(auto, using(crate::proofs::FieldsLemmas::count_fields_is))]
pub(crate) fn count_fields(content: &[u8]) -> usize
    ensures { result ≡ length (fields_of content.now) }
{
    count_commas(content) + 1
}

// The first field that is no number, from 1.
pub(crate) fn first_bad(content: &[u8]) -> Option<u32>
    requires { length (fields_of content.now) < 2 ^ 32 - 1 }
    ensures { result ≡ bad_field 1 (fields_of content.now) }
{
    let mut rest = Some(content);
    let mut field_number = 1;
    while let Some(part) = rest {
        let (field, tail) = split_field(part);
        if parse(field).is_none() {
            return Some(field_number);
        }
        field_number += 1;
        rest = tail;
    }
    None
}

// Whether a number of the field with this number is in its range.
fn is_in_range(field_number: u32, value: i64) -> bool
    ensures { result ≡ in_range field_number value }
{
    field_number != 1 || (0 <= value && value <= 1 << 62)
}

// Appends the number of a field if it is in its range, and tells whether it is.
fn put_value(values: &mut Values, field_number: u32, field: &[u8]) -> Result<bool, NoMemory>
    requires { is_some (number_of field.now) ≡ true }
    ensures within { IfOk result (λ put. put ≡ in_range field_number (unwrap_or (number_of field.now) (pos 0))) }
    ensures put { result ≡ Ok true → values.new ≡ values.old ++ unwrap_or (number_of field.now) (pos 0) ∷ [] }
    ensures memory { OnErr result (8 ≤ length values.old) }
{
    match parse(field) {
        Some(Some(value)) if is_in_range(field_number, value) => {
            values.push(value)?;
            Ok(true)
        }
        _ => Ok(false),
    }
}

// Appends the numbers of the fields, up to the first that is out of its range, which it tells.
fn put_values(values: &mut Values, content: &[u8]) -> Result<Option<u32>, NoMemory>
    requires none { values.old ≡ [] }
    requires count { length (fields_of content.now) < 2 ^ 32 - 1 }
    requires numbers { bad_field 1 (fields_of content.now) ≡ None }
    ensures wide { IfOk result (λ wide. wide ≡ wide_field 1 (numbers (fields_of content.now))) }
    ensures values { result ≡ Ok None → values.new ≡ numbers (fields_of content.now) }
    ensures memory { OnErr result (8 < length (fields_of content.now)) }
{
    let mut rest = Some(content);
    let mut field_number = 1;
    while let Some(part) = rest {
        let (field, tail) = split_field(part);
        if !put_value(values, field_number, field)? {
            return Ok(Some(field_number));
        }
        field_number += 1;
        rest = tail;
    }
    Ok(None)
}

// The numbers of the fields, or the first field that is out of its range.
pub(crate) fn values_of(alloc: Global, content: &[u8]) -> Result<Result<Values, u32>, NoMemory>
    requires count { length (fields_of content.now) < 2 ^ 32 - 1 }
    requires numbers { bad_field 1 (fields_of content.now) ≡ None }
    ensures values { IfOk result (λ r. AreValues r (numbers (fields_of content.now))) }
    ensures memory { OnErr result (8 < length (fields_of content.now)) }
{
    let mut values = Values::new(alloc);
    match put_values(&mut values, content)? {
        Some(field) => Ok(Err(field)),
        None => Ok(Ok(values)),
    }
}
