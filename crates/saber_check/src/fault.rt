// Faults, and the first of them.
ghost use Rattle.std.specs.Prelude.{◌≡◌, nat_le};
ghost use Rattle.saber_check.specs.Least.{rank, key, earlier};

use saber_query::Cause;

/// A fault and the index of the word where it stands, counted from 0.
#[derive(Clone, Copy)]
pub struct Fault {
    pub index: u64,
    pub cause: Cause,
}

fn rank(cause: Cause) -> u64
    ensures { result ≡ rank cause }
{
    match cause {
        Cause::TooLong => 0,
        Cause::BadByte => 1,
        Cause::NumberRange => 2,
        Cause::Syntax => 3,
        Cause::Depth => 4,
        Cause::DuplicateName => 5,
        Cause::UnknownStream => 6,
        Cause::UnknownColumn => 7,
        Cause::Ambiguous => 8,
        Cause::TooMany => 9,
        Cause::WindowRange => 10,
        Cause::Overlap => 11,
        Cause::Shape => 12,
        Cause::NotGrouped => 13,
        Cause::ExprTooWide => 14,
        Cause::SumTooWide => 15,
    }
}

#[tactic(auto, unfolding(crate::specs::Least::key))]
fn comes_first(fault: Fault, other: Fault) -> bool
    ensures { result ≡ nat_le (key fault) (key other) }
{
    if fault.index == other.index {
        return rank(fault.cause) <= rank(other.cause);
    }
    fault.index < other.index
}

/// The one that comes first.
#[tactic(auto, unfolding(crate::specs::Least::earlier, crate::specs::Least::sooner))]
pub(crate) fn earlier(first: Option<Fault>, second: Option<Fault>) -> Option<Fault>
    ensures { result ≡ earlier first second }
{
    match (first, second) {
        (None, _) => second,
        (_, None) => first,
        (Some(fault), Some(other)) => {
            if comes_first(fault, other) {
                first
            } else {
                second
            }
        }
    }
}
