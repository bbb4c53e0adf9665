// The plans of a chain.
use saber_plan::Plan;

/// The plans of a chain's queries.
#[derive(Drop)]
pub struct Plans {
    pub first: Plan,
    pub second: Plan,
}
