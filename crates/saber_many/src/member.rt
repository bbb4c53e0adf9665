// The stage of one among several.

/// A stage that has its ring with others, and whether it goes on.
#[derive(Drop)]
pub struct Member<S> {
    pub stage: S,
    pub goes: bool,
}
