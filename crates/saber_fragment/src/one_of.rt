// One of two.

/// A thing of one kind, or of another.
#[derive(Drop)]
pub enum OneOf<A, B> {
    First(A),
    Second(B),
}
