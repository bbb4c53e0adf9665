// What blocks are read from.

/// The sources of a query's row files, as many as its streams.
#[derive(Drop)]
pub enum Inputs<S> {
    /// Of a query over one stream.
    One(S),
    /// The first is the left stream of FROM, the second the right one.
    Two(S, S),
}
