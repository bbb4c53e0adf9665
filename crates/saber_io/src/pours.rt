// Sinks that may hold bytes back for a while.
ghost use Rattle.std.specs.Prelude.{◌≡◌, ◌⊎◌, [], ℕ, List};

use crate::{Sink, WriteFault};

/// A sink that may hold back what was written, as one whose other end takes only so much at a time.
/// What is held back counts as written.
pub trait Pour: Sink {
    /// The bytes that it still holds back.
    ghost backlog: { Self → List ℕ };

    /// At one moment since it last let go of a byte, its other end had no room.
    ghost had_no_room: { Self → Type 0 };

    /// Lets go of what is held back, as far as there is room for it. It may wait.
    fn pour(&mut self)
        ensures poured { (backlog self.new ≡ []) ⊎ had_no_room self.new }
        ensures written { Self.written self.new ≡ Self.written self.old }
        ensures count { Self.faults self.new ≡ Self.faults self.old }
        ensures writes { Self.writes self.new ≡ Self.writes self.old };
}

/// A sink that holds nothing back.
#[derive(Drop)]
pub struct Plain<K> {
    pub sink: K,
}

impl<K: Sink> Sink for Plain<K> {
    ghost written = { λ p. K.written p.sink };

    ghost faults = { λ p. K.faults p.sink };

    ghost writes = { λ p. K.writes p.sink };

    fn write_all(&mut self, piece: &[u8]) -> Result<(), WriteFault> {
        self.sink.write_all(piece)
    }
}

impl<K: Sink> Pour for Plain<K> {
    ghost backlog = { λ _. [] };

    ghost had_no_room = { λ _. ⊥ };

    fn pour(&mut self)
        ensures { self.new ≡ self.old }
    {}
}
