// A source and a sink of bytes, and their one fault.
ghost use Rattle.std.specs.Prelude.{ℕ, List, Option, length, ◌<◌, IfOk};
ghost use Rattle.std.specs.Io.{ReadsAtMost, WritesAtMost};
ghost use Rattle.std.specs.Io.KnownBytes.{ReadConsumes};
ghost use Rattle.law_io.specs.Counts.{HasCause};
ghost use Rattle.law_io.specs.Takings.{Taken, PushGrows};

/// The one fault of a stream: a call that moved no byte and was counted.
#[derive(Clone, Copy, Debug, PartialEq, Eq)]
pub struct Failed;

/// Where bytes come from.
pub trait Source {
    // The bytes still to come, where the source tells them.
    ghost left: { Self → Option (List ℕ) };

    // How many calls failed so far: a count that stops at 2^64 - 1.
    ghost faults: { Self → ℕ };

    /// Reads the next bytes into the front of `buf` and answers how many they are. `Ok(0)` for a
    /// `buf` that isn't empty is the end of the input. Of the places of `buf` after the bytes, and
    /// of all its places after an error, nothing is said.
    ///
    /// # Errors
    ///
    /// `Failed` where the source has a fault. It is counted, and no byte is lost.
    fn pull(&mut self, buf: &mut [u8]) -> Result<usize, Failed>
        ensures bound { ReadsAtMost result buf.new }
        ensures bytes { ReadConsumes (left self.old) (left self.new) result buf.new }
        ensures cause { HasCause (faults self.old) (faults self.new) result };
}

/// Where bytes go to.
pub trait Sink {
    // The bytes that were taken so far, where the sink tells them.
    ghost taken: { Self → Taken };

    // How many calls failed so far: a count that stops at 2^64 - 1.
    ghost faults: { Self → ℕ };

    /// Takes the first bytes of `piece` and answers how many they are: at least one where `piece`
    /// isn't empty.
    ///
    /// # Errors
    ///
    /// `Failed` where the sink has a fault, also where it can take nothing of a piece that isn't
    /// empty. It is counted, and no byte was taken.
    fn push(&mut self, piece: &[u8]) -> Result<usize, Failed>
        ensures bound { WritesAtMost result piece.now }
        ensures some { IfOk result (λ n. 0 < length piece.now → 0 < n) }
        ensures bytes { PushGrows (taken self.old) (taken self.new) result piece.now }
        ensures cause { HasCause (faults self.old) (faults self.new) result };
}
