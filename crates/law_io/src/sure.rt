// A source and a sink in memory that never fail.
ghost use Rattle.law_io.specs.Takings.Taken.{Told};
ghost use Rattle.std.specs.Prelude.{◌≡◌, ℕ, ◌+◌, ◌-◌, ◌<◌, ◌≤◌, ◌++◌, [], Some, Ok, drop, take, length, min, IfOk, vec_len, vec_capacity};

use crate::giving::{give, put_reserved};
use crate::streams::{Failed, Sink, Source};
use std::alloc::{AllocError, Global};

/// Bytes in memory as a source that never fails.
#[derive(Drop)]
pub struct SureSource {
    /// All bytes, those that were given too.
    pub bytes: Vec<u8>,
    /// How many of them were given.
    pub at: usize,
    /// The greatest number of bytes that one call gives.
    pub step: usize,
    ghost within: { at ≤ vec_len bytes },
    ghost moves: { 1 ≤ step },
}

impl SureSource {
    /// A source that has given nothing yet.
    pub fn new(bytes: Vec<u8>, step: usize) -> Self
        requires { 1 ≤ step }
        ensures left { ⟦<SureSource as Source>⟧.left result ≡ Some bytes.items }
        ensures bytes { result.bytes ≡ bytes }
        ensures at { result.at ≡ 0 }
        ensures step { result.step ≡ step }
    {
        SureSource { bytes, at: 0, step }
    }
}

impl Source for SureSource {
    ghost use Rattle.std.specs.Io.{ReadsAtMost};
    ghost use Rattle.std.specs.Io.KnownBytes.{ReadConsumes};
    ghost use Rattle.law_io.specs.Counts.{HasCause};
    ghost use Rattle.law_io.specs.Portions.{portion};

    ghost left = { λ s. Some (drop s.at s.bytes.items) };

    ghost faults = { λ _. 0 };

    /// Gives as many bytes as `step`, the room of `buf` and what is left allow.
    ///
    /// # Errors
    ///
    /// None.
    fn pull(&mut self, buf: &mut [u8]) -> Result<usize, Failed>
        ensures bound { ReadsAtMost result buf.new }
        ensures bytes { ReadConsumes (Some (drop self.old.at self.old.bytes.items))
            (Some (drop self.new.at self.new.bytes.items)) result buf.new }
        ensures cause { HasCause 0 0 result }
        ensures count { result ≡ Ok (portion self.old.step (length buf.old) (vec_len self.old.bytes - self.old.at)) }
        ensures kept { (self.new.bytes ≡ self.old.bytes) × (self.new.step ≡ self.old.step) }
    {
        let count = give(&self.bytes, self.at, self.step, buf);
        self.at += count;
        Ok(count)
    }
}

/// Memory as a sink that never fails. It keeps the bytes for which it was made, and only counts
/// those past them.
#[derive(Drop)]
pub struct SureSink {
    /// The bytes that were taken and kept. Their room is the vector's capacity.
    pub bytes: Vec<u8>,
    /// The greatest number of bytes that one call takes.
    pub step: usize,
    /// How many bytes were taken and only counted; it stops at 2^64 - 1.
    pub more: u64,
    ghost moves: { 1 ≤ step },
}

impl SureSink {
    ghost use Rattle.law_io.specs.Portions.{places};

    /// A sink that has taken nothing yet and has room to keep `room` bytes.
    ///
    /// # Errors
    ///
    /// `AllocError` where the memory can't be had.
    pub fn new(alloc: Global, step: usize, room: usize) -> Result<Self, AllocError>
        requires { 1 ≤ step }
        ensures taken { IfOk result (λ s. ⟦<SureSink as Sink>⟧.taken s ≡ Told []) }
        ensures bytes { IfOk result (λ s. s.bytes.items ≡ []) }
        ensures room { IfOk result (λ s. vec_capacity s.bytes ≡ room) }
        ensures step { IfOk result (λ s. s.step ≡ step) }
        ensures more { IfOk result (λ s. s.more ≡ 0) }
    {
        let bytes = Vec::with_capacity(alloc, room)?;
        Ok(SureSink {
            bytes,
            step,
            more: 0,
        })
    }

    // How many bytes it can keep from now on.
    fn room(&self) -> usize
        ensures { result ≡ places self.now.more (vec_capacity self.now.bytes) (vec_len self.now.bytes) }
    {
        if self.more == 0 {
            self.bytes.capacity() - self.bytes.len()
        } else {
            0
        }
    }
}

impl Sink for SureSink {
    ghost use Rattle.std.specs.Io.{WritesAtMost};
    ghost use Rattle.law_io.specs.Counts.{HasCause};
    ghost use Rattle.law_io.specs.Takings.{PushGrows};
    ghost use Rattle.law_io.specs.Portions.{kept_or_spilled, count_on, places};

    ghost taken = { λ s. kept_or_spilled s.bytes.items s.more };

    ghost faults = { λ _. 0 };

    /// Takes as many bytes as `step` allows, and keeps those for which there is room.
    ///
    /// # Errors
    ///
    /// None.
    fn push(&mut self, piece: &[u8]) -> Result<usize, Failed>
        ensures bound { WritesAtMost result piece.now }
        ensures some { IfOk result (λ n. 0 < length piece.now → 0 < n) }
        ensures bytes { PushGrows (kept_or_spilled self.old.bytes.items self.old.more)
            (kept_or_spilled self.new.bytes.items self.new.more) result piece.now }
        ensures cause { HasCause 0 0 result }
        ensures count { result ≡ Ok (min self.old.step (length piece.now)) }
        ensures kept { let room = places self.old.more (vec_capacity self.old.bytes) (vec_len self.old.bytes) in
            self.new.bytes.items ≡ self.old.bytes.items ++ take (min room self.old.step) piece.now }
        ensures counted { let room = places self.old.more (vec_capacity self.old.bytes) (vec_len self.old.bytes) in
            self.new.more ≡ count_on self.old.more (min self.old.step (length piece.now) - room) }
        ensures room { vec_capacity self.new.bytes ≡ vec_capacity self.old.bytes }
        ensures step { self.new.step ≡ self.old.step }
    {
        let count = self.step.min(piece.len());
        let kept = count.min(self.room());
        put_reserved(&mut self.bytes, &piece[..kept]);
        self.more = self.more.saturating_add((count - kept) as u64);
        Ok(count)
    }
}
