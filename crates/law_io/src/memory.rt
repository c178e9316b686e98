// A source and a sink in memory whose calls fail where they are told to.
ghost use Rattle.law_io.specs.Takings.Taken.{Told};
ghost use Rattle.std.specs.Prelude.{◌≡◌, ℕ, ◌+◌, ◌-◌, ◌<◌, ◌≤◌, ◌++◌, ◌⊎◌, [], Some, drop, take, length, IfOk, OnErr, IsErr, IsTrue, ◌↔◌, Contains, vec_len, vec_capacity};

use crate::giving::{give, put_reserved};
use crate::streams::{Failed, Sink, Source};
use std::alloc::{AllocError, Global};

// Whether the call of this number is one of those that have to fail.
fn is_failing(fail_calls: &[u64], call: u64) -> bool
    ensures { IsTrue result ↔ Contains fail_calls.now call }
{
    fail_calls.contains(&call)
}

/// Bytes in memory as a source, some of whose calls fail.
#[derive(Drop)]
pub struct MemSource {
    /// All bytes, those that were given too.
    pub bytes: Vec<u8>,
    /// How many of them were given.
    pub at: usize,
    /// The greatest number of bytes that one call gives.
    pub step: usize,
    /// The numbers of the calls that fail. The first call has the number 0.
    pub fail_calls: Vec<u64>,
    /// The number of the next call; it stops at 2^64 - 1.
    pub calls: u64,
    /// How many calls failed; it stops at 2^64 - 1.
    pub count: u64,
    ghost within: { at ≤ vec_len bytes },
    ghost moves: { 1 ≤ step },
}

impl MemSource {
    /// A source that has given nothing yet and was not called.
    pub fn new(bytes: Vec<u8>, step: usize, fail_calls: Vec<u64>) -> Self
        requires { 1 ≤ step }
        ensures left { ⟦<MemSource as Source>⟧.left result ≡ Some bytes.items }
        ensures faults { ⟦<MemSource as Source>⟧.faults result ≡ 0 }
        ensures bytes { result.bytes ≡ bytes }
        ensures at { result.at ≡ 0 }
        ensures step { result.step ≡ step }
        ensures fail_calls { result.fail_calls ≡ fail_calls }
        ensures calls { result.calls ≡ 0 }
    {
        MemSource {
            bytes,
            at: 0,
            step,
            fail_calls,
            calls: 0,
            count: 0,
        }
    }
}

impl Source for MemSource {
    ghost use Rattle.std.specs.Io.{ReadsAtMost};
    ghost use Rattle.std.specs.Io.KnownBytes.{ReadConsumes};
    ghost use Rattle.law_io.specs.Counts.{HasCause, next_count};
    ghost use Rattle.law_io.specs.Portions.{portion};

    ghost left = { λ s. Some (drop s.at s.bytes.items) };

    ghost faults = { λ s. s.count };

    /// Gives as many bytes as `step`, the room of `buf` and what is left allow.
    ///
    /// # Errors
    ///
    /// `Failed` exactly where `fail_calls` has the number of this call.
    fn pull(&mut self, buf: &mut [u8]) -> Result<usize, Failed>
        ensures bound { ReadsAtMost result buf.new }
        ensures bytes { ReadConsumes (Some (drop self.old.at self.old.bytes.items))
            (Some (drop self.new.at self.new.bytes.items)) result buf.new }
        ensures cause { HasCause self.old.count self.new.count result }

        // Which calls fail, and how much the others give.
        ensures failed { IsErr result ↔ Contains self.old.fail_calls.items self.old.calls }
        ensures count { IfOk result (λ n.
            n ≡ portion self.old.step (length buf.old) (vec_len self.old.bytes - self.old.at)) }

        ensures call { self.new.calls ≡ next_count self.old.calls }
        ensures counted { OnErr result (self.new.count ≡ next_count self.old.count) }
        ensures kept { (self.new.bytes ≡ self.old.bytes) × (self.new.step ≡ self.old.step)
            × (self.new.fail_calls ≡ self.old.fail_calls) }
    {
        let call = self.calls;
        self.calls = call.saturating_add(1);
        if is_failing(&self.fail_calls, call) {
            self.count = self.count.saturating_add(1);
            return Err(Failed);
        }
        let count = give(&self.bytes, self.at, self.step, buf);
        self.at += count;
        Ok(count)
    }
}

/// Memory as a sink, some of whose calls fail, and which fails where it is full.
#[derive(Drop)]
pub struct MemSink {
    /// The bytes that were taken. Their room is the vector's capacity.
    pub bytes: Vec<u8>,
    /// The greatest number of bytes that one call takes.
    pub step: usize,
    /// The numbers of the calls that fail. The first call has the number 0.
    pub fail_calls: Vec<u64>,
    /// The number of the next call; it stops at 2^64 - 1.
    pub calls: u64,
    /// How many calls failed; it stops at 2^64 - 1.
    pub count: u64,
    ghost moves: { 1 ≤ step },
}

impl MemSink {
    /// A sink that has taken nothing yet, was not called, and has room for `room` bytes.
    ///
    /// # Errors
    ///
    /// `AllocError` where the memory can't be had.
    pub fn new(
        alloc: Global,
        step: usize,
        room: usize,
        fail_calls: Vec<u64>,
    ) -> Result<Self, AllocError>
        requires { 1 ≤ step }
        ensures taken { IfOk result (λ s. ⟦<MemSink as Sink>⟧.taken s ≡ Told []) }
        ensures faults { IfOk result (λ s. ⟦<MemSink as Sink>⟧.faults s ≡ 0) }
        ensures bytes { IfOk result (λ s. s.bytes.items ≡ []) }
        ensures room { IfOk result (λ s. vec_capacity s.bytes ≡ room) }
        ensures step { IfOk result (λ s. s.step ≡ step) }
        ensures fail_calls { IfOk result (λ s. s.fail_calls ≡ fail_calls) }
        ensures calls { IfOk result (λ s. s.calls ≡ 0) }
    {
        let bytes = Vec::with_capacity(alloc, room)?;
        Ok(MemSink {
            bytes,
            step,
            fail_calls,
            calls: 0,
            count: 0,
        })
    }
}

impl Sink for MemSink {
    ghost use Rattle.std.specs.Io.{WritesAtMost};
    ghost use Rattle.law_io.specs.Counts.{HasCause, next_count};
    ghost use Rattle.law_io.specs.Takings.{PushGrows};
    ghost use Rattle.law_io.specs.Portions.{portion, IsFull};

    ghost taken = { λ s. Told s.bytes.items };

    ghost faults = { λ s. s.count };

    /// Takes as many bytes as `step` and the places that are left allow.
    ///
    /// # Errors
    ///
    /// `Failed` exactly where `fail_calls` has the number of this call, or where no place is left
    /// and `piece` isn't empty.
    fn push(&mut self, piece: &[u8]) -> Result<usize, Failed>
        ensures bound { WritesAtMost result piece.now }
        ensures some { IfOk result (λ n. 0 < length piece.now → 0 < n) }
        ensures bytes { PushGrows (Told self.old.bytes.items) (Told self.new.bytes.items) result piece.now }
        ensures cause { HasCause self.old.count self.new.count result }

        // Which calls fail, and how much the others take.
        ensures failed { IsErr result ↔ (Contains self.old.fail_calls.items self.old.calls
            ⊎ IsFull (vec_capacity self.old.bytes) (vec_len self.old.bytes) piece.now) }
        ensures count { IfOk result (λ n.
            n ≡ portion self.old.step (length piece.now) (vec_capacity self.old.bytes - vec_len self.old.bytes)) }

        ensures call { self.new.calls ≡ next_count self.old.calls }
        ensures counted { OnErr result (self.new.count ≡ next_count self.old.count) }
        ensures room { vec_capacity self.new.bytes ≡ vec_capacity self.old.bytes }
        ensures kept { (self.new.step ≡ self.old.step) × (self.new.fail_calls ≡ self.old.fail_calls) }
    {
        let call = self.calls;
        self.calls = call.saturating_add(1);
        let room = self.bytes.capacity() - self.bytes.len();
        let count = self.step.min(piece.len()).min(room);
        if is_failing(&self.fail_calls, call) || (count == 0 && !piece.is_empty()) {
            self.count = self.count.saturating_add(1);
            return Err(Failed);
        }
        put_reserved(&mut self.bytes, &piece[..count]);
        Ok(count)
    }
}
