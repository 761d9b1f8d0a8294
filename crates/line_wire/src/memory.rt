//! A source and a sink in memory, for tests: each tells its bytes, and fails at the calls that it is told to.
ghost use Rattle.std.specs.Prelude.{◌≡◌, ◌≤◌, ◌<◌, ◌+◌, ◌-◌, ◌^◌, ◌↔◌, ◌⊎◌, ◌++◌, ℕ, List, [], length, take, min, vec_len, vec_capacity, Option, IfOk, OnOk, OnErr, IsErr, Contains};
ghost use Rattle.iv_types.specs.Faults.{CountsFault};
ghost use Rattle.line_wire.specs.Wire.{Gives};

use crate::{Sink, Source};
use iv_types::{Bytes, CallList, Failed, NoMemory};
use std::alloc::Global;

/// Gives the bytes of a list.
#[derive(Drop)]
pub struct ListSource {
    bytes: Bytes,
    at: usize,
    failing: CallList,
    calls: u64,
    faults: u64,
    ghost within: { at ≤ length bytes },
}

impl ListSource {
    ghost use Rattle.line_wire.specs.Memory.{bytes_left};

    /// A source of these bytes. The calls of which the numbers are listed fail, counted from 1; the others do not.
    pub fn new(bytes: Bytes, failing: CallList) -> Self
        ensures left { bytes_left result ≡ bytes }
        ensures faults { result.faults ≡ 0 }
        ensures failing { result.failing ≡ failing }
        ensures calls { result.calls ≡ 0 }
    {
        ListSource {
            bytes,
            at: 0,
            failing,
            calls: 0,
            faults: 0,
        }
    }
}

impl Source for ListSource {
    ghost use Rattle.std.specs.Prelude.{Some};
    ghost use Rattle.line_wire.specs.Memory.{bytes_left};

    ghost left = { λ s. Some (bytes_left s) };

    ghost faults = { λ s. s.faults };

    fn take(&mut self, into: &mut [u8]) -> Result<usize, Failed>
        requires { 0 < length into.old }
        ensures within { IfOk result (λ count. count ≤ length into.new) }
        ensures bytes { (bytes : List ℕ) → ◌≡◌ {A = Option (List ℕ)} (Some (bytes_left self.old)) (Some bytes) → IfOk result (λ count. Gives bytes count into.new (Some (bytes_left self.new))) }
        ensures nothing { (bytes : List ℕ) → ◌≡◌ {A = Option (List ℕ)} (Some (bytes_left self.old)) (Some bytes) → OnErr result (◌≡◌ {A = Option (List ℕ)} (Some (bytes_left self.new)) (Some bytes)) }
        ensures fault { CountsFault result self.old.faults self.new.faults }

        // It fails exactly at the listed calls.
        ensures exact { IsErr result ↔ Contains self.old.failing self.new.calls }
        ensures calls { self.new.calls ≡ min (self.old.calls + 1) (2 ^ 64 - 1) }
    {
        self.calls = self.calls.saturating_add(1);
        if self.failing.as_slice().contains(&self.calls) {
            return Err(Failed::counted(&mut self.faults));
        }
        let left = &self.bytes.as_slice()[self.at..];
        let count = into.len().min(left.len());
        into[..count].copy_from_slice(&left[..count]);
        self.at += count;
        Ok(count)
    }
}

/// Keeps what is written, in room that it takes when it is made.
#[derive(Drop)]
pub struct ListSink {
    bytes: Vec<u8>,
    room: usize,
    failing: CallList,
    calls: u64,
    faults: u64,
    ghost has_room: { vec_len bytes + room ≤ vec_capacity bytes },
}

impl ListSink {
    ghost use Rattle.line_wire.specs.Memory.{bytes_written, room_left};

    /// An empty sink with room for so many bytes. The calls of which the numbers are listed fail, counted from 1, and
    /// so does a call for which there is no room; the others do not.
    pub fn new(alloc: Global, room: u64, failing: CallList) -> Result<Self, NoMemory>
        ensures written { IfOk result (λ sink. bytes_written sink ≡ []) }
        ensures room { IfOk result (λ sink. room_left sink ≡ room) }
        ensures faults { IfOk result (λ sink. sink.faults ≡ 0) }
        ensures failing { IfOk result (λ sink. sink.failing ≡ failing) }
        ensures calls { IfOk result (λ sink. sink.calls ≡ 0) }
    {
        let room = room as usize;
        Ok(ListSink {
            bytes: Vec::with_capacity(alloc, room)?,
            room,
            failing,
            calls: 0,
            faults: 0,
        })
    }

    /// What was written.
    pub fn written(&self) -> &[u8]
        ensures { result.now ≡ bytes_written self.now }
    {
        &self.bytes
    }
}

impl Sink for ListSink {
    ghost use Rattle.std.specs.Prelude.{Some};
    ghost use Rattle.line_wire.specs.Memory.{bytes_written, room_left};

    ghost written = { λ s. Some (bytes_written s) };

    ghost faults = { λ s. s.faults };

    fn put(&mut self, from: &[u8]) -> Result<usize, Failed>
        ensures within { IfOk result (λ count. count ≤ length from.now) }
        ensures some { 0 < length from.now → IfOk result (λ count. 0 < count) }
        ensures bytes { (before : List ℕ) → ◌≡◌ {A = Option (List ℕ)} (Some (bytes_written self.old)) (Some before) → IfOk result (λ count. ◌≡◌ {A = Option (List ℕ)} (Some (bytes_written self.new)) (Some (before ++ take count from.now))) }
        ensures nothing { (before : List ℕ) → ◌≡◌ {A = Option (List ℕ)} (Some (bytes_written self.old)) (Some before) → OnErr result (◌≡◌ {A = Option (List ℕ)} (Some (bytes_written self.new)) (Some before)) }
        ensures fault { CountsFault result self.old.faults self.new.faults }

        // It fails exactly at the listed calls, and where there is no room.
        ensures exact { IsErr result ↔ (Contains self.old.failing self.new.calls ⊎ (room_left self.old < length from.now)) }
        ensures calls { self.new.calls ≡ min (self.old.calls + 1) (2 ^ 64 - 1) }
        ensures room { OnOk result (room_left self.new + length from.now ≡ room_left self.old) }
        ensures room_err { OnErr result (room_left self.new ≡ room_left self.old) }
    {
        self.calls = self.calls.saturating_add(1);
        if self.failing.as_slice().contains(&self.calls) {
            return Err(Failed::counted(&mut self.faults));
        }
        if from.len() > self.room {
            return Err(Failed::counted(&mut self.faults));
        }
        self.bytes.extend_from_slice(from).unwrap();
        self.room -= from.len();
        Ok(from.len())
    }
}
