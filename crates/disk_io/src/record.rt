//! The record of a disk in memory: its writes and syncs, in room that is taken when it is made.
ghost use Rattle.std.specs.Prelude.{◌≡◌, ◌≤◌, ◌+◌, ◌*◌, ◌++◌, ◌∷◌, [], All, length, take, vec_len, vec_capacity, is_ok, IfOk, OnOk, OnErr, nat_le};
ghost use Rattle.disk_io.specs.Record.{IsWithin, room_taken, within_prop};

use crate::Torn;
use crate::call::Call;
use crate::replay::{last_sync, replay, zeros};
use iv_types::{Failed, NoMemory};
use std::alloc::Global;

/// The room that each recorded call takes beside the bytes that it wrote.
const CALL_ROOM: u64 = 32;

/// The calls, and the bytes that the writes wrote, one after another. What has been recorded never moves.
#[derive(Drop)]
pub struct CallRecord {
    calls: Vec<Call>,
    bytes: Vec<u8>,
    room: u64,
    ghost within: { All (IsWithin (length bytes.items)) calls.items } by { within_prop (length bytes.items) calls.items },
    ghost fits: { room_taken bytes.items calls.items ≤ room },
    ghost room_for_bytes: { room ≤ vec_capacity bytes },
    ghost room_for_calls: { room ≤ 32 * vec_capacity calls + 31 },
}

impl CallRecord {
    ghost use Rattle.disk_io.specs.Recorded.{recorded, room_left};
    ghost use Rattle.disk_io.specs.Events.{Wrote, Synced, AllFit};
    ghost use Rattle.disk_io.specs.Images.{image_of};

    /// An empty record with that room.
    pub fn new(alloc: Global, room: u64) -> Result<CallRecord, NoMemory>
        ensures empty { IfOk result (λ r. recorded r ≡ []) }
        ensures room { IfOk result (λ r. room_left r ≡ room) }
    {
        let calls = Vec::with_capacity(alloc, (room / CALL_ROOM) as usize)?;
        let bytes = Vec::with_capacity(alloc, room as usize)?;
        Ok(CallRecord { calls, bytes, room })
    }

    /// How many calls are recorded.
    pub fn count(&self) -> usize
        ensures { result ≡ length (recorded self.now) }
    {
        self.calls.len()
    }

    /// How many bytes of room are left.
    pub fn left(&self) -> u64
        ensures { result ≡ room_left self.now }
    {
        self.room - (CALL_ROOM * self.calls.len() as u64 + self.bytes.len() as u64)
    }

    /// Records a write. `Failed` where the room for it is wanting, and then nothing changes.
    pub fn note_write(&mut self, at: usize, from: &[u8]) -> Result<(), Failed>
        ensures variant { is_ok result ≡ nat_le (length from.now + 32) (room_left self.old) }
        ensures ok { OnOk result (recorded self.new ≡ recorded self.old ++ Wrote at from.now ∷ []) }
        ensures err { OnErr result (recorded self.new ≡ recorded self.old) }
        ensures room { OnOk result (room_left self.new + length from.now + 32 ≡ room_left self.old) }
        ensures room_err { OnErr result (room_left self.new ≡ room_left self.old) }
    {
        let left = self.left();
        if left < CALL_ROOM || left - CALL_ROOM < from.len() as u64 {
            return Err(Failed);
        }
        let start = self.bytes.len();
        let length = from.len();
        self.bytes.extend_from_slice(from).unwrap();
        self.calls.push_reserved(Call::Wrote { at, start, length });
        Ok(())
    }

    /// Records a sync. `Failed` where the room for it is wanting, and then nothing changes.
    pub fn note_sync(&mut self) -> Result<(), Failed>
        ensures variant { is_ok result ≡ nat_le 32 (room_left self.old) }
        ensures ok { OnOk result (recorded self.new ≡ recorded self.old ++ Synced ∷ []) }
        ensures err { OnErr result (recorded self.new ≡ recorded self.old) }
        ensures room { OnOk result (room_left self.new + 32 ≡ room_left self.old) }
        ensures room_err { OnErr result (room_left self.new ≡ room_left self.old) }
    {
        if self.left() < CALL_ROOM {
            return Err(Failed);
        }
        self.calls.push_reserved(Call::Synced);
        Ok(())
    }

    /// What stands on a disk that held these bytes, after the first `moment` of the calls and a crash.
    pub fn image(
        &self,
        alloc: Global,
        moment: usize,
        torn: Torn,
        first: &[u8],
    ) -> Result<Vec<u8>, NoMemory>
        requires made { moment ≤ length (recorded self.now) }
        requires fits { AllFit (length first.now) (recorded self.now) }
        ensures { IfOk result (λ v. v.items ≡ image_of torn (take moment (recorded self.now)) first.now) }
    {
        let mut bytes = first.to_vec(alloc)?;
        self.tear(alloc, moment, torn, &mut bytes)?;
        Ok(bytes)
    }

    // Does the first `moment` of the calls over these bytes, and then a crash.
    fn tear(
        &self,
        alloc: Global,
        moment: usize,
        torn: Torn,
        onto: &mut [u8],
    ) -> Result<(), NoMemory>
        requires made { moment ≤ length (recorded self.now) }
        requires fits { AllFit (length onto.old) (recorded self.now) }
        ensures { OnOk result (onto.new ≡ image_of torn (take moment (recorded self.now)) onto.old) }
    {
        let calls = &self.calls[..moment];
        let (settled, since) = calls.split_at(last_sync(calls));
        replay(settled, &self.bytes, onto);
        match torn {
            Torn::Before => Ok(()),
            Torn::After => {
                replay(since, &self.bytes, onto);
                Ok(())
            }
            Torn::Zeros => {
                let cleared = zeros(alloc, self.bytes.len())?;
                replay(since, &cleared, onto);
                Ok(())
            }
        }
    }
}
