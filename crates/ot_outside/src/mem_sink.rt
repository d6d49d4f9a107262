// Bytes in memory.
ghost use Rattle.std.specs.Prelude.{◌≡◌, ◌<◌, ◌≤◌, ◌-◌, ◌||◌, ◌++◌, [], take, length, min, nat_le, if◌then◌else◌};
ghost use Rattle.std.specs.Prelude.{is_err, vec_capacity, vec_len, IfOk, OnErr};
ghost use Rattle.ot_outside.specs.Faults.{Rose, next_count};

use crate::counts::Counts;
use crate::{Failed, NoMemory, Sink};
use std::alloc::Global;

/// A fixed room for bytes, and a list of the calls that fail.
///
/// Calls of `write` are counted from 1. A call whose number is listed fails, and so does a call when
/// no room is left. No other call fails.
#[derive(Drop)]
pub struct MemSink {
    bytes: Vec<u8>,
    room: usize,
    per_call: usize,
    counts: Counts,
    ghost reserved: { room ≤ vec_capacity bytes },
    ghost in_room: { vec_len bytes ≤ room },
    ghost takes_some: { 0 < per_call },
}

impl MemSink {
    ghost use Rattle.ot_outside.specs.MemSink.{call_count, failing_calls, fault_count, per_call_of, room_of};
    ghost use Rattle.ot_outside.specs.MemSink.{sink_bytes};

    /// A sink with room for `room` bytes, which is taken here, that takes at most `per_call` bytes at
    /// a call.
    pub fn new(
        alloc: Global,
        room: usize,
        per_call: usize,
        failing: Vec<u32>,
    ) -> Result<MemSink, NoMemory>
        requires { 0 < per_call }
        ensures bytes { IfOk result (λ sink. sink_bytes sink ≡ []) }
        ensures room { IfOk result (λ sink. room_of sink ≡ room) }
        ensures per_call { IfOk result (λ sink. per_call_of sink ≡ per_call) }
        ensures failing { IfOk result (λ sink. failing_calls sink ≡ failing.items) }
        ensures calls { IfOk result (λ sink. call_count sink ≡ 0) }
        ensures faults { IfOk result (λ sink. fault_count sink ≡ 0) }
    {
        Ok(MemSink {
            bytes: Vec::with_capacity(alloc, room)?,
            room,
            per_call,
            counts: Counts::new(failing),
        })
    }

    /// What was written, at most as many bytes as there is room for.
    pub fn written(&self) -> &[u8]
        ensures bytes { result.now ≡ sink_bytes self.now }
        ensures in_room { length result.now ≤ room_of self.now }
    {
        &self.bytes
    }
}

impl Sink for MemSink {
    ghost use Rattle.ot_outside.specs.MemSink.{call_count, failing_calls, fails_next, fault_count, per_call_of};
    ghost use Rattle.ot_outside.specs.MemSink.{room_of, sink_bytes};

    ghost took = { sink_bytes };

    ghost faults = { fault_count };

    // Takes no memory.
    fn write(&mut self, bytes: &[u8]) -> Result<usize, Failed>
        requires { 0 < length bytes.now }

        ensures some { IfOk result (λ n. 0 < n) }
        ensures count { IfOk result (λ n. n ≤ length bytes.now) }
        ensures ok { IfOk result (λ n. sink_bytes self.new ≡ sink_bytes self.old ++ take n bytes.now) }
        ensures err { OnErr result (sink_bytes self.new ≡ sink_bytes self.old) }
        ensures faults { fault_count self.old ≤ fault_count self.new }

        ensures failed { OnErr result (Rose (fault_count self.old) (fault_count self.new)) }

        // It fails exactly where its number is listed or no room is left, and that counts.
        ensures fails { is_err result ≡ (fails_next self.old || nat_le (room_of self.old)
            (length (sink_bytes self.old))) }
        ensures raised { fault_count self.new ≡ (if is_err result then next_count (fault_count self.old)
            else fault_count self.old) }
        ensures called { call_count self.new ≡ next_count (call_count self.old) }
        ensures failing { failing_calls self.new ≡ failing_calls self.old }
        ensures room { room_of self.new ≡ room_of self.old }
        ensures per_call { per_call_of self.new ≡ per_call_of self.old }

        // It takes as many bytes as it may and has room for.
        ensures full { IfOk result (λ n. n ≡ min (min (length bytes.now) (per_call_of self.old))
            (room_of self.old - length (sink_bytes self.old))) }
    {
        self.counts.call()?;
        let left = self.room - self.bytes.len();
        if left == 0 {
            return Err(self.counts.fault());
        }
        let count = bytes.len().min(self.per_call).min(left);
        self.bytes.extend_from_slice(&bytes[..count]).unwrap();
        Ok(count)
    }
}
