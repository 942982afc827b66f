//! Sinks in memory.

ghost use Rattle.std.specs.Prelude.{◌≡◌, ◌⊎◌, ◌+◌, ◌-◌, ◌^◌, ◌≤◌, ◌<◌, ◌++◌, [], length, take, min, true};
ghost use Rattle.std.specs.Prelude.{IfOk, IsOk, OnErr, is_ok, is_err, if◌then◌else◌};
ghost use Rattle.std.specs.List.{list_any};
ghost use Rattle.std.specs.Result.{result_unwrap_or};
ghost use Rattle.outside.specs.Causes.{Rose, next_count};
ghost use Rattle.outside.specs.Telling.{Appends};
ghost use Rattle.outside.specs.Scripts.{call_fails};

use crate::port::Failed;
use crate::script::is_listed;
use crate::sink::Sink;
use std::alloc::Global;
use std::marker::Model;
use wire_base::Calls;

/// A sink that keeps what it takes. Its calls are counted from 0, and those that are listed fail and raise its count of
/// faults. Where it finds no memory to keep the bytes, it takes them all the same and tells them no longer.
#[derive(Drop)]
pub struct VecSink {
    bytes: Vec<u8>,
    failing: Calls,
    calls: u64,
    faults: u64,
    tells: bool,
}

impl Model for VecSink {
    ghost use Rattle.outside.specs.Scripts.{SinkScript};

    ghost Value = { SinkScript };

    ghost view = { λ s. record {
      bytes = s.bytes.items;
      failing = s.failing;
      calls = s.calls;
      faults = s.faults;
      tells = s.tells;
    } };
}

impl VecSink {
    /// Nothing is kept yet, no call was made, and these calls will fail.
    pub fn new(alloc: Global, failing: Calls) -> VecSink
        ensures { result ≡
            record { bytes = []; failing = failing; calls = 0; faults = 0; tells = true } }
    {
        VecSink {
            bytes: Vec::new(alloc),
            failing,
            calls: 0,
            faults: 0,
            tells: true,
        }
    }

    /// The bytes that it kept.
    pub fn bytes(&self) -> &[u8]
        ensures { result.now ≡ self.now.bytes }
    {
        self.bytes.as_slice()
    }

    /// Whether the sink still tells what it took: no bytes were lost for want of memory.
    pub fn tells(&self) -> bool
        ensures { result ≡ self.now.tells }
    {
        self.tells
    }
}

impl Sink for VecSink {
    ghost use Rattle.outside.specs.Scripts.{sink_taken};

    ghost faults = { λ s. s.faults };

    ghost taken = { sink_taken };

    fn put(&mut self, bytes: &[u8]) -> Result<usize, Failed>
        ensures most { IfOk result (λ count. count ≤ length bytes.now) }
        ensures least { IfOk result (λ count. 0 < length bytes.now → 0 < count) }
        ensures cause { OnErr result (Rose self.old.faults self.new.faults) }
        ensures faults { self.old.faults ≤ self.new.faults }
        ensures told { Appends (sink_taken self.old) (sink_taken self.new)
            (take (result_unwrap_or result 0) bytes.now) }
        // Exactly the listed calls fail, and the others take all the bytes.
        ensures fails { is_err result ≡ call_fails self.old.failing self.old.calls }
        ensures all { IfOk result (λ count. count ≡ length bytes.now) }
        ensures kept { (self.new.bytes ≡ self.old.bytes) ⊎
            (IsOk result × (self.new.bytes ≡ self.old.bytes ++ bytes.now)) }
        ensures counts { self.new.faults ≡
            (if is_err result then next_count self.old.faults else self.old.faults) }
        ensures calls { self.new.calls ≡ next_count self.old.calls }
        ensures failing { self.new.failing ≡ self.old.failing }
    {
        let fails = is_listed(self.failing.items(), self.calls);
        self.calls = self.calls.saturating_add(1);
        if fails {
            self.faults = self.faults.saturating_add(1);
            return Err(Failed);
        }
        if self.bytes.extend_from_slice(bytes).is_err() {
            self.tells = false;
        }
        Ok(bytes.len())
    }
}
