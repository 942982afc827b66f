//! A sink in memory that never fails.

ghost use Rattle.std.specs.Prelude.{◌≡◌, ◌⊎◌, ◌++◌, ◌≤◌, ◌<◌, [], length, take, true, IfOk, OnErr, Ok};
ghost use Rattle.std.specs.Result.{result_unwrap_or};
ghost use Rattle.outside.specs.Causes.{Rose};
ghost use Rattle.outside.specs.Telling.{Appends};

use crate::port::Failed;
use crate::sink::Sink;
use crate::vec_sink::VecSink;
use std::alloc::Global;
use std::marker::Model;
use wire_base::List;

/// A sink that keeps what it takes and never fails.
#[derive(Drop)]
pub struct SureSink {
    kept: VecSink,
}

impl Model for SureSink {
    ghost use Rattle.std.specs.Prelude.{◌≡◌, []};
    ghost use Rattle.outside.specs.Scripts.{SureScript};

    ghost Value = { SureScript };

    ghost view = { λ s. record { bytes = s.kept.bytes; tells = s.kept.tells } };

    ghost invariant = { λ s. (s.kept.failing ≡ []) × (s.kept.faults ≡ 0) };
}

impl SureSink {
    /// Nothing is kept yet.
    pub fn new(alloc: Global) -> SureSink
        ensures { result ≡ record { bytes = []; tells = true } }
    {
        SureSink {
            kept: VecSink::new(alloc, List::new(alloc)),
        }
    }

    /// The bytes that it kept.
    pub fn bytes(&self) -> &[u8]
        ensures { result.now ≡ self.now.bytes }
    {
        self.kept.bytes()
    }

    /// Whether the sink still tells what it took: no bytes were lost for want of memory.
    pub fn tells(&self) -> bool
        ensures { result ≡ self.now.tells }
    {
        self.kept.tells()
    }
}

impl Sink for SureSink {
    ghost use Rattle.outside.specs.Scripts.{sure_taken};

    ghost faults = { λ s. 0 };

    ghost taken = { sure_taken };

    fn put(&mut self, bytes: &[u8]) -> Result<usize, Failed>
        ensures all { result ≡ Ok (length bytes.now) }
        ensures told { Appends (sure_taken self.old) (sure_taken self.new) bytes.now }
        ensures kept { (self.new.bytes ≡ self.old.bytes) ⊎
            (self.new.bytes ≡ self.old.bytes ++ bytes.now) }
    {
        self.kept.put(bytes)
    }
}
