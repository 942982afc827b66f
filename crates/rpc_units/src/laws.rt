//! What holds of units, of streams and of calls on the wire.

ghost use Rattle.std.specs.Prelude.{◌≡◌, ◌≤◌, ◌+◌, ◌*◌, ◌++◌, ℕ, List, [], None, Some, Ok, Err, false, take, length, map};
ghost use Rattle.std.specs.List.{flat_map, AllByRecursion};
ghost use Rattle.wire_base.specs.Numbers.{AreBytes};
ghost use Rattle.rpc_units.specs.declared.refused.UnitRefused.{UnitRefused as RefusedUnit};
ghost use Rattle.rpc_units.specs.declared.unit.Unit.{Unit as RpcUnit};
ghost use Rattle.rpc_units.specs.Calls.{bytes_of_call, CanBeSent, IsHeard};
ghost use Rattle.rpc_units.specs.Joining.{stub_of, cut_of, HasStub};
ghost use Rattle.rpc_units.specs.Reading.{unit_of};
ghost use Rattle.rpc_units.specs.Stream.{Flow, Cut, cut_stream, cut_joined_to, with_unit, with_front, without_front, IsCut, IsStream};
ghost use Rattle.rpc_units.specs.Writing.{written, value_len, IsWritable, IsInRange, IsSendable, IsShortBody, ContextsFit};

use crate::refused::UnitRefused;

/// What was read can be written and is in range; what is written is read again, and has at most 5,840 bytes where it is
/// a fault, a bind_nak, an auth3 or the answer to so many contexts as a bind has that was read. No bytes are refused
/// for want of memory.
pub fn what_is_read_is_written()
    ensures writable { (bytes : List ℕ) (unit : RpcUnit)
        → AreBytes bytes → unit_of bytes ≡ Ok unit → IsWritable unit }
    ensures range { (bytes : List ℕ) (unit : RpcUnit)
        → AreBytes bytes → unit_of bytes ≡ Ok unit → IsInRange unit }
    ensures contexts { (bytes : List ℕ) (unit : RpcUnit)
        → unit_of bytes ≡ Ok unit → ContextsFit unit.body }
    ensures written { (unit : RpcUnit) → IsSendable unit → unit_of (written unit) ≡ Ok unit }
    ensures short { (unit : RpcUnit)
        → unit.trailer ≡ None → IsShortBody unit.body → length (written unit) ≤ 5840 }
    ensures memory { (bytes : List ℕ) → unit_of bytes ≡ Err UnitRefused.Memory → ⊥ }
{}

/// The units of a stream, its rest and its refusal: they are the stream's by the grammar, and no others are; written
/// units are a stream of just these; a stream that comes in two pieces has the units of the first and those of its rest
/// with the second, and a refusal stays whatever follows; and a unit that was lent and taken out, whatever was written
/// to it, leaves what followed it. Each unit has 16 bytes or more. No stream is refused for want of memory.
pub fn streams_have_one_reading()
    ensures grammar { (stream : List ℕ)
        → IsStream stream (cut_stream stream).units (cut_stream stream).rest }
    ensures only { (stream : List ℕ) (units : List (List ℕ)) (rest : List ℕ)
        → IsStream stream units rest
        → ((cut_stream stream).units ≡ units) × ((cut_stream stream).rest ≡ rest) }
    ensures written { (units : List RpcUnit) → AllByRecursion IsSendable units
        → cut_stream (flat_map written units)
        ≡ record { units = map written units; rest = []; refused = None } }
    ensures pieces { (stream more : List ℕ) → (cut_stream stream).refused ≡ None
        → cut_stream (stream ++ more) ≡ cut_joined_to (cut_stream stream) more }
    ensures refused { (stream more : List ℕ) (why : RefusedUnit)
        → (cut_stream stream).refused ≡ Some why
        → ((cut_stream (stream ++ more)).units ≡ (cut_stream stream).units)
        × ((cut_stream (stream ++ more)).refused ≡ Some why) }
    ensures taken { (cut : Cut) (came changed done : Flow) (size : ℕ) (left bytes : List ℕ)
        → IsCut size cut came left → changed ≡ with_front came bytes → length bytes ≡ size
        → done ≡ without_front changed
        → (cut ≡ with_unit (take size came.held) (cut_stream (done.held ++ left)))
        × (done.broken ≡ false) }
    ensures count { (stream : List ℕ)
        → 16 * length (cut_stream stream).units + length (cut_stream stream).rest ≤ length stream }
    ensures memory { (stream : List ℕ) → (cut_stream stream).refused ≡ Some UnitRefused.Memory → ⊥ }
{}

/// The fragments of a whole call in range can be written, each with at most 5,840 bytes. Their bytes, one after the
/// other, are a stream of just these units and no rest; each is read again, and a new `Joiner` to which they are added
/// gives the call, where its stub has at most 65,536 bytes. Where its trailer's value, if it has one, has at most 16
/// bytes, all fragments have at most nine eighths of the bytes of the stub, and 51 more.
pub fn what_is_sent_is_heard()
    ensures fragments { (call : RpcUnit) (limit : ℕ)
        → CanBeSent call limit → AllByRecursion IsSendable (cut_of call limit) }
    ensures heard { (call : RpcUnit) (limit : ℕ)
        → CanBeSent call limit → length (stub_of call.body) ≤ 65536
        → IsHeard (bytes_of_call call limit) (cut_of call limit) call }
    ensures bytes { (call : RpcUnit) (limit : ℕ)
        → HasStub call.body → 1432 ≤ limit → value_len call.trailer ≤ 16
        → 8 * length (bytes_of_call call limit) ≤ 9 * length (stub_of call.body) + 408 }
{}
