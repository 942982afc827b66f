//! What the scripted implementations share: which of their calls fail.

ghost use Rattle.std.specs.Prelude.{◌≡◌};
ghost use Rattle.outside.specs.Scripts.{call_fails};

/// Whether the call of that number is among those listed.
pub(crate) fn is_listed(failing: &[u32], call: u64) -> bool
    ensures { result ≡ call_fails failing.now call }
{
    failing.iter().any(|listed| u64::from(*listed) == call)
}
