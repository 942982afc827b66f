//! The clock.

ghost use Rattle.std.specs.Prelude.{ℕ, List, [], ◌∷◌, Option};
ghost use Rattle.outside.specs.Telling.{Appends};

/// Gives moments, in units of 100 ns since 1601-01-01 (the FILETIME of MS-DTYP 2.3.3). `moments` is, where it is told,
/// the list of those given.
pub trait Clock {
    ghost moments: { Self → Option (List ℕ) };

    /// The moment of this call. It can't fail.
    fn now(&mut self) -> u64
        ensures told { Appends (moments self.old) (moments self.new) (result ∷ []) };
}
