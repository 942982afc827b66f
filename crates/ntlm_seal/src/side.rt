//! The two ends of a session.

/// An end of a session: the client, which began it, or the server.
#[derive(Clone, Copy, Debug, PartialEq, Eq)]
pub enum Side {
    /// The end that began the session.
    Client,
    /// The end that answered.
    Server,
}

impl Side {
    ghost use Rattle.std.specs.Prelude.{◌≡◌};
    ghost use Rattle.ntlm_seal.specs.Sides.{other_side};

    /// The other side of a session.
    pub fn other(self) -> Side
        ensures { result ≡ other_side self }
    {
        match self {
            Side::Client => Side::Server,
            Side::Server => Side::Client,
        }
    }
}
