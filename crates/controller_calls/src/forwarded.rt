//! A logon that was asked of the controller of a domain that is trusted, until its answer comes.

ghost use Rattle.std.specs.Prelude.{◌≡◌};
ghost use Rattle.controller_calls.specs.Forwarded.{call_without};

use crate::line::Line;
use std::marker::Model;

/// A logon that was asked of the controller of a trusted domain, seen as where its answer goes, or None once that link
/// has closed, and what the answer needs: the validation level that was asked for, and the session key and the return
/// credential of the channel on which it came.
#[derive(Drop)]
pub struct ForwardedCall {
    pub(crate) line: Option<Line>,
    pub(crate) validation: u16,
    pub(crate) key: [u8; 16],
    pub(crate) credential: [u8; 8],
}

impl Model for ForwardedCall {
    ghost use Rattle.controller_calls.specs.Forwarded.{ForwardedState, IsForwardedCall};

    ghost Value = { ForwardedState };

    ghost view = { λ c. record {
      line = c.line;
      validation = c.validation;
      key = c.key;
      credential = c.credential;
    } };

    ghost invariant = { λ c. IsForwardedCall (record {
      line = c.line;
      validation = c.validation;
      key = c.key;
      credential = c.credential;
    }) };
}

impl ForwardedCall {
    /// A copy of the logon. It takes no memory.
    pub fn copy(&self) -> ForwardedCall
        ensures { result ≡ self.now }
    {
        ForwardedCall {
            line: self.line,
            validation: self.validation,
            key: self.key,
            credential: self.credential,
        }
    }

    /// Where its answer goes, or None once that link has closed. It takes no memory.
    pub fn line(&self) -> Option<Line>
        ensures { result ≡ self.now.line }
    {
        self.line
    }

    /// A link of that number was closed: where the answer was to go there, it goes nowhere.
    pub fn forget_link(&mut self, number: u32)
        ensures { self.new ≡ call_without number self.old }
    {
        self.line = match self.line {
            Some(line) if line.link == number => None,
            line => line,
        };
    }
}
