//! The secrets that a machine keeps while it replaces its secret.

ghost use Rattle.std.specs.Prelude.{◌≡◌, ℕ, ◌++◌, ◌↔◌, List, IfOk, OnOk, IsSome, Some, Ok, Err, Option};
ghost use Rattle.std.specs.Result.{result_ok};
ghost use Rattle.secret_change.specs.Secrets.{SecretsState, alone, tried_of, next_of, begin_of, denied_of, opened_of, confirmed_of, line_of, written_secrets, line_with, behind_newline, first_line, secrets_of, reread, HasForm, AreSecrets};

use crate::refused::{Busy, NotSecrets};
use hex::FromHex;
use std::alloc::Global;
use std::marker::Model;
use wire_base::{Blob, NoMemory};

/// A next secret, and whether it is the one that is tried.
#[derive(Clone, Copy, Debug)]
pub(crate) struct Next {
    /// The secret.
    pub(crate) secret: [u8; 16],
    /// Whether the next secret is tried, and not the current one.
    pub(crate) is_tried: bool,
}

/// The secrets that a machine keeps (this project's own choice). They are the current one and, where a change is under
/// way, the next one. One of the two is tried when a channel is opened.
#[derive(Debug, Drop)]
pub struct Secrets {
    current: [u8; 16],
    next: Option<Next>,
}

impl Model for Secrets {
    ghost use Rattle.secret_change.specs.Secrets.{SecretsState};

    ghost Value = { SecretsState };

    ghost view = { λ s. record { current = s.current; next = s.next } };
}

impl Secrets {
    /// One secret alone, which is tried. It takes no memory.
    pub fn alone(secret: [u8; 16]) -> Secrets
        ensures { result ≡ alone secret }
    {
        Secrets {
            current: secret,
            next: None,
        }
    }

    /// Equal secrets. It takes no memory.
    pub fn copy(&self) -> Secrets
        ensures { result ≡ self.now }
    {
        Secrets {
            current: self.current,
            next: self.next,
        }
    }

    /// The secrets of a text: a line of 32 hex digits for the current one, and maybe another for the next one. The last
    /// newline may be missing. The current one is tried. It takes no memory. `NotSecrets` exactly where the text has
    /// another form.
    #[tactic(auto, unfolding(crate::specs::Secrets::secrets_of))]
    pub fn read(text: &[u8]) -> Result<Secrets, NotSecrets>
        ensures { result_ok result ≡ secrets_of text.now }
    {
        let line = match line_at_front(text) {
            Some(line) => line,
            None => return Err(NotSecrets),
        };
        let current = line.secret;
        if line.rest.is_empty() {
            return Ok(Secrets {
                current,
                next: None,
            });
        }
        let second = match line_at_front(line.rest) {
            Some(second) => second,
            None => return Err(NotSecrets),
        };
        if !second.rest.is_empty() {
            return Err(NotSecrets);
        }
        let secret = second.secret;
        Ok(Secrets {
            current,
            next: Some(Next {
                secret,
                is_tried: false,
            }),
        })
    }

    /// The text of the secrets, with a newline behind each: the hex digits are in lower case. `NoMemory` where no
    /// memory was found.
    #[tactic(auto, unfolding(crate::specs::Secrets::written_secrets))]
    pub fn text(&self, alloc: Global) -> Result<Blob, NoMemory>
        ensures { IfOk result (λ text. text ≡ written_secrets self.now) }
    {
        let mut text = Vec::new(alloc);
        push_line(alloc, &mut text, &self.current)?;
        if let Some(next) = &self.next {
            push_line(alloc, &mut text, &next.secret)?;
        }
        Ok(Blob::from_vec(text))
    }

    /// Begins a change to a new secret. `Busy` exactly where a change is under way, which then stays.
    pub fn begin(&mut self, new: [u8; 16]) -> Result<(), Busy>
        ensures answer { result ≡ (begin_of self.old new).answer }
        ensures secrets { self.new ≡ (begin_of self.old new).secrets }
    {
        if let Some(next) = &self.next {
            return Err(Busy { next: next.secret });
        }
        self.next = Some(Next {
            secret: new,
            is_tried: false,
        });
        Ok(())
    }

    /// The secret that is tried.
    pub fn tried(&self) -> [u8; 16]
        ensures { result ≡ tried_of self.now }
    {
        match self.next {
            Some(next) if next.is_tried => next.secret,
            _ => self.current,
        }
    }

    /// The next secret, where a change is under way.
    pub fn next(&self) -> Option<[u8; 16]>
        ensures { result ≡ next_of self.now }
    {
        match &self.next {
            Some(next) => Some(next.secret),
            None => None,
        }
    }

    /// A channel was denied under the secret that was tried. Where a change is under way, the other one is tried from
    /// now on.
    pub fn denied(&mut self)
        ensures { self.new ≡ denied_of self.old }
    {
        if let Some(next) = self.next {
            let Next { secret, is_tried } = next;
            self.next = Some(Next {
                secret,
                is_tried: !is_tried,
            });
        }
    }

    /// A channel is open under the secret that was tried. Where that was the next one, it becomes the current one, and
    /// no change is under way any more.
    pub fn opened(&mut self)
        ensures { self.new ≡ opened_of self.old }
    {
        if let Some(next) = self.next {
            let Next { secret, is_tried } = next;
            if is_tried {
                self.current = secret;
                self.next = None;
            }
        }
    }

    /// The controller has taken the next secret. Whichever was tried, that becomes the current one, and no change is
    /// under way any more.
    pub fn confirmed(&mut self)
        requires { IsSome (next_of self.old) }
        ensures { self.new ≡ confirmed_of self.old }
    {
        if let Some(next) = self.next {
            let secret = next.secret;
            self.current = secret;
            self.next = None;
        }
    }
}

/// The first line of a text: its secret, and what follows its newline.
#[derive(Drop)]
struct Line<'a> {
    secret: [u8; 16],
    rest: &'a [u8],
}

impl<'a> Model for Line<'a> {
    ghost use Rattle.secret_change.specs.Secrets.{Line};

    ghost Value = { Line };

    ghost view = { λ l. record { secret = l.secret; rest = l.rest.now } };
}

/// The first line of a text, whose newline may be missing where the text ends. None where it has another form.
#[tactic(auto, unfolding(crate::specs::Secrets::first_line))]
fn line_at_front(text: &[u8]) -> Option<Line<'_>>
    ensures { result ≡ first_line text.now }
{
    if text.len() < 32 {
        return None;
    }
    let (digits, behind) = text.split_at(32);
    match <[u8; 16]>::from_hex(digits) {
        Ok(secret) => line_before(secret, behind),
        Err(_) => None,
    }
}

/// A line of that secret before what stands behind its digits: a newline, or nothing.
fn line_before(secret: [u8; 16], behind: &[u8]) -> Option<Line<'_>>
    ensures { result ≡ line_with secret (behind_newline behind.now) }
{
    match behind {
        [] => Some(Line {
            secret,
            rest: behind,
        }),
        [b'\n', rest @ ..] => Some(Line { secret, rest }),
        _ => None,
    }
}

/// Appends a line: the hex digits of a secret in lower case, and a newline.
fn push_line(alloc: Global, text: &mut Vec<u8>, secret: &[u8; 16]) -> Result<(), NoMemory>
    ensures { OnOk result (text.new.items ≡ text.old.items ++ line_of secret.now) }
{
    let digits = hex::encode(alloc, secret)?;
    text.extend_from_slice(digits.as_bytes())?;
    text.push(b'\n')?;
    Ok(())
}

/// What is written is read, with the current secret tried again; and a text is read exactly where it has the form of
/// its secrets.
pub fn what_is_written_is_read()
    ensures again { (s : SecretsState) → AreSecrets s →
        secrets_of (written_secrets s) ≡ Some (reread s) }
    ensures form { (text : List ℕ) (s : SecretsState) →
        (secrets_of text ≡ Some s) ↔ HasForm text s }
    ensures secrets { (text : List ℕ) (s : SecretsState) → secrets_of text ≡ Some s → AreSecrets s }
{}
