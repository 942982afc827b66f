//! The sessions of users who logged on interactively, as a controller keeps them.

ghost use Rattle.std.specs.Prelude.{ℕ, List as list, ◌≡◌, ◌≤◌, ◌<◌, ◌++◌, ◌∷◌, [], ◌↔◌, length, position, false, true, IsErrOf, IfOk, OnOk, OnErr, Some, None, IfSome, is_some};
ghost use Rattle.wire_base.specs.Names.{upper_case, SameName};
ghost use Rattle.interactive_logon.specs.declared.sessions.Session.{Session as session};
ghost use Rattle.interactive_logon.specs.Sessions.{session_limit, session_of, is_session, added_to, taken_from};

use std::alloc::Global;
use std::marker::Model;
use thiserror::Error;
use wire_base::{NoMemory, Units, same_units, upper_unit};

/// The most sessions that a controller keeps (this project's own choice).
pub const SESSION_LIMIT: usize = 10_000;

/// Why a session isn't added.
#[derive(Clone, Copy, Debug, PartialEq, Eq, Error)]
pub enum AddRefused {
    /// There are 10,000 sessions.
    #[error("as many sessions as are kept")]
    Full,
    /// No memory was found.
    #[error("no memory")]
    Memory,
}

impl From<NoMemory> for AddRefused {
    ghost use Rattle.std.specs.Prelude.{◌≡◌};
    ghost use Rattle.interactive_logon.specs.declared.sessions.AddRefused.TheVariants.{Memory};

    ghost from_gives = { λ _ e. e ≡ Memory };

    fn from(_error: NoMemory) -> AddRefused {
        AddRefused::Memory
    }
}

/// A session: where the user is logged on, and what the logon was called. Names are in ASCII upper case.
#[derive(Debug, Drop)]
pub struct Session {
    pub computer: Units,
    pub user: Units,
    pub logon_id: u64,
}

/// At most 10,000 sessions in the order in which they were added, seen as the list of them. It keeps the allocator that
/// it was made with.
#[derive(Drop)]
pub struct Sessions {
    alloc: Global,
    items: Vec<Session>,
}

impl Model for Sessions {
    ghost use Rattle.std.specs.Prelude.{List as list, ◌≤◌, length};
    ghost use Rattle.interactive_logon.specs.declared.sessions.Session.{Session as session};
    ghost use Rattle.interactive_logon.specs.Sessions.{session_limit};

    ghost Value = { list session };

    ghost view = { λ s. s.items.items };

    ghost invariant = { λ s. length s.items.items ≤ session_limit };
}

impl Sessions {
    /// No sessions.
    pub fn new(alloc: Global) -> Result<Sessions, NoMemory>
        ensures { IfOk result (λ s. s ≡ []) }
    {
        Ok(Sessions {
            alloc,
            items: Vec::new(alloc),
        })
    }

    /// All sessions, in the order in which they were added. It takes no memory.
    pub fn items(&self) -> &[Session]
        ensures value { result.now ≡ self.now }
        ensures most { length result.now ≤ session_limit }
    {
        self.items.as_slice()
    }

    /// Adds a session at the end, with the names in upper case. `Full` exactly where there are 10,000. A refusal
    /// changes nothing.
    pub fn add(&mut self, computer: &[u16], user: &[u16], logon_id: u64) -> Result<(), AddRefused>
        ensures full { IsErrOf result AddRefused.Full ↔ (length self.old ≡ session_limit) }
        ensures added { OnOk result (self.new ≡ added_to self.old computer.now user.now logon_id) }
        ensures unchanged { OnErr result (self.new ≡ self.old) }
    {
        if self.items.len() >= SESSION_LIMIT {
            return Err(AddRefused::Full);
        }
        let session = session_for(self.alloc, computer, user, logon_id)?;
        push(&mut self.items, session)?;
        Ok(())
    }

    /// Takes out the first session of that computer, user and logon, names in any case: false exactly where there is
    /// none. It takes no memory.
    pub fn remove(&mut self, computer: &[u16], user: &[u16], logon_id: u64) -> bool
        ensures found { result ≡ is_some
            (position (λ s. is_session computer.now user.now logon_id s) self.old) }
        ensures taken { self.new ≡ taken_from self.old computer.now user.now logon_id }
    {
        let Some(place) = place(&self.items, computer, user, logon_id) else {
            return false;
        };
        self.items.remove(place);
        true
    }
}

/// The session, with the names in upper case.
fn session_for(
    alloc: Global,
    computer: &[u16],
    user: &[u16],
    logon_id: u64,
) -> Result<Session, NoMemory>
    ensures { IfOk result (λ s. s ≡ session_of computer.now user.now logon_id) }
{
    Ok(Session {
        computer: upper(alloc, computer)?,
        user: upper(alloc, user)?,
        logon_id,
    })
}

/// The text in ASCII upper case.
fn upper(alloc: Global, units: &[u16]) -> Result<Units, NoMemory>
    ensures { IfOk result (λ u. u ≡ upper_case units.now) }
{
    Ok(Units::from_vec(units.iter().map(|unit| upper_unit(*unit)).collect(alloc)?))
}

/// One session more. Without memory nothing changes.
fn push(list: &mut Vec<Session>, session: Session) -> Result<(), NoMemory>
    ensures added { OnOk result (list.new.items ≡ list.old.items ++ session ∷ []) }
    ensures unchanged { OnErr result (list.new.items ≡ list.old.items) }
{
    list.push(session)?;
    Ok(())
}

/// The place of the first session of that computer, user and logon.
fn place(list: &[Session], computer: &[u16], user: &[u16], logon_id: u64) -> Option<usize>
    ensures value { result ≡ position
        (λ s. is_session computer.now user.now logon_id s) list.now }
    ensures inside { IfSome result (λ place. place < length list.now) }
{
    list.iter()
        .position(|session| is_session(session, computer, user, logon_id))
}

/// Whether a session is that of the computer, user and logon, names in any case.
fn is_session(session: &Session, computer: &[u16], user: &[u16], logon_id: u64) -> bool
    ensures { result ≡ is_session computer.now user.now logon_id session.now }
{
    same_units(computer, session.computer.units())
        && same_units(user, session.user.units())
        && logon_id == session.logon_id
}

/// A session that is added is taken out again by its names in any case, and then the others stand as they stood, where
/// none was of its computer, user and logon. It does nothing.
pub fn what_is_added_is_removed()
    ensures found { (sessions : list session)
        (computer user computer2 user2 : list ℕ) (logon_id : ℕ) →
        SameName computer computer2 → SameName user user2 →
        is_some (position (λ s. is_session computer2 user2 logon_id s)
        (added_to sessions computer user logon_id)) ≡ true }
    ensures others { (sessions : list session) (computer user : list ℕ) (logon_id : ℕ) →
        position (λ s. is_session computer user logon_id s) sessions ≡ None →
        taken_from (added_to sessions computer user logon_id) computer user logon_id ≡ sessions }
{}
