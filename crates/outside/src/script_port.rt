//! A port in memory.

ghost use Rattle.std.specs.Prelude.{◌≡◌, ◌≢◌, ◌⊎◌, ◌≤◌, ◌<◌, ◌+◌, ◌||◌, ◌==◌, [], ◌∷◌, ◌++◌, true, false};
ghost use Rattle.std.specs.Prelude.{OnErr, IsOk, IfOk, IfSome, IsTrue, MatchResult, None, is_ok, is_err, if◌then◌else◌};
ghost use Rattle.std.specs.List.{list_all};
ghost use Rattle.std.specs.Result.{result_ok};
ghost use Rattle.outside.specs.Causes.{Rose, next_count};
ghost use Rattle.outside.specs.Links.{is_linked, IsGiven, happenings_of_next};
ghost use Rattle.outside.specs.Telling.{Appends};
ghost use Rattle.outside.specs.PortScript.{first_dialled, is_scripted, port_story, next_event, later_events, is_kept_below, AfterCall, Stores};
ghost use Rattle.outside.specs.Scripts.{call_fails};

use crate::event::{Event, Events, Happening};
use crate::lists::Sends;
use crate::port::{Failed, MOST_EVENT_BYTES, Port, PortRefused};
use crate::script::is_listed;
use std::alloc::Global;
use std::marker::Model;
use std::vec::IntoIter;
use wire_base::{Blob, Calls, List, NoMemory};

/// The first link that a dial gives.
pub const FIRST_DIALLED: u32 = 1000;

/// A port that gives listed events and then `Stop`. Its calls of `listen`, `next`, `dial` and `send` are counted
/// together from 0, and those that are listed fail and raise the count that the trait names for them. Dials are
/// answered with links 1000, 1001 and so on; a dial also fails where no number of 32 bits is left. Where it finds no
/// memory to keep what a call was given, it does the call all the same and tells its story no longer.
#[derive(Drop)]
pub struct ScriptPort {
    alloc: Global,
    events: IntoIter<Event>,
    failing: Calls,
    calls: u64,
    next_link: u32,
    faults: u64,
    link_faults: u64,
    sent: Sends,
    story: Vec<Happening>,
    tells: bool,
}

impl Model for ScriptPort {
    ghost use Rattle.std.specs.Prelude.{◌≤◌, IsTrue};
    ghost use Rattle.std.specs.List.{list_all};
    ghost use Rattle.std.specs.Vec.Iter.{into_iter_items};
    ghost use Rattle.outside.specs.PortScript.{PortScript, first_dialled, is_scripted, HasLinksBelow};

    ghost Value = { PortScript };

    ghost view = { λ p. record {
      events = into_iter_items p.events;
      failing = p.failing;
      calls = p.calls;
      next_link = p.next_link;
      faults = p.faults;
      link_faults = p.link_faults;
      sent = p.sent;
      story = p.story.items;
      tells = p.tells;
    } };

    ghost invariant = { λ p. IsTrue (list_all is_scripted (into_iter_items p.events)) ×
        (first_dialled ≤ p.next_link) × HasLinksBelow p.next_link p.story.items };
}

impl ScriptPort {
    /// A port that will give these events, of which no call was made, and of which these calls will fail.
    pub fn new(alloc: Global, events: Events, failing: Calls) -> ScriptPort
        requires { IsTrue (list_all is_scripted events) }
        ensures { result ≡ record {
          events = events;
          failing = failing;
          calls = 0;
          next_link = first_dialled;
          faults = 0;
          link_faults = 0;
          sent = [];
          story = [];
          tells = true;
        } }
    {
        ScriptPort {
            alloc,
            events: events.into_vec().into_iter(),
            failing,
            calls: 0,
            next_link: FIRST_DIALLED,
            faults: 0,
            link_faults: 0,
            sent: List::new(alloc),
            story: Vec::new(alloc),
            tells: true,
        }
    }

    /// Whether a script may list the events: each is `Opened` of a link below 1000, `Bytes` of at most 65,536 bytes,
    /// `Closed` or `Stop`.
    pub fn may_list(events: &[Event]) -> bool
        ensures { result ≡ list_all is_scripted events.now }
    {
        events.iter().all(|event| is_scripted(event))
    }

    /// The sends that didn't fail and that it kept, in order.
    pub fn sent(&self) -> &Sends
        ensures { result.now ≡ self.now.sent }
    {
        &self.sent
    }

    /// Whether the port still tells its story: nothing that happened was lost for want of memory.
    pub fn tells(&self) -> bool
        ensures { result ≡ self.now.tells }
    {
        self.tells
    }

    /// Counts a call, and says whether it is to fail.
    fn count_call(&mut self) -> bool
        ensures fails { result ≡ call_fails self.old.failing self.old.calls }
        ensures after { self.new ≡ record self.old { calls = next_count self.old.calls } }
    {
        let fails = is_listed(self.failing.items(), self.calls);
        self.calls = self.calls.saturating_add(1);
        fails
    }

    /// Keeps what happened, or, where memory for it wasn't found, tells the story no longer.
    fn keep(&mut self, happened: Result<Happening, NoMemory>)
        requires { IfOk happened (λ h. IsTrue (is_kept_below self.old.next_link h)) }
        ensures told { MatchResult happened
            (λ h. Appends (port_story self.old) (port_story self.new) (h ∷ []))
            (λ _. port_story self.new ≡ None) }
        ensures after { self.new ≡
            record self.old { story = self.new.story; tells = self.new.tells } }
    {
        if !store(&mut self.story, happened) {
            self.tells = false;
        }
    }

    /// Takes the next event out, or `Stop` where none is left.
    fn take_event(&mut self) -> Event
        ensures event { result ≡ next_event self.old.events }
        ensures scripted { IsTrue (is_scripted result) }
        ensures after { self.new ≡ record self.old { events = later_events self.old.events } }
    {
        self.events.next().unwrap_or(Event::Stop)
    }

    /// Keeps a send that didn't fail, or, where memory for it wasn't found, tells the story no longer.
    fn keep_send(&mut self, link: u32, bytes: &[u8])
        ensures sent { IsTrue self.new.tells → self.new.sent ≡
            self.old.sent ++ (link, bytes.now) ∷ [] }
        ensures kept { (self.new.sent ≡ self.old.sent) ⊎
            (self.new.sent ≡ self.old.sent ++ (link, bytes.now) ∷ []) }
        ensures told { IsTrue self.new.tells → IsTrue self.old.tells }
        ensures after { self.new ≡
            record self.old { sent = self.new.sent; tells = self.new.tells } }
    {
        let kept = match Blob::copy(self.alloc, bytes) {
            Ok(bytes) => self.sent.push((link, bytes)).is_ok(),
            Err(NoMemory) => false,
        };
        if !kept {
            self.tells = false;
        }
    }
}

/// Whether the event may be listed.
fn is_scripted(event: &Event) -> bool
    ensures { result ≡ is_scripted event.now }
{
    match event {
        Event::Opened(link) => *link < FIRST_DIALLED,
        Event::Bytes(_, bytes) => bytes.bytes().len() <= MOST_EVENT_BYTES,
        Event::Closed(_) | Event::Stop => true,
        Event::Dialled(_) | Event::DialFailed => false,
    }
}

/// Stores what happened, and says whether it was.
fn store(story: &mut Vec<Happening>, happened: Result<Happening, NoMemory>) -> bool
    ensures { Stores story.old.items story.new.items happened result }
{
    match happened {
        Ok(happened) => story.push(happened).is_ok(),
        Err(NoMemory) => false,
    }
}

impl Port for ScriptPort {
    ghost use Rattle.outside.specs.PortScript.{port_story};

    ghost faults = { λ p. p.faults };

    ghost link_faults = { λ p. p.link_faults };

    ghost story = { port_story };

    fn listen(&mut self, address: &[u8]) -> Result<(), Failed>
        ensures cause { OnErr result (Rose self.old.faults self.new.faults) }
        ensures faults { self.old.faults ≤ self.new.faults }
        ensures link_faults { self.new.link_faults ≡ self.old.link_faults }
        ensures told { Appends (port_story self.old) (port_story self.new)
            (if is_ok result then Happening.Listened address.now ∷ [] else []) }
        // Exactly the listed calls fail.
        ensures fails { is_err result ≡ call_fails self.old.failing self.old.calls }
        ensures after { AfterCall self.old self.new (is_err result) false }
    {
        if self.count_call() {
            self.faults = self.faults.saturating_add(1);
            return Err(Failed);
        }
        self.keep(happening_of_listen(self.alloc, address));
        Ok(())
    }

    fn next(&mut self, want: Option<u32>) -> Result<Event, PortRefused>
        ensures cause { result ≡ Err PortRefused.Failed → Rose self.old.faults self.new.faults }
        ensures faults { self.old.faults ≤ self.new.faults }
        ensures link_faults { self.new.link_faults ≡ self.old.link_faults }
        ensures kind { IfOk result IsGiven }
        ensures told { Appends (port_story self.old) (port_story self.new)
            (happenings_of_next result want) }
        // Exactly the listed calls fail, and the others give the events in order.
        ensures fails { is_err result ≡ call_fails self.old.failing self.old.calls }
        ensures no_memory { result ≢ Err PortRefused.Memory }
        ensures event { IfOk result (λ event. event ≡ next_event self.old.events) }
        ensures events { self.new.events ≡
            (if is_ok result then later_events self.old.events else self.old.events) }
        ensures after { AfterCall self.old (record self.new { events = self.old.events })
            (is_err result) false }
    {
        if self.count_call() {
            self.faults = self.faults.saturating_add(1);
            return Err(PortRefused::Failed);
        }
        let event = self.take_event();
        self.keep(happening_of_next(self.alloc, &event, want));
        Ok(event)
    }

    fn dial(&mut self, peer: &[u8]) -> Result<u32, Failed>
        ensures cause { OnErr result (Rose self.old.link_faults self.new.link_faults) }
        ensures link_faults { self.old.link_faults ≤ self.new.link_faults }
        ensures faults { self.new.faults ≡ self.old.faults }
        ensures fresh { IfOk result
            (λ link. IfSome (port_story self.old) (λ before. is_linked before link ≡ false)) }
        ensures told { Appends (port_story self.old) (port_story self.new)
            (Happening.Dialled peer.now (result_ok result) ∷ []) }
        // Exactly the listed calls fail, and those made when no number of a link is left.
        ensures fails { is_err result ≡
            (call_fails self.old.failing self.old.calls || (self.old.next_link == u32.MAX)) }
        ensures link { IfOk result (λ link. (link ≡ self.old.next_link) ×
            (self.new.next_link ≡ link + 1)) }
        ensures no_link { OnErr result (self.new.next_link ≡ self.old.next_link) }
        ensures after { AfterCall self.old
            (record self.new { next_link = self.old.next_link }) false (is_err result) }
    {
        if self.count_call() || self.next_link == u32::MAX {
            self.link_faults = self.link_faults.saturating_add(1);
            self.keep(happening_of_dial(self.alloc, peer, None));
            return Err(Failed);
        }
        let link = self.next_link;
        self.next_link += 1;
        self.keep(happening_of_dial(self.alloc, peer, Some(link)));
        Ok(link)
    }

    fn send(&mut self, link: u32, bytes: &[u8]) -> Result<(), Failed>
        ensures cause { OnErr result (Rose self.old.link_faults self.new.link_faults) }
        ensures link_faults { self.old.link_faults ≤ self.new.link_faults }
        ensures faults { self.new.faults ≡ self.old.faults }
        ensures told { Appends (port_story self.old) (port_story self.new)
            (Happening.Sent link bytes.now (is_err result) ∷ []) }
        // Exactly the listed calls fail.
        ensures fails { is_err result ≡ call_fails self.old.failing self.old.calls }
        ensures sent { IsTrue self.new.tells → self.new.sent ≡
            (if is_ok result then self.old.sent ++ (link, bytes.now) ∷ [] else self.old.sent) }
        ensures kept { (self.new.sent ≡ self.old.sent) ⊎
            (IsOk result × (self.new.sent ≡ self.old.sent ++ (link, bytes.now) ∷ [])) }
        ensures after { AfterCall self.old (record self.new { sent = self.old.sent }) false
            (is_err result) }
    {
        let failed = self.count_call();
        self.keep(happening_of_send(self.alloc, link, bytes, failed));
        if failed {
            self.link_faults = self.link_faults.saturating_add(1);
            return Err(Failed);
        }
        self.keep_send(link, bytes);
        Ok(())
    }

    fn close(&mut self, link: u32)
        ensures faults { self.new.faults ≡ self.old.faults }
        ensures link_faults { self.new.link_faults ≡ self.old.link_faults }
        ensures told { Appends (port_story self.old) (port_story self.new)
            (Happening.Shut link ∷ []) }
        ensures after { self.new ≡
            record self.old { story = self.new.story; tells = self.new.tells } }
    {
        self.keep(Ok(Happening::Shut(link)));
    }
}

/// What happens where the port listens at the address.
fn happening_of_listen(alloc: Global, address: &[u8]) -> Result<Happening, NoMemory>
    ensures { IfOk result (λ h. h ≡ Happening.Listened address.now) }
{
    Ok(Happening::Listened(Blob::copy(alloc, address)?))
}

/// What happens where the event is given.
fn happening_of_next(alloc: Global, event: &Event, want: Option<u32>) -> Result<Happening, NoMemory>
    ensures { IfOk result (λ h. h ≡ Happening.Given event.now want) }
{
    Ok(Happening::Given(event.copy(alloc)?, want))
}

/// What happens where the peer is dialled.
fn happening_of_dial(alloc: Global, peer: &[u8], link: Option<u32>) -> Result<Happening, NoMemory>
    ensures { IfOk result (λ h. h ≡ Happening.Dialled peer.now link) }
{
    Ok(Happening::Dialled(Blob::copy(alloc, peer)?, link))
}

/// What happens where the bytes are sent, or fail to be.
fn happening_of_send(
    alloc: Global,
    link: u32,
    bytes: &[u8],
    failed: bool,
) -> Result<Happening, NoMemory>
    ensures { IfOk result (λ h. h ≡ Happening.Sent link bytes.now failed) }
{
    Ok(Happening::Sent(link, Blob::copy(alloc, bytes)?, failed))
}
