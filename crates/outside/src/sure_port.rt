//! A port in memory that never fails.

ghost use Rattle.std.specs.Prelude.{◌≡◌, ◌≤◌, ◌+◌, ◌⊎◌, [], ◌∷◌, ◌++◌, true, false, IfOk, IfSome, IsTrue, OnErr, Ok, is_err, is_ok, ◌==◌, if◌then◌else◌};
ghost use Rattle.std.specs.List.{list_all};
ghost use Rattle.std.specs.Result.{result_ok};
ghost use Rattle.outside.specs.declared.event.Happening.{Happening};
ghost use Rattle.outside.specs.Causes.{Rose, next_count};
ghost use Rattle.outside.specs.Links.{is_linked, IsGiven, happenings_of_next};
ghost use Rattle.outside.specs.Telling.{Appends};
ghost use Rattle.outside.specs.PortScript.{first_dialled, is_scripted, sure_story, next_event, later_events};

use crate::event::{Event, Events};
use crate::lists::Sends;
use crate::port::{Failed, Port, PortRefused};
use crate::script_port::ScriptPort;
use std::alloc::Global;
use std::marker::Model;
use wire_base::List;

/// A scripted port of which no call fails, but for a dial where no number of 32 bits is left for a link.
#[derive(Drop)]
pub struct SurePort {
    script: ScriptPort,
}

impl Model for SurePort {
    ghost use Rattle.std.specs.Prelude.{◌≡◌, []};
    ghost use Rattle.outside.specs.PortScript.{SurePortScript};

    ghost Value = { SurePortScript };

    ghost view = { λ p. record {
      events = p.script.events;
      next_link = p.script.next_link;
      link_faults = p.script.link_faults;
      sent = p.script.sent;
      story = p.script.story;
      tells = p.script.tells;
    } };

    ghost invariant = { λ p. (p.script.failing ≡ []) × (p.script.faults ≡ 0) };
}

impl SurePort {
    /// A port that will give these events.
    pub fn new(alloc: Global, events: Events) -> SurePort
        requires { IsTrue (list_all is_scripted events) }
        ensures { result ≡ record {
          events = events;
          next_link = first_dialled;
          link_faults = 0;
          sent = [];
          story = [];
          tells = true;
        } }
    {
        SurePort {
            script: ScriptPort::new(alloc, events, List::new(alloc)),
        }
    }

    /// The sends that it kept, in order.
    pub fn sent(&self) -> &Sends
        ensures { result.now ≡ self.now.sent }
    {
        self.script.sent()
    }

    /// Whether the port still tells its story: nothing that happened was lost for want of memory.
    pub fn tells(&self) -> bool
        ensures { result ≡ self.now.tells }
    {
        self.script.tells()
    }
}

impl Port for SurePort {
    ghost use Rattle.outside.specs.PortScript.{sure_story};

    ghost faults = { λ p. 0 };

    ghost link_faults = { λ p. p.link_faults };

    ghost story = { sure_story };

    fn listen(&mut self, address: &[u8]) -> Result<(), Failed>
        ensures sure { IsTrue (is_ok result) }
        ensures told { Appends (sure_story self.old) (sure_story self.new)
            (Happening.Listened address.now ∷ []) }
        ensures after { self.new ≡
            record self.old { story = self.new.story; tells = self.new.tells } }
    {
        self.script.listen(address)
    }

    fn next(&mut self, want: Option<u32>) -> Result<Event, PortRefused>
        ensures kind { IfOk result IsGiven }
        ensures told { Appends (sure_story self.old) (sure_story self.new)
            (happenings_of_next result want) }
        ensures event { result ≡ Ok (next_event self.old.events) }
        ensures after { self.new ≡
            record self.old {
              events = later_events self.old.events;
              story = self.new.story;
              tells = self.new.tells;
            } }
    {
        self.script.next(want)
    }

    fn dial(&mut self, peer: &[u8]) -> Result<u32, Failed>
        ensures cause { OnErr result (Rose self.old.link_faults self.new.link_faults) }
        ensures link_faults { self.old.link_faults ≤ self.new.link_faults }
        ensures fresh { IfOk result
            (λ link. IfSome (sure_story self.old) (λ before. is_linked before link ≡ false)) }
        ensures told { Appends (sure_story self.old) (sure_story self.new)
            (Happening.Dialled peer.now (result_ok result) ∷ []) }
        ensures fails { is_err result ≡ (self.old.next_link == u32.MAX) }
        ensures link { IfOk result (λ link. (link ≡ self.old.next_link) ×
            (self.new.next_link ≡ link + 1)) }
        ensures no_link { OnErr result (self.new.next_link ≡ self.old.next_link) }
        ensures counts { self.new.link_faults ≡
            (if is_err result then next_count self.old.link_faults else self.old.link_faults) }
        ensures after { self.new ≡
            record self.old {
              next_link = self.new.next_link;
              link_faults = self.new.link_faults;
              story = self.new.story;
              tells = self.new.tells;
            } }
    {
        self.script.dial(peer)
    }

    fn send(&mut self, link: u32, bytes: &[u8]) -> Result<(), Failed>
        ensures sure { IsTrue (is_ok result) }
        ensures told { Appends (sure_story self.old) (sure_story self.new)
            (Happening.Sent link bytes.now false ∷ []) }
        ensures sent { IsTrue self.new.tells → self.new.sent ≡
            self.old.sent ++ (link, bytes.now) ∷ [] }
        ensures kept { (self.new.sent ≡ self.old.sent) ⊎
            (self.new.sent ≡ self.old.sent ++ (link, bytes.now) ∷ []) }
        ensures after { self.new ≡
            record self.old {
              sent = self.new.sent;
              story = self.new.story;
              tells = self.new.tells;
            } }
    {
        self.script.send(link, bytes)
    }

    fn close(&mut self, link: u32)
        ensures told { Appends (sure_story self.old) (sure_story self.new)
            (Happening.Shut link ∷ []) }
        ensures after { self.new ≡
            record self.old { story = self.new.story; tells = self.new.tells } }
    {
        self.script.close(link);
    }
}
