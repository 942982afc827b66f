//! The units of the client's link.

ghost use Rattle.std.specs.Prelude.{◌≡◌, length, IfOk};
ghost use Rattle.outside.specs.Drawing.{DrawsSome};
ghost use Rattle.outside.specs.Machine.{AnswersBy};
ghost use Rattle.ntlm_messages.specs.Authenticate.{CanWriteAuthenticate};
ghost use Rattle.logon_client.specs.Answering.{answer_of};
ghost use Rattle.logon_client.specs.Machine.{answers, answers_with, answers_by, terms_of, serve_heard, serve_unit, serve_refusal, client_server};

use crate::answering::{Answer, Drawn, ServerOffer, auth3_bytes, draw, make_answer};
use crate::hearing::{Heard, ask_who, close_with, hear, tell};
use crate::outcome::{ClientOutcome, PeerFault};
use crate::securing::session_at;
use crate::state::{Talk, Terms, Work};
use end_links::ServesUnits;
use ntlm_flags::{NTLMSSP_NEGOTIATE_KEY_EXCH, has_flag};
use outside::{Action, Chances, StepRefused};
use rpc_units::UnitRefused;
use std::alloc::Global;
use wire_base::NoMemory;

/// Sends auth3 and WhoAmI, or finds that the AUTHENTICATE doesn't fit.
fn send_answer(
    alloc: Global,
    made: Answer,
    offer: &ServerOffer,
    link: u32,
    work: Work,
) -> Result<(Work, Option<Talk>), NoMemory>
    requires { CanWriteAuthenticate made.message }
    ensures { IfOk result (λ end. end ≡ answers_with made offer.now link work) }
{
    let level = work.task.level();
    let Some(auth3) = auth3_bytes(alloc, level, &made.message)? else {
        let outcome = ClientOutcome::BadPeer(PeerFault::BadMessage);
        return Ok((close_with(outcome, link, work)?, None));
    };
    let terms = Terms {
        key: made.key,
        receive: offer.receive,
        session: session_at(level, made.key, offer.flags),
    };
    let work = tell(work, Action::Send(link, auth3))?;
    ask_who(alloc, terms, link, work)
}

/// The answer to a CHALLENGE, with what was drawn for it.
fn answer_offer(
    alloc: Global,
    offer: &ServerOffer,
    drawn: Drawn,
    link: u32,
    work: Work,
) -> Result<(Work, Option<Talk>), NoMemory>
    ensures { IfOk result (λ end. end ≡ answers offer.now drawn link work) }
{
    let made = make_answer(alloc, work.task.plan(), offer, drawn)?;
    send_answer(alloc, made, offer, link, work)
}

/// What is heard, with the challenges that are drawn for it.
#[tactic(auto, using(crate::proofs::ServingLaws::serving))]
fn serve_heard<Q: Chances>(
    alloc: Global,
    heard: Heard,
    chances: &mut Q,
) -> Result<(Work, Option<Talk>), StepRefused>
    ensures draws { DrawsSome (Q.drawing chances.old) (Q.drawing chances.new) }
    ensures answer { AnswersBy result (serve_heard heard (Q.drawing chances.old).left)
        (Q.drawing chances.new).left }
{
    match heard {
        Heard::Done(work, talk) => Ok((work, talk)),
        Heard::Challenged(work, link, offer) => {
            let exchanges = has_flag(offer.flags, NTLMSSP_NEGOTIATE_KEY_EXCH);
            let drawn = match draw(exchanges, chances) {
                Ok(drawn) => drawn,
                Err(refused) => return Err(refused),
            };
            match answer_offer(alloc, &offer, drawn, link, work) {
                Ok(end) => Ok(end),
                Err(NoMemory) => Err(StepRefused::Memory),
            }
        }
    }
}

impl ServesUnits<Talk> for Work {
    ghost use Rattle.logon_client.specs.Machine.{client_server};
    ghost use Rattle.logon_client.specs.Bounds.{more_on};
    ghost use Rattle.logon_client.specs.Leaving.{client_leaves};
    ghost use Rattle.logon_client.specs.Drawing.{client_few};

    ghost server = { client_server };

    ghost extra = { more_on };

    fn serve<Q: Chances>(
        self,
        alloc: Global,
        bytes: &mut [u8],
        talk: Talk,
        chances: &mut Q,
    ) -> Result<(Work, Option<Talk>), StepRefused> {
        let heard = match hear(alloc, bytes, talk, self) {
            Ok(heard) => heard,
            Err(NoMemory) => return Err(StepRefused::Memory),
        };
        serve_heard(alloc, heard, chances)
    }

    fn refuse<Q: Chances>(
        self,
        _alloc: Global,
        _why: UnitRefused,
        talk: Talk,
        _chances: &mut Q,
    ) -> Result<Work, StepRefused> {
        let outcome = ClientOutcome::BadPeer(PeerFault::BadUnit);
        Ok(close_with(outcome, talk.link, self)?)
    }

    ghost leaves = { client_leaves };

    ghost few = { client_few };
}
