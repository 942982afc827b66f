//! The command `check`.

ghost use Rattle.std.specs.Prelude.{◌≡◌, IfOk, IfSome, Err};
ghost use Rattle.wire_base.specs.Memory.{UpToMemory};
ghost use Rattle.ntlm_messages.specs.Fields.{IsText};
ghost use Rattle.nt_top.specs.Check.{accepts_of, check_answer, judged, texts_at_once, verdict_answer};

use crate::answer::Answer;
use crate::exit::Exit;
use crate::words::{bytes_from_hex, message_exit};
use hex::FromHex;
use logon_client::RefusedCause;
use ntlm_messages::{Authenticate, read_authenticate, units_of_text};
use ntlm_responses::{challenge_for, verify};
use std::alloc::Global;
use wire_base::{Blob, NoMemory};

/// What `check` comes to for a hash, a challenge and a message in hex: word 1 has 32 hex digits, word 2 has 16, and
/// word 3 is an AUTHENTICATE message (MS-NLMP 2.2.1.3).
#[tactic(auto, unfolding(crate::specs::Check::check_answer))]
pub(crate) fn check(
    alloc: Global,
    hash: &str,
    challenge: &str,
    message: &str,
) -> Result<Answer, Exit>
    ensures answer { UpToMemory Exit.NoMemory result
        (check_answer hash.now challenge.now message.now) }
    // No memory is looked for before word 3.
    ensures at_once { IfSome (texts_at_once hash.now challenge.now) (λ exit. result ≡ Err exit) }
{
    let hash = <[u8; 16]>::from_hex(hash).map_err(|_| Exit::BadInput(1))?;
    let challenge = <[u8; 8]>::from_hex(challenge).map_err(|_| Exit::BadInput(2))?;
    let bytes = bytes_from_hex(alloc, 3, message)?;
    judge(alloc, &hash, challenge, &bytes)
}

/// Judges the response of the message that word 3 holds, once that word is bytes: they are to be an AUTHENTICATE.
#[tactic(auto, unfolding(crate::specs::Check::judged))]
fn judge(alloc: Global, hash: &[u8; 16], challenge: [u8; 8], bytes: &[u8]) -> Result<Answer, Exit>
    ensures { UpToMemory Exit.NoMemory result (judged hash.now challenge bytes.now) }
{
    let message = read_authenticate(alloc, bytes).map_err(|refused| message_exit(refused, 3))?;
    let accepted = accepts(alloc, hash, challenge, &message)?;
    Ok(verdict(alloc, accepted)?)
}

/// The line and the exit of a verdict.
fn verdict(alloc: Global, accepted: bool) -> Result<Answer, NoMemory>
    ensures { IfOk result (λ value. value ≡ verdict_answer accepted) }
{
    let (refused, line) = if accepted {
        (None, b"accepted\n".as_slice())
    } else {
        (Some(RefusedCause::Response), b"refused\n".as_slice())
    };
    Ok(Answer {
        refused,
        lines: Blob::copy(alloc, line)?,
    })
}

/// Whether the message's NT response is that of the hash, under the message's names, to the challenge (MS-NLMP 3.3).
fn accepts(
    alloc: Global,
    hash: &[u8; 16],
    challenge: [u8; 8],
    message: &Authenticate,
) -> Result<bool, NoMemory>
    requires user { IsText message.now.flags message.now.user }
    requires domain { IsText message.now.flags message.now.domain }
    ensures { IfOk result (λ value. value ≡ accepts_of hash.now challenge message.now) }
{
    let user = units_of_text(alloc, message.flags, message.user.bytes())?;
    let domain = units_of_text(alloc, message.flags, message.domain.bytes())?;
    let nt = message.nt.bytes();
    let answered = challenge_for(message.flags, challenge, message.lm.bytes(), nt);
    Ok(verify(hash, user.units(), domain.units(), answered, nt).is_some())
}
