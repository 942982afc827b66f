//! NetrServerReqChallenge.

ghost use Rattle.std.specs.Prelude.{◌≡◌, IfOk};
ghost use Rattle.account_table.specs.Changes.{with_changes};
ghost use Rattle.controller_calls.specs.Desk.{IsLine};
ghost use Rattle.controller_calls.specs.Opening.{answer_challenge};

use crate::computers::put_pair_if;
use crate::line::Line;
use crate::replying::send_reply;
use crate::standing::knows_with;
use crate::state::{ChallengePair, Work};
use account_table::{Table, TableChanges};
use logon_stubs::{ChallengeCall, ChallengeReply, Reply};
use std::alloc::Global;
use wire_base::NoMemory;

/// Answers NetrServerReqChallenge with this server challenge (MS-NRPC 3.5.4.4.1), by the accounts as the changes leave
/// them.
pub fn answer_challenge(
    alloc: Global,
    table: &Table,
    changes: &TableChanges,
    line: Line,
    call: ChallengeCall,
    server: [u8; 8],
    work: Work,
) -> Result<Work, NoMemory>
    requires { IsLine line }
    ensures { IfOk result (λ w.
        w ≡ answer_challenge (with_changes changes.now table.now) line call server work) }
{
    let ChallengeCall {
        computer,
        challenge,
        ..
    } = call;
    let knows = knows_with(table, changes, computer.units());
    let pair = ChallengePair {
        client: challenge,
        server,
    };
    let work = put_pair_if(knows, computer, pair, work)?;
    let answer = Reply::Challenge(ChallengeReply {
        challenge: server,
        status: 0,
    });
    send_reply(alloc, work, line, &answer)
}
