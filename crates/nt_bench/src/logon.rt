//! A logon over a secure channel and its answer, as stubs.

ghost use Rattle.std.specs.Prelude.{◌≡◌, [], IfOk};
ghost use Rattle.logon_stubs.specs.Writing.{CanWriteSamInfo, CanWriteReply};

use crate::bench::{Outcome, end_of};
use anyhow::bail;
use logon_stubs::{Call, ExtraSids, LogonReply, Reply, SamInfo, read_call, write_reply};
use std::alloc::Global;
use wire_base::{Authenticator, Blob, Groups, NoMemory, Sid, Units};

/// The stub of a request to log on with responses of 24 bytes, as Samba's client wrote it.
pub const LOGON_CALL: &str =
    "000000004b700000060000000000000006000000460049004c004500310000004de10000b545d33540357eac3e366317f4fb000000000000000000000000000002000200c186000008000800931c000000000000ccca0c000000000006000600f0b00000040004001dc800001b93fd40f49caa1018001800ff00000018001800ff00000004000000000000000400000043004f005200500003000000000000000300000061006e006e00abab0200000000000000020000005700530018000000000000001800000054d349760b12e6c71e8d38de3eb00502e0b052227f7f5772180000000000000018000000c709e246c7e919b7f15b96f08ebd3236784a1500f2bf1b840200";

const ANN: [u16; 3] = [0x61, 0x6e, 0x6e];

const PDC: [u16; 3] = [0x50, 0x44, 0x43];

const CORP: [u16; 4] = [0x43, 0x4f, 0x52, 0x50];

/// The NT response of the request to log on, read `turns` times.
pub fn read_logons(alloc: Global, stub: &[u8], turns: u32) -> anyhow::Result<Outcome> {
    let mut end = Outcome::new();
    for _ in 0..turns {
        match read_call(alloc, 2, stub) {
            Ok(call) => end = end_of(response_of(&call)),
            Err(_) => bail!("a request was refused"),
        }
    }
    Ok(end)
}

/// The NT response in a request to log on; empty of another call.
fn response_of(call: &Call) -> &[u8] {
    match call {
        Call::Logon(call) => call.info.nt.bytes(),
        _ => &[],
    }
}

/// The end of a reply that is made and written `turns` times.
pub fn write_replies(alloc: Global, turns: u32) -> anyhow::Result<Outcome> {
    let mut end = Outcome::new();
    for _ in 0..turns {
        match write_granted(alloc) {
            Ok(stub) => end = end_of(stub.bytes()),
            Err(_) => bail!("no memory"),
        }
    }
    Ok(end)
}

/// The stub of the reply to a logon that is granted.
fn write_granted(alloc: Global) -> Result<Blob, NoMemory> {
    let reply = granted_reply(alloc)?;
    write_reply(alloc, &reply)
}

/// The reply to a logon that is granted.
fn granted_reply(alloc: Global) -> Result<Reply, NoMemory>
    ensures { IfOk result (λ reply. CanWriteReply reply) }
{
    let info = granted_info(alloc)?;
    Ok(Reply::Logon(LogonReply {
        returned: Some(Authenticator {
            credential: [0; 8],
            timestamp: 0,
        }),
        level: 2,
        info: Some(info),
        authoritative: 1,
        status: 0,
    }))
}

/// No text.
fn no_text(alloc: Global) -> Units
    ensures { result ≡ [] }
{
    Units::from_vec(Vec::new(alloc))
}

/// What is granted to a user in one group, of the domain 21-1-2-3.
fn granted_info(alloc: Global) -> Result<SamInfo, NoMemory>
    ensures writable { IfOk result (λ info. CanWriteSamInfo info) }
    ensures none { IfOk result (λ info. info.extra ≡ []) }
{
    let sid = Sid::new(alloc, 5, &[21, 1, 2, 3])?;
    let mut groups = Groups::new(alloc);
    groups.push((513, 7))?;
    let effective_name = Units::copy(alloc, &ANN)?;
    let server = Units::copy(alloc, &PDC)?;
    let domain = Units::copy(alloc, &CORP)?;
    Ok(SamInfo {
        logon_time: 0,
        logoff_time: 0,
        kickoff_time: 0,
        password_set: 0,
        password_can_change: 0,
        password_must_change: 0,
        effective_name,
        full_name: no_text(alloc),
        script: no_text(alloc),
        profile: no_text(alloc),
        home: no_text(alloc),
        home_drive: no_text(alloc),
        logon_count: 0,
        bad_count: 0,
        user_id: 1001,
        group_id: 513,
        groups,
        user_flags: 0,
        key: [0; 16],
        server,
        domain,
        sid,
        extra: ExtraSids::new(alloc),
    })
}
