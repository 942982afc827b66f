//! The domain controller.
#![tactic(auto)]

use nt_top::{Role, start};
use outside::{CounterChances, DiskFiles, SocketPort, SystemClock};
use std::process::ExitCode;

/// How many seconds a dial of a trusted domain's controller waits. The links of all members wait with it.
const DIAL_LIMIT: u64 = 1;

/// How many seconds that controller may be silent on a link. A logon that is handed on takes three links at most, and
/// the member that waits for it meanwhile waits 15 seconds.
const SILENCE_LIMIT: u64 = 3;

fn main(rt: HostRuntime) -> ExitCode {
    ExitCode::from(start(
        &rt,
        &rt.stderr(),
        Role::Controller,
        &mut SocketPort::with_limits(rt.alloc(), &rt, DIAL_LIMIT, SILENCE_LIMIT),
        &mut DiskFiles::new(&rt),
        &mut SystemClock::new(&rt),
        &mut CounterChances::new(),
    ))
}
