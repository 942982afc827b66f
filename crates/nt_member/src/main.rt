//! The member server.
#![tactic(auto)]

use nt_top::{Role, start};
use outside::{CounterChances, DiskFiles, SocketPort, SystemClock};
use std::process::ExitCode;

fn main(rt: HostRuntime) -> ExitCode {
    ExitCode::from(start(
        &rt,
        &rt.stderr(),
        Role::Member,
        &mut SocketPort::new(rt.alloc(), &rt),
        &mut DiskFiles::new(&rt),
        &mut SystemClock::new(&rt),
        &mut CounterChances::new(),
    ))
}
