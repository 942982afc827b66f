//! Laws of how commands end. Each function does nothing, and its clause is the law.

ghost use Rattle.nt_top.specs.LogonExits.{LogonLaws};
ghost use Rattle.nt_top.specs.Service.{BeginsOneChange};
ghost use Rattle.nt_top.specs.ServeExits.{ServiceLaws};
ghost use Rattle.nt_top.specs.StationExits.{StationExitLaws};
ghost use Rattle.nt_top.specs.Unsealed.{RunsStayPlain, ServicesStayPlain, StepsStayPlain};

use end_loop::End;

/// Where the outside tells the client's run, it decides the exit of `logon`: that of its outcome, or `Spent`, unless a
/// fault of the sink or want of memory comes in its place. Each of these exits comes only of such a run, and
/// `PortFault` of one that would ask for one more event, where the port gave no `Stop` and too few events. At `Done`
/// its lines were put, at a fault of the sink a front of them, else nothing. The client finds its dial failed only
/// where its server's dial gave no link and the count of link faults rose, and its link closed only where that was
/// shown. No other exit comes.
pub fn what_is_told_decides_the_exit()
    ensures { LogonLaws }
{}

/// Where the outside tells the station's run, it decides the exit of `station`: that of its outcome, or `Spent`, unless
/// a fault of the sink or want of memory comes in its place. Each of these exits comes only of such a run. At `Done`
/// the line of the user who is in and the line `off` were put, for the names that the controller gave; at every other
/// exit the line of the user who is in exactly where the run told that the Logon was granted, and nothing else; at a
/// fault of the sink a front of both lines, for want of memory a front of the first. The station finds a dial failed
/// only where a dial gave no link and the count of link faults rose, and its link closed only where that was shown. No
/// other exit comes.
pub fn what_is_told_decides_how_a_station_ends()
    ensures { StationExitLaws }
{}

/// Where the outside tells the run of an end that is served, it decides the exit: `Done` where the port gave `Stop` or
/// as many events as are taken, and `Spent` where a step draws more challenges than were left, unless a fault of the
/// sink or want of memory comes in its place. `PortFault` comes only where the port gave no `Stop`, and no event or
/// fewer than are taken.
pub fn what_is_told_decides_how_a_service_ends<E: End>(_end: &E)
    ensures { ServiceLaws E.machine }
{}

/// A member server that has one secret, and is to change it, begins with that: the new secret is the next one, and its
/// first action keeps the text of both. Where it has two, or isn't to change them, it does nothing first.
pub fn a_member_begins_one_change()
    ensures { BeginsOneChange }
{}

/// A controller that can seal, of which nothing is sealed yet, steps as one that can't, unless an opening is heard that
/// offers secure RPC, whatever else comes, binds with trailers too; and nothing is sealed then. At first nothing is.
pub fn what_nobody_seals_stays_plain()
    ensures { StepsStayPlain }
{}

/// A run of a controller that can seal, from where nothing is sealed on, is the same run of one that can't, unless an
/// opening that offers secure RPC is heard in it: then it is so up to the step that hears the first one.
pub fn runs_that_nobody_seals_stay_plain()
    ensures { RunsStayPlain }
{}

/// The service of a controller that can seal is that of one that can't, to the same exit, unless what the outside tells
/// has an opening that offers secure RPC: then it is that up to the opening. What is proved of controllers that can't
/// seal holds of the program therefore where nobody asks for sealing.
pub fn services_that_nobody_seals_stay_plain()
    ensures { ServicesStayPlain }
{}
