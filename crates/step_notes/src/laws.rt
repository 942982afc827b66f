//! What is written down of a step is what the end did.

ghost use Rattle.step_notes.specs.CallLogons.{CallsCarryTheirLogon, RequestsComeFirst};
ghost use Rattle.step_notes.specs.ChannelNames.{ChannelsAreNamedAlike, ClientsWriteDownWhatTheySend, UnitsHaveTheirMarks};
ghost use Rattle.step_notes.specs.EffectNotes.{StepsAreNoted};
ghost use Rattle.step_notes.specs.GrantSends.{GrantsCarryTheirKey};
ghost use Rattle.step_notes.specs.HeardWhole.{ControllersHearWhole};
ghost use Rattle.step_notes.specs.JudgedInRange.{PassedRepliesAreRead};
ghost use Rattle.step_notes.specs.KeptNotes.{CallsAreKept};
ghost use Rattle.step_notes.specs.ReplySends.{RepliesAreSentAsJudged};
ghost use Rattle.step_notes.specs.StationSteps.{StationsAreNoted};
ghost use Rattle.step_notes.specs.TakenWhole.{MembersTakeWhole};
ghost use Rattle.step_notes.specs.TrustNotes.{NotesAreAlike};
ghost use Rattle.step_notes.specs.TrustReplies.{TrustRepliesAreSent};

/// Where a controller grants a Logon call, it tells one judgement and sends one reply, which carries what the account
/// is granted. The key in it is the session base key of the stored hash and the response, under the session key of the
/// call's channel (MS-NRPC 3.5.4.5.3).
#[tactic(auto, using(crate::proofs::Controllers::GrantSendLaws::grants_carry_their_key))]
pub fn grants_carry_their_key()
    ensures { GrantsCarryTheirKey }
{}

/// Where bytes come, whoever sent them, a controller that asks nobody sends one unit of bytes for each unit that is
/// written down as answered, in their order. Each that is marked as a reply is all frames of the reply to the call that
/// is written down with it: that call, whatever it asks, passed on the channel of the mark, and the reply carries what
/// it came to, with the credential that is returned and, where a logon was granted, the key under the session key of
/// the channel (MS-NRPC 3.5.4.4.6, 3.5.4.5.3, 3.5.4.5.4). Each that is marked as the reply to an opening is all frames
/// of a reply that opens a channel (3.5.4.4.2). None is marked as a request.
#[tactic(auto, using(crate::proofs::Controllers::ReplyStepLaws::replies_sent))]
pub fn replies_are_sent_as_judged()
    ensures { RepliesAreSentAsJudged }
{}

/// Where bytes come on an accepted link, whoever sent them, a controller that may hand logons on sends one unit of
/// bytes for each unit that is written down as answered then, in their order. Each that is marked as a reply is that
/// of the call that is written down with it, as of one that asks nobody; or, where a logon could be asked of nobody,
/// it is the reply with NO_LOGON_SERVERS, at the level that was asked for and with the credential that is returned
/// (MS-NRPC 3.5.4.5.3). For a call that is handed on nothing is sent then.
#[tactic(auto, using(crate::proofs::Controllers::TrustReplyLaws::trust_replies_sent))]
pub fn replies_of_trusting_are_sent()
    ensures { TrustRepliesAreSent }
{}

/// Where a controller has its ranges, each call on a secure channel is judged in them, whatever it asks. The bytes of
/// the reply to one that passed, where they are those of one whole unit, are the unit that was made, and of a network
/// logon are read as its reply (MS-NRPC 3.5.4.4.6, 3.5.4.5.3, 3.5.4.5.4).
#[tactic(auto, using(crate::proofs::Controllers::JudgedInRangeLaws::replies_are_read))]
pub fn passed_replies_are_read()
    ensures { PassedRepliesAreRead }
{}

/// Both ends of a secure channel name it alike in what is written down of a run: as it is opened (MS-NRPC 3.1.4.1), as
/// it stands at the member, and where a call passes on it, whatever it asks. So a credential that passes in a unit that
/// was made for the channel is no clash.
#[tactic(auto, using(crate::proofs::Channels::ChannelNameLaws::channels_are_named_alike))]
pub fn channels_are_named_alike()
    ensures { ChannelsAreNamedAlike }
{}

/// Where bytes come, a controller that asks nobody sends on their link alone, one unit for each mark. A unit on the
/// link of a member's turn lets one unit out on that link where it has a mark; where it has none, nothing is sent, or
/// the link is closed.
#[tactic(auto, using(crate::proofs::Channels::MarkLaws::units_have_marks))]
pub fn units_have_their_marks()
    ensures { UnitsHaveTheirMarks }
{}

/// Each AUTHENTICATE that a client sends (MS-NLMP 3.1.5.1.2) is written down, with the exported session key that the
/// client keeps.
#[tactic(auto, using(crate::proofs::ClientNoteLaws::clients_write_down))]
pub fn clients_write_down_what_they_send()
    ensures { ClientsWriteDownWhatTheySend }
{}

/// What is written down of a unit that the end which asks on a channel takes is what its effect on the channel says:
/// which request went out and for which channel, on which channel a credential passed, or nothing. A
/// NetrServerAuthenticate2 (MS-NRPC 3.5.4.4.3) goes out at most once for an opening, with its number.
#[tactic(auto, using(crate::proofs::Channels::EffectNoteLaws::steps_are_noted))]
pub fn steps_are_noted_by_effect()
    ensures { StepsAreNoted }
{}

/// What a controller keeps of computers changes by its calls: a NetrServerReqChallenge lets the server's challenge that
/// was drawn wait where the accounts know the computer, else it changes nothing (MS-NRPC 3.5.4.4.1), a
/// NetrServerAuthenticate2 takes it out, and keeps the channel that is written down of it, or none more (3.5.4.4.3),
/// and a call on a secure channel, whatever it asks, keeps nothing more (3.5.4.4.6, 3.5.4.5.3, 3.5.4.5.4).
#[tactic(auto, using(crate::proofs::Controllers::KeptNoteLaws::calls_are_kept))]
pub fn calls_change_what_is_kept()
    ensures { CallsAreKept }
{}

/// What waits for its turn at a member is what is asked for the logons that it keeps, in their order, at first and
/// after each step. And each NetrLogonSamLogon that goes out when bytes come, as it is written down (MS-NRPC
/// 3.5.4.5.3), carries what the logon of its place asks, with the computer's name of the member's plan and an
/// authenticator of the timestamp that is written down on the channel, at the seed from which the turn moved it.
#[tactic(auto, using(crate::proofs::Members::CallLogonLaws::calls_carry))]
pub fn calls_carry_their_logon()
    ensures { CallsCarryTheirLogon }
{}

/// Whatever bytes come at a member, its step gives the requests of the units that it serves on the link of its turn
/// first, one Send on that link for each unit that is written down as letting one out, in their order, and whatever
/// else behind them.
#[tactic(auto, using(crate::proofs::Members::RequestOrderLaws::requests_first))]
pub fn requests_come_first()
    ensures { RequestsComeFirst }
{}

/// Of bytes that are those of one whole unit, in one fragment or more, on a link on which nothing is open (C706
/// 12.6.2), a controller hears no call but that of the unit, with its number, and then nothing is open again.
#[tactic(auto, using(crate::proofs::Controllers::HeardLaws::controllers_hear))]
pub fn controllers_hear_whole()
    ensures { ControllersHearWhole }
{}

/// Of bytes that are those of one whole unit on the link of a member's turn, its channel takes the whole unit with the
/// last fragment, and nothing happens before it.
#[tactic(auto, using(crate::proofs::Members::TurnHeardLaws::members_take))]
pub fn members_take_whole()
    ensures { MembersTakeWhole }
{}

/// What is written down of a controller that may hand logons on is read off its own machine. Of one that waits for no
/// other one's answer it is what is written down of a controller that asks nobody, where it steps as that one does.
#[tactic(auto, using(crate::proofs::Controllers::TrustNoteLaws::notes_alike))]
pub fn notes_are_alike()
    ensures { NotesAreAlike }
{}

/// What is written down of the bytes that come on a station's link is what its machine does at them. It sends one unit
/// for each note that sends, all of the request of its call, with the number of its mark. A reply is noted as taken
/// exactly where the station goes on by it, or ends by it with a status or with its user off, on the channel of the
/// call; and the Logon is granted exactly where a reply of status 0 is taken (MS-NRPC 3.5.4.4.3, 3.5.4.5.3, 3.5.4.5.4).
/// What is seen of its channel changes as that of a member does.
#[tactic(auto, using(crate::proofs::Stations::StationNoteLaws::stations_noted))]
pub fn stations_are_noted()
    ensures { StationsAreNoted }
{}
