//! What the bind of a channel that seals tells.

ghost use Rattle.std.specs.Prelude.{◌≡◌, MatchOption, None, Some};
ghost use Rattle.channel_sealing.specs.Names.{bind_names_of, names_in, text_of};

/// The domain and the computer that the bind of a channel that seals tells, by its authentication value (MS-NRPC
/// 2.2.1.3.1): a request 0 with the names 3, and both names, each ended by a zero. Bytes behind them are passed over.
/// None of every other value. It takes no memory.
pub fn bind_names(value: &[u8]) -> Option<(&[u8], &[u8])>
    ensures { MatchOption result (bind_names_of value.now ≡ None)
        (λ names. bind_names_of value.now ≡ Some (names.0.now, names.1.now)) }
{
    if value.len() < 8 {
        return None;
    }
    if value[..8] != [0, 0, 0, 0, 3, 0, 0, 0] {
        return None;
    }
    names_in(&value[8..])
}

/// Two names, the domain's and the computer's, each before a zero; None where a zero is missing.
fn names_in(bytes: &[u8]) -> Option<(&[u8], &[u8])>
    ensures { MatchOption result (names_in bytes.now ≡ None)
        (λ names. names_in bytes.now ≡ Some (names.0.now, names.1.now)) }
{
    let Some((domain, rest)) = text(bytes) else {
        return None;
    };
    let Some((computer, _)) = text(rest) else {
        return None;
    };
    Some((domain, computer))
}

/// The bytes before the first zero, and those behind it. None where there is none.
#[tactic(auto, using(crate::proofs::NameLaws::texts))]
fn text(bytes: &[u8]) -> Option<(&[u8], &[u8])>
    ensures { MatchOption result (text_of bytes.now ≡ None)
        (λ text. text_of bytes.now ≡ Some (text.0.now, text.1.now)) }
{
    let mut at = 0;
    while at < bytes.len() {
        if bytes[at] == 0 {
            return Some((&bytes[..at], &bytes[at + 1..]));
        }
        at += 1;
    }
    None
}
