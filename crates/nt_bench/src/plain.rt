//! Views of a unit and of a message without contracts, to compare the library's with. They aren't inlined, as the
//! library's aren't: so each lends all of its parts, whatever the caller uses.

use ntlm_flags::{NTLMSSP_NEGOTIATE_UNICODE, NTLMSSP_NEGOTIATE_VERSION};
use ntlm_messages::AuthenticateView;
use rpc_units::{BodyView, TrailerView, UnitView};

/// The request or response that the bytes are, by the tests of `view_unit`; None of all other bytes.
#[inline(never)]
pub fn view_plain(bytes: &[u8]) -> Option<UnitView<'_>> {
    if bytes.len() < 16 || bytes[0] != 5 || bytes[1] > 1 || bytes[4] != 0x10 {
        return None;
    }
    let fragment = usize::from(u16_from(bytes, 8));
    if fragment < 16 || fragment > 5840 || fragment != bytes.len() {
        return None;
    }
    let kind = bytes[2];
    if kind != 0 && kind != 2 {
        return None;
    }
    let authentication = usize::from(u16_from(bytes, 10));
    let mut end = bytes.len();
    let mut trailer = None;
    if authentication != 0 {
        if bytes.len() < 32 + authentication {
            return None;
        }
        let place = bytes.len() - authentication - 8;
        let padding = usize::from(bytes[place + 2]);
        if place < 24 + padding {
            return None;
        }
        end = place - padding;
        trailer = Some(TrailerView {
            kind: bytes[place],
            level: bytes[place + 1],
            context: u32_from(bytes, place + 4),
            value: &bytes[place + 8..],
        });
    }
    if kind == 0 && bytes[3] & 0x80 != 0 || end < 24 {
        return None;
    }
    Some(UnitView {
        first: bytes[3] & 1 != 0,
        last: bytes[3] & 2 != 0,
        call: u32_from(bytes, 12),
        body: body_plain(kind, bytes, &bytes[24..end]),
        trailer,
    })
}

/// The body of a request or a response with that stub.
fn body_plain<'a>(kind: u8, bytes: &[u8], stub: &'a [u8]) -> BodyView<'a> {
    let (hint, context) = (u32_from(bytes, 16), u16_from(bytes, 20));
    if kind != 0 {
        return BodyView::Response {
            hint,
            context,
            stub,
        };
    }
    BodyView::Request {
        hint,
        context,
        opnum: u16_from(bytes, 22),
        stub,
    }
}

/// The AUTHENTICATE that the bytes are, by the tests of `view_authenticate`; None of all other bytes.
#[inline(never)]
pub fn authenticate_plain(bytes: &[u8]) -> Option<AuthenticateView<'_>> {
    if bytes.len() < 64 || !bytes.starts_with(b"NTLMSSP\0") || u32_from(bytes, 8) != 3 {
        return None;
    }
    let mut gap = bytes.len();
    let lm = part(bytes, &bytes[12..20], &mut gap)?;
    let nt = part(bytes, &bytes[20..28], &mut gap)?;
    let domain = part(bytes, &bytes[28..36], &mut gap)?;
    let user = part(bytes, &bytes[36..44], &mut gap)?;
    let workstation = part(bytes, &bytes[44..52], &mut gap)?;
    let key = part(bytes, &bytes[52..60], &mut gap)?;
    let flags = u32_from(bytes, 60);
    if flags & NTLMSSP_NEGOTIATE_UNICODE != 0
        && (domain.len() % 2 == 1 || user.len() % 2 == 1 || workstation.len() % 2 == 1)
    {
        return None;
    }
    let versioned = flags & NTLMSSP_NEGOTIATE_VERSION != 0;
    Some(AuthenticateView {
        flags,
        lm,
        nt,
        domain,
        user,
        workstation,
        key,
        version: if versioned && 72 <= gap {
            bytes.get(64..72)?.first_chunk::<8>().copied()
        } else {
            None
        },
        mic: if versioned && 88 <= gap {
            bytes.get(72..88)?.first_chunk::<16>().copied()
        } else {
            None
        },
    })
}

/// The bytes of the field with that place in the header; the gap ends where they begin.
fn part<'a>(bytes: &'a [u8], head: &[u8], gap: &mut usize) -> Option<&'a [u8]> {
    let len = usize::from(u16_from(head, 0));
    if len == 0 {
        return Some(&[]);
    }
    let offset = u32_from(head, 4) as usize;
    if offset < 64 || bytes.len() < offset + len {
        return None;
    }
    *gap = (*gap).min(offset);
    Some(&bytes[offset..offset + len])
}

/// Two bytes, low first; 0 where there are fewer.
fn u16_from(bytes: &[u8], place: usize) -> u16 {
    match bytes.get(place..) {
        Some([low, high, ..]) => u16::from_le_bytes([*low, *high]),
        _ => 0,
    }
}

/// Four bytes, low first; 0 where there are fewer.
fn u32_from(bytes: &[u8], place: usize) -> u32 {
    match bytes.get(place..) {
        Some([a, b, c, d, ..]) => u32::from_le_bytes([*a, *b, *c, *d]),
        _ => 0,
    }
}
