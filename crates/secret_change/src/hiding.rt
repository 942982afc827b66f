//! The new secret as it travels (MS-SAMR 2.2.11.1.1).

ghost use Rattle.std.specs.Prelude.{◌≡◌, ◌+◌, ◌≤◌, ◌++◌, List, ℕ, slice_range};
ghost use Rattle.secret_change.specs.Hiding.{hide_of, show_of};
ghost use Rattle.secret_change.specs.Secrets.{IsSecret};

use des_cipher::{des_back, des_block};

/// Hides a secret under the channel's key: its halves under DES, with the first 7 bytes of the key and the next 7.
#[tactic(auto, unfolding(crate::specs::Hiding::hide_of))]
pub fn hide(key: [u8; 16], hash: [u8; 16]) -> [u8; 16]
    ensures { result ≡ hide_of key hash }
{
    let first = des_block(seven_at(&key, 0), eight_at(&hash, 0));
    let second = des_block(seven_at(&key, 7), eight_at(&hash, 8));
    join_halves(first, second)
}

/// The secret that hidden bytes show under the channel's key.
#[tactic(auto, unfolding(crate::specs::Hiding::show_of))]
pub fn show(key: [u8; 16], hidden: [u8; 16]) -> [u8; 16]
    ensures { result ≡ show_of key hidden }
{
    let first = des_back(seven_at(&key, 0), eight_at(&hidden, 0));
    let second = des_back(seven_at(&key, 7), eight_at(&hidden, 8));
    join_halves(first, second)
}

/// Seven bytes of a key from a place on.
fn seven_at(key: &[u8; 16], at: usize) -> [u8; 7]
    requires { at ≤ 9 }
    ensures { result ≡ slice_range key.now at (at + 7) }
{
    let mut seven = [0; 7];
    seven.copy_from_slice(&key[at..at + 7]);
    seven
}

/// Eight bytes from a place on.
fn eight_at(bytes: &[u8; 16], at: usize) -> [u8; 8]
    requires { at ≤ 8 }
    ensures { result ≡ slice_range bytes.now at (at + 8) }
{
    let mut eight = [0; 8];
    eight.copy_from_slice(&bytes[at..at + 8]);
    eight
}

/// Two halves.
fn join_halves(first: [u8; 8], second: [u8; 8]) -> [u8; 16]
    ensures { result ≡ first ++ second }
{
    let mut whole = [0; 16];
    whole[..8].copy_from_slice(&first);
    whole[8..16].copy_from_slice(&second);
    whole
}

/// Hiding and showing under one key undo each other.
pub fn hiding_is_undone()
    ensures shown { (key secret : List ℕ) → IsSecret secret →
        show_of key (hide_of key secret) ≡ secret }
    ensures hidden { (key hidden : List ℕ) → IsSecret hidden →
        hide_of key (show_of key hidden) ≡ hidden }
    // What is hidden, and what is shown, is a secret again.
    ensures hidden_secret { (key secret : List ℕ) → IsSecret (hide_of key secret) }
    ensures shown_secret { (key hidden : List ℕ) → IsSecret (show_of key hidden) }
{}
