//! Numbers as decimal text.

ghost use Rattle.std.specs.Prelude.{◌≡◌, ◌<◌, ◌^◌, ℕ, length, IfSome, IfNone, IsTrue};
ghost use Rattle.std.specs.Char.{is_ascii_digit};
ghost use Rattle.std.specs.Fmt.{decimal};
ghost use Rattle.std.specs.List.{list_all};
ghost use Rattle.std.specs.Str.Parse.{digits_value};
ghost use Rattle.wire_base.specs.Decimal.{has_no_leading_zero, number_of_bits, decimal_of};

/// The number that the text writes in decimal digits, without a sign or a leading zero (this project's own choice).
/// None exactly where the text has another form or the number doesn't fit 64 bits. It takes no memory.
#[tactic(auto, using(crate::proofs::DecimalLaws::reading))]
pub(crate) fn read_decimal(text: &[u8]) -> Option<u64>
    ensures value { result ≡ decimal_of text.now }
    ensures found { IfSome result (λ n. text.now ≡ decimal n) }
    ensures none { IfNone result ((n : ℕ) → n < 2 ^ 64 → text.now ≡ decimal n → ⊥) }
{
    numeral(text)
}

/// The number, by the form of its text.
#[tactic(auto, using(crate::proofs::DecimalLaws::forms), unfolding(crate::specs::Decimal::decimal_of))]
fn numeral(text: &[u8]) -> Option<u64>
    ensures { result ≡ decimal_of text.now }
{
    if is_led(text) && are_digits(text) {
        digits_as_number(text)
    } else {
        None
    }
}

/// Whether there is a first byte that isn't a zero in front of others.
fn is_led(text: &[u8]) -> bool
    ensures { result ≡ has_no_leading_zero text.now }
{
    !matches!(text, [] | [b'0', _, ..])
}

/// Whether each byte is a decimal digit.
pub fn are_digits(text: &[u8]) -> bool
    ensures { result ≡ list_all is_ascii_digit text.now }
{
    text.iter().all(|byte| byte.is_ascii_digit())
}

/// The number of digits.
#[tactic(auto, using(crate::proofs::DecimalLaws::parsing))]
fn digits_as_number(text: &[u8]) -> Option<u64>
    requires some { 0 < length text.now }
    requires digits { IsTrue (list_all is_ascii_digit text.now) }
    ensures { result ≡ number_of_bits 64 (digits_value 10 text.now) }
{
    str::from_utf8(text).ok()?.parse::<u64>().ok()
}
