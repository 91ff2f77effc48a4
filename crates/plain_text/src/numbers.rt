//! Numbers in decimal digits.
ghost use Rattle.std.specs.Prelude.{◌≡◌, ◌<◌, ◌≤◌, ◌^◌, ℕ, IsTrue, Some, IfSome, IfNone};
ghost use Rattle.std.specs.List.{list_all};
ghost use Rattle.std.specs.Str.Parse.{digits_value};
ghost use Rattle.plain_text.specs.Numbers.{is_digit, is_decimal, has_needless_zero, number_text};

fn is_digit(byte: u8) -> bool
    ensures { result ≡ is_digit byte }
{
    byte.is_ascii_digit()
}

fn are_digits(bytes: &[u8]) -> bool
    ensures { result ≡ list_all is_digit bytes.now }
{
    bytes.iter().all(|byte| is_digit(*byte))
}

fn is_decimal(text: &str) -> bool
    ensures { result ≡ is_decimal text.now }
{
    let bytes = text.as_bytes();
    !bytes.is_empty() && are_digits(bytes)
}

/// The decimal number that the text is, if it is below 2^32. Leading zeros are allowed, a sign is not.
pub fn decimal(text: &str) -> Option<u32>
    ensures value { IfSome result (λ n. IsTrue (is_decimal text.now) × (digits_value 10 text.now ≡ n)) }
    ensures none { IfNone result (IsTrue (is_decimal text.now) → 2 ^ 32 ≤ digits_value 10 text.now) }
{
    if !is_decimal(text) {
        return None;
    }
    text.parse::<u32>().ok()
}

/// Whether the word has a leading zero that is not its only digit.
fn has_needless_zero(word: &[u8]) -> bool
    ensures { result ≡ has_needless_zero word.now }
{
    matches!(word, [b'0', _, ..])
}

/// The number below 2^32 that the word is, in decimal digits without needless leading zeros: as a `u32` is printed.
pub fn number(word: &str) -> Option<u32>
    ensures value { IfSome result (λ n. word.now ≡ number_text n) }
    ensures found { (n : ℕ) → n < 2 ^ 32 → word.now ≡ number_text n → result ≡ Some n }
{
    if has_needless_zero(word.as_bytes()) {
        return None;
    }
    decimal(word)
}
