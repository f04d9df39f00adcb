//! Numbers as words.

ghost use Rattle.std.specs.Prelude.{◌≡◌, ◌≤◌, ◌<◌, ◌^◌, IfSome};
ghost use Rattle.host_run.specs.Grammar.{number, word_value, after};
ghost use Rattle.std.specs.Option.{option_copied};

/// The most decimal digits of a number.
pub const DECIMAL_DIGITS: usize = 20;

/// The most hexadecimal digits of a number.
pub const HEXADECIMAL_DIGITS: usize = 16;

/// The number that one to `most` digits write in a base, where it is at most `greatest`.
pub fn number(base: u32, most: usize, greatest: u64, digits: &str) -> Option<u64>
    requires least_base { 2 ≤ base }
    requires greatest_base { base ≤ 36 }
    ensures value { result ≡ number base most greatest digits.now }
    ensures within { IfSome result (λ value. value ≤ greatest) }
{
    if digits.len() > most {
        return None;
    }
    // A plus is no digit, but `from_str_radix` would take one.
    if digits.starts_with('+') {
        return None;
    }
    match u64::from_str_radix(digits, base) {
        Ok(value) if value <= greatest => Some(value),
        _ => None,
    }
}

/// The number of an argument of `native`: in decimal digits, or in hexadecimal digits after `0x`.
#[tactic(auto, unfolding(crate::specs::Grammar::word_value))]
pub fn word_value(word: &str) -> Option<u64>
    ensures { result ≡ word_value word.now }
{
    match after("0x", word) {
        Some(digits) => number(16, HEXADECIMAL_DIGITS, u64::MAX, digits),
        None => number(10, DECIMAL_DIGITS, u64::MAX, word),
    }
}

/// What follows `start` in a word that begins with it.
pub fn after<'a>(start: &str, word: &'a str) -> Option<&'a str>
    ensures { option_copied result ≡ after start.now word.now }
{
    word.strip_prefix(start)
}
