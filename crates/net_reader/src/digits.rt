//! Numbers in decimal digits.
ghost use Rattle.std.specs.Prelude.{◌≡◌, ◌<◌, ◌^◌};
ghost use Rattle.std.specs.Option.{SomeIff};
ghost use Rattle.net_reader.specs.Digits.{are_digits, number_of, number_to, value_of_digits};

/// The number that a word is: one or more digits of ASCII, with any number of leading zeros and a value below 2^64.
pub fn number_of(word: &[u8]) -> Option<u64>
    ensures { result ≡ number_of word.now }
{
    if !are_digits(word) {
        return None;
    }
    value_of_digits(word)
}

/// The number from 1 to the greatest that a word is.
pub(crate) fn number_to(greatest: u32, word: &[u8]) -> Option<u32>
    ensures { result ≡ number_to greatest word.now }
{
    let number = number_of(word)?;
    if number < 1 || number > u64::from(greatest) {
        return None;
    }
    Some(number as u32)
}

fn are_digits(word: &[u8]) -> bool
    ensures { result ≡ are_digits word.now }
{
    !word.is_empty() && word.iter().all(|byte| byte.is_ascii_digit())
}

fn value_of_digits(digits: &[u8]) -> Option<u64>
    ensures { SomeIff result (value_of_digits digits.now < 2 ^ 64) (value_of_digits digits.now) }
{
    let mut value = 0u64;
    for digit in digits {
        let unit = u64::from(digit.saturating_sub(b'0'));
        let Some(tens) = value.checked_mul(10) else {
            return None;
        };
        let Some(more) = tens.checked_add(unit) else {
            return None;
        };
        value = more;
    }
    Some(value)
}
