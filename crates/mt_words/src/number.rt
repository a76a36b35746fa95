//! Numbers in the words of a command line.
ghost use Rattle.std.specs.Prelude.{◌≡◌};
ghost use Rattle.std.specs.Char.{is_ascii_digit};
ghost use Rattle.std.specs.List.{list_all};
ghost use Rattle.mt_words.specs.Decimal.{decimal_between};

fn is_digits(word: &str) -> bool
    ensures { result ≡ list_all is_ascii_digit word.now }
{
    word.as_bytes().iter().all(|byte| byte.is_ascii_digit())
}

/// The number of a word of digits alone, from `low` to `high`. `None` where the word is no such number.
pub fn decimal_between(low: u64, high: u64, word: &str) -> Option<u64>
    ensures { result ≡ decimal_between low high word.now }
{
    if !is_digits(word) {
        return None;
    }
    let Ok(number) = word.parse::<u64>() else {
        return None;
    };
    (low <= number && number <= high).then_some(number)
}
