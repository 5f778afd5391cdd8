// Numbers as a script writes them: decimal digits without a sign, of any length, leading zeros allowed.
ghost use Rattle.std.specs.Prelude.{◌≡◌, ◌≤◌, ℕ};
ghost use Rattle.grammar.specs.Numbers.{number_up_to};

// The number that a word of digits writes, or `most` where that is smaller; nothing for any other word.
pub fn number_up_to(most: u64, word: &[u8]) -> Option<u64>
    ensures { result ≡ number_up_to most word.now }
{
    if word.is_empty() {
        return None;
    }
    // A `for`: it returns early at a byte that is no digit and folds the others, and `try_fold` would do both in one closure.
    let mut number: u64 = 0;
    for byte in word {
        if !byte.is_ascii_digit() {
            return None;
        }
        let digit = u64::from(*byte - b'0');
        number = number.saturating_mul(10).saturating_add(digit).min(most);
    }
    Some(number)
}

// A type of numbers that a command holds.
pub(crate) trait Width: Sized {
    ghost MAX: { ℕ };

    ghost value: { Self → ℕ };

    const MAX: u64;

    fn narrowed(number: u64) -> Self
        requires { number ≤ MAX }
        ensures { value result ≡ number };
}

// The same lines for each, since no macro of this repository may write an impl.
impl Width for u8 {
    ghost MAX = { 255 };

    ghost value = { λ number. number };

    const MAX: u64 = u8::MAX as u64;

    fn narrowed(number: u64) -> u8 {
        number as u8
    }
}

impl Width for u16 {
    ghost MAX = { 65535 };

    ghost value = { λ number. number };

    const MAX: u64 = u16::MAX as u64;

    fn narrowed(number: u64) -> u16 {
        number as u16
    }
}

impl Width for u32 {
    ghost MAX = { 4294967295 };

    ghost value = { λ number. number };

    const MAX: u64 = u32::MAX as u64;

    fn narrowed(number: u64) -> u32 {
        number as u32
    }
}

impl Width for u64 {
    ghost MAX = { 18446744073709551615 };

    ghost value = { λ number. number };

    const MAX: u64 = u64::MAX;

    fn narrowed(number: u64) -> u64 {
        number
    }
}

impl Width for usize {
    ghost MAX = { 18446744073709551615 };

    ghost value = { λ number. number };

    const MAX: u64 = usize::MAX as u64;

    fn narrowed(number: u64) -> usize {
        number as usize
    }
}
