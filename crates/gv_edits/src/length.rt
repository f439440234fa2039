//! The length of a file in the script of a session. O(bytes).
ghost use Rattle.std.specs.Prelude.{◌≡◌, ◌≤◌, ◌<◌, ◌+◌, ◌-◌, ◌*◌, true, MatchOption};
ghost use Rattle.std.specs.List.{list_all};
ghost use Rattle.gv_edits.specs.Length.{digits_behind, is_decimal, is_digit, length_of};

const MOST: u32 = 16_777_216;

/// The number that a word is: digits without a leading zero but for `0` itself, at most the most bytes of a file.
pub(crate) fn length_of(word: &[u8]) -> Option<u32>
    ensures { result ≡ length_of word.now }
{
    if !is_decimal(word) {
        return None;
    }
    number_of(word)
}

fn is_digit(b: u8) -> bool
    ensures { result ≡ is_digit b }
{
    48 <= b && b <= 57
}

fn are_digits(bytes: &[u8]) -> bool
    ensures { result ≡ list_all is_digit bytes.now }
{
    for b in bytes {
        if !is_digit(*b) {
            return false;
        }
    }
    true
}

fn is_decimal(word: &[u8]) -> bool
    ensures { result ≡ is_decimal word.now }
{
    match word {
        [] => false,
        [b] => is_digit(*b),
        [b, bytes @ ..] => is_digit(*b) && *b != b'0' && are_digits(bytes),
    }
}

// The number of these digits, unless it is above the most bytes of a file.
#[tactic(auto, using(crate::proofs::Numbers::over))]
fn number_of(digits: &[u8]) -> Option<u32>
    requires { list_all is_digit digits.now ≡ true }
    ensures { MatchOption result (16777216 < digits_behind 0 digits.now) (λ n. (n ≡ digits_behind 0 digits.now) × (n ≤ 16777216)) }
{
    let mut n: u32 = 0;
    for b in digits {
        let more = n * 10 + u32::from(*b - b'0');
        if more > MOST {
            return None;
        }
        n = more;
    }
    Some(n)
}
