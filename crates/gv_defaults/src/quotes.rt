//! Quotes in a value, byte by byte, and where the value ends.
//!
//! `value_len` costs O(the bytes of the value).
ghost use Rattle.std.specs.Prelude.{◌≡◌, ◌≤◌, false, length, if◌then◌else◌, IfSome};
ghost use Rattle.gv_defaults.specs.Quotes.{is_space, quotes_after, escapes, ends, value_len};

// What a byte of a value stands in.
#[derive(Clone, Copy, Debug, PartialEq, Eq)]
pub(crate) enum Quotes {
    Bare,
    Double,
    Single,
}

/// How many bytes the value at the front has, up to a space, tab, carriage return, line feed or the end; `None` exactly
/// where a quote isn't closed.
#[tactic(auto, using(crate::proofs::Lengths::one_more))]
pub(crate) fn value_len(bytes: &[u8]) -> Option<usize>
    ensures value { result ≡ value_len bytes.now }
    ensures within { IfSome result (λ n. n ≤ length bytes.now) }
{
    let mut quotes = Quotes::Bare;
    let mut taken = false;
    for (i, b) in bytes.iter().enumerate() {
        if stops(quotes, taken, *b) {
            return Some(i);
        }
        let (next, takes) = after(quotes, taken, *b);
        quotes = next;
        taken = takes;
    }
    match quotes {
        Quotes::Bare => Some(bytes.len()),
        Quotes::Double => None,
        Quotes::Single => None,
    }
}

/// Space, tab, carriage return or line feed.
pub(crate) fn is_space(b: u8) -> bool
    ensures { result ≡ is_space b }
{
    b == b' ' || b == b'\t' || b == b'\r' || b == b'\n'
}

/// Whether the byte takes the next one along.
pub(crate) fn escapes(quotes: Quotes, b: u8) -> bool
    ensures { result ≡ escapes quotes b }
{
    match quotes {
        Quotes::Bare => b == b'\\',
        Quotes::Double => b == b'\\',
        Quotes::Single => false,
    }
}

/// The quotes behind a byte that no backslash took along.
pub(crate) fn quotes_after(quotes: Quotes, b: u8) -> Quotes
    ensures { result ≡ quotes_after quotes b }
{
    match quotes {
        Quotes::Bare => match b {
            b'"' => Quotes::Double,
            b'\'' => Quotes::Single,
            _ => Quotes::Bare,
        },
        Quotes::Double => match b {
            b'"' => Quotes::Bare,
            _ => Quotes::Double,
        },
        Quotes::Single => match b {
            b'\'' => Quotes::Bare,
            _ => Quotes::Single,
        },
    }
}

fn stops(quotes: Quotes, taken: bool, b: u8) -> bool
    ensures { result ≡ (if taken then false else ends quotes b) }
{
    if taken { false } else { ends(quotes, b) }
}

// The quotes behind a byte, and whether it takes the next one along.
fn after(quotes: Quotes, taken: bool, b: u8) -> (Quotes, bool)
    ensures quotes { result.0 ≡ (if taken then quotes else quotes_after quotes b) }
    ensures taken { result.1 ≡ (if taken then false else escapes quotes b) }
{
    if taken {
        (quotes, false)
    } else {
        (quotes_after(quotes, b), escapes(quotes, b))
    }
}

fn ends(quotes: Quotes, b: u8) -> bool
    ensures { result ≡ ends quotes b }
{
    match quotes {
        Quotes::Bare => is_space(b),
        Quotes::Double => false,
        Quotes::Single => false,
    }
}
