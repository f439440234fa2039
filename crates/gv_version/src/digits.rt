//! Runs of digits, compared as they are written: no number is made of them, so none can be too large.
//! Each call is O(bytes) and takes no memory.
ghost use Rattle.std.specs.Prelude.{◌≡◌, ◌≤◌, length, true};
ghost use Rattle.std.specs.List.{list_all, prefix_len};
ghost use Rattle.std.specs.Ordering.{nat_cmp};
ghost use Rattle.gv_version.specs.Bytes.{behind, front, is_digit};
ghost use Rattle.gv_version.specs.Order.{cmp_later, is_zero, number_of, stripped};

use std::cmp::Ordering;

/// How many digits there are in front.
pub(crate) fn run_length(bytes: &[u8]) -> usize
    ensures length { result ≡ prefix_len is_digit bytes.now }
    ensures within { result ≤ length bytes.now }
{
    for i in 0..bytes.len() {
        if !bytes[i].is_ascii_digit() {
            return i;
        }
    }
    bytes.len()
}

/// The digits in front, and what follows them.
pub(crate) fn split_run(bytes: &[u8]) -> (&[u8], &[u8])
    ensures digits { result.0.now ≡ front is_digit bytes.now }
    ensures rest { result.1.now ≡ behind is_digit bytes.now }
{
    bytes.split_at(run_length(bytes))
}

/// Compares digits as integers: without leading zeros, the longer one is greater.
#[tactic(auto, using(crate::proofs::Integers::integers))]
pub(crate) fn compare_integers(x: &[u8], y: &[u8]) -> Ordering
    requires x { list_all is_digit x.now ≡ true }
    requires y { list_all is_digit y.now ≡ true }
    ensures { result ≡ nat_cmp (number_of x.now) (number_of y.now) }
{
    let x = without_leading_zeros(x);
    let y = without_leading_zeros(y);
    x.len().cmp(&y.len()).then(x.cmp(y))
}

/// Compares numeric components behind the first: as texts without the zeros at their ends where
/// either begins with 0, else as integers.
pub(crate) fn compare_later(x: &[u8], y: &[u8]) -> Ordering
    requires x { list_all is_digit x.now ≡ true }
    requires y { list_all is_digit y.now ≡ true }
    ensures { result ≡ cmp_later x.now y.now }
{
    if x.starts_with(b"0") || y.starts_with(b"0") {
        without_trailing_zeros(x).cmp(without_trailing_zeros(y))
    } else {
        compare_integers(x, y)
    }
}

fn without_leading_zeros(digits: &[u8]) -> &[u8]
    ensures { result.now ≡ behind is_zero digits.now }
{
    let mut rest = digits;
    while let [b'0', more @ ..] = rest {
        rest = more;
    }
    rest
}

#[tactic(auto, using(crate::proofs::Zeros::zero_at_end, crate::proofs::Zeros::no_zero_at_end))]
fn without_trailing_zeros(digits: &[u8]) -> &[u8]
    ensures { result.now ≡ stripped digits.now }
{
    let mut end = digits.len();
    while end > 0 && digits[end - 1] == b'0' {
        end -= 1;
    }
    &digits[..end]
}
