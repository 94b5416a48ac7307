// Decimal digits from the twenty powers of ten.
ghost use Rattle.std.specs.Prelude.{◌≡◌, ◌+◌, ◌^◌, ◌≤◌, ◌<◌, length};
ghost use Rattle.listing.specs.Decimal.{decimal};
ghost use Rattle.listing.specs.Internal.{digit_at, Puts, Digits};

// The twenty powers of ten from 1 to 10,000,000,000,000,000,000: a table, since `pow` multiplies anew for each digit.
const POWERS: [u64; 20] = [
    1,
    10,
    100,
    1000,
    10000,
    100000,
    1000000,
    10000000,
    100000000,
    1000000000,
    10000000000,
    100000000000,
    1000000000000,
    10000000000000,
    100000000000000,
    1000000000000000,
    10000000000000000,
    100000000000000000,
    1000000000000000000,
    10000000000000000000,
];

// A power of ten.
fn power(i: usize) -> u64
    requires { i < 20 }
    ensures { result ≡ 10 ^ i }
{
    POWERS[i]
}

// The decimal digit of a number at a power of ten.
fn digit(n: u64, i: usize) -> u8
    requires { i < 20 }
    ensures { result ≡ digit_at n (10 ^ i) }
{
    48 + (n / power(i) % 10) as u8
}

// How many decimal digits a number has.
fn digits(n: u64) -> usize
    ensures { Digits n result }
{
    (1..20).find(|&count| n < power(count)).unwrap_or(20)
}

// Writes a number in decimal digits: the position past them.
pub(super) fn put_decimal(out: &mut [u8], at: usize, n: u64) -> usize
    requires { at + 20 ≤ length out.old }
    ensures { Puts at (decimal n) out result }
{
    let mut next = at;
    for left in (0..digits(n)).rev() {
        out[next] = digit(n, left);
        next += 1;
    }
    next
}
