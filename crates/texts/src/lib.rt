// Text into bytes: each function writes at a place of a lent buffer and answers the place behind what it wrote.
#![tactic(auto)]

ghost use Rattle.std.specs.Prelude.{◌≡◌, ◌+◌, ◌<◌, ◌≤◌, length};
ghost use Rattle.lists.specs.Parts.{patch};
ghost use Rattle.texts.specs.Texts.{Wrote, hex_digit, digits_of, places_in, decimal_of, bits_of, float_text};

pub fn put_bytes(out: &mut [u8], at: usize, text: &[u8]) -> usize
    requires { at + length text.now ≤ length out.old }
    ensures { Wrote out.old at text.now out.new result }
{
    let end = at + text.len();
    out[at..end].copy_from_slice(text);
    end
}

#[tactic(auto, unfolding(crate::specs::Texts::hex_digit))]
fn hex_digit(d: u64) -> u8
    requires { d < 16 }
    ensures { result ≡ hex_digit d }
{
    if d < 10 {
        48 + (d % 256) as u8
    } else {
        55 + (d % 256) as u8
    }
}

// The last `k` digits of `n`, written from the last one on.
fn put_digits(out: &mut [u8], at: usize, base: u64, k: usize, n: u64)
    requires { (at + k ≤ length out.old) × (1 ≤ base) × (base ≤ 16) }
    ensures { out.new ≡ patch out.old at (digits_of base k n) }
{
    let mut left = n;
    for i in (at..at + k).rev() {
        out[i] = hex_digit(left % base);
        left = left / base;
    }
}

// How many decimal digits `n` has.
fn places(n: u64) -> usize
    ensures { (result ≡ places_in n n) × (result ≤ 20) }
{
    let mut left = n;
    let mut k = 1usize;
    // By `while`: the number of rounds is what is counted.
    while left >= 10 {
        left = left / 10;
        k += 1;
    }
    k
}

pub fn put_decimal(out: &mut [u8], at: usize, n: u64) -> usize
    requires { at + 20 ≤ length out.old }
    ensures { Wrote out.old at (decimal_of n) out.new result }
{
    let k = places(n);
    put_digits(out, at, 10, k, n);
    at + k
}

// The bits that stand for a float: zeros as +0.
fn bits(x: f64) -> u64
    ensures { result ≡ bits_of x }
{
    if x == 0.0 {
        return 0;
    }
    patterns::pattern(x)
}

// A space and sixteen hexadecimal digits.
pub fn put_float(out: &mut [u8], at: usize, x: f64) -> usize
    requires { at + 17 ≤ length out.old }
    ensures { Wrote out.old at (float_text x) out.new result }
{
    out[at] = 32;
    put_digits(out, at + 1, 16, 16, bits(x));
    at + 17
}
