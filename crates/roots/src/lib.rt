// The square root of an f64, correctly rounded, from its bits. A guess by floats is tested exactly, in whole numbers;
// where it fails, the root is made digit by digit.
#![tactic(auto)]

ghost use Rattle.std.specs.Prelude.{◌≡◌, ◌&&◌, false, leb, ltb, ◌+◌, ◌*◌, ◌^◌, ◌/◌, ◌%◌, ◌<◌, ◌≤◌};
ghost use Rattle.std.specs.Float.{binary64};
ghost use Rattle.std.specs.Float.Ieee.{of_bits};
ghost use Rattle.std.specs.Float.Ieee.Exact.{HasValue};
ghost use Rattle.roots.specs.Root.{root_of};
ghost use Rattle.roots.specs.Nearest.{NearestWhole};

// The sign's bit of a pattern.
const SIGN: u64 = 0x8000_0000_0000_0000;

// Infinity's pattern.
const INFINITY: u64 = 0x7ff0_0000_0000_0000;

// The weight of a pattern's exponent field, and of a significand's leading digit: 2^52.
const LEADING: u64 = 0x10_0000_0000_0000;

// ---- the root digit by digit

// The whole root of the digits that are down so far, and what they exceed its square by.
#[derive(Clone, Copy)]
struct Root {
    root: u64,
    rem: u64,
}

// One more binary digit of the root: two more digits of the number come down.
fn digit(r: Root, pair: u64) -> Root
    requires { (r.rem ≤ 2 * r.root) × (r.root < 2 ^ 53) × (pair < 4) }
    ensures { (result.root * result.root + result.rem ≡ 4 * (r.root * r.root + r.rem) + pair) × (result.rem ≤ 2 * result.root) × (result.root ≤ 2 * r.root + 1) }
{
    let rem = r.rem * 4 + pair;
    let t = r.root * 4 + 1;
    if t <= rem {
        Root {
            root: r.root * 2 + 1,
            rem: rem - t,
        }
    } else {
        Root {
            root: r.root * 2,
            rem,
        }
    }
}

// The whole root of m * 2^52, and the remainder. `top` has m at its upper end; its digits come down two by two, then zeros.
fn digits(m: u64) -> Root
    requires { m < 2 ^ 54 }
    ensures { (result.root * result.root + result.rem ≡ m * 2 ^ 52) × (result.rem ≤ 2 * result.root) × (result.root < 2 ^ 53) }
{
    let mut r = Root { root: 0, rem: 0 };
    let mut top = m * 1024;
    for _ in 0..53usize {
        r = digit(r, top / 0x4000_0000_0000_0000);
        top = top % 0x4000_0000_0000_0000 * 4;
    }
    r
}

// The whole number nearest to the root of m * 2^52, digit by digit.
fn nearest_by_digits(m: u64) -> u64
    requires { (2 ^ 52 ≤ m) × (m < 2 ^ 54) }
    ensures { NearestWhole (m * 2 ^ 52) result }
{
    let r = digits(m);
    if r.rem > r.root { r.root + 1 } else { r.root }
}

// ---- a guess, and its test

// One of Newton's steps towards 1 over the root of twice `half`.
fn newton(y: f64, half: f64) -> f64 {
    y * (1.5 - half * y * y)
}

// A guess at the root of a number from 1 up to 4, whose pattern is b. Half the pattern, taken from a constant, is 1 over the root
// but for a few percent. Nothing rests on the guess: `nearest_whole` tests it.
fn guess(b: u64) -> f64
    requires { (0x3ff0_0000_0000_0000 ≤ b) × (b < 0x4010_0000_0000_0000) }
{
    let v = f64::from_bits(b);
    let half = 0.5 * v;
    let y0 = f64::from_bits(0x5fe6_eb50_c7b5_37a9 - b / 2);
    let y = newton(newton(newton(y0, half), half), half);
    let s = v * y;
    s + 0.5 * y * (v - s * s)
}

// A guess at the root of a number from 0 up to 10^300, good to one part in 500 from 2^−1022 on; of any other number 0. Nothing rests on it: a caller tests it.
pub fn rough_sqrt(x: f64) -> f64 {
    if x < 1.0e300 {
        let b = x.to_bits();
        if b < INFINITY {
            return x * newton(f64::from_bits(0x5fe6_eb50_c7b5_37a9 - b / 2), 0.5 * x);
        }
    }
    0.0
}

// The 53 digits of that guess, or of 1 where it isn't from 1 up to 2.
fn guess_digits(b: u64) -> u64
    requires { (0x3ff0_0000_0000_0000 ≤ b) × (b < 0x4010_0000_0000_0000) }
    ensures { (2 ^ 52 ≤ result) × (result < 2 ^ 53) }
{
    let s = guess(b);
    if s >= 1.0 && s < 2.0 {
        return s.to_bits() % LEADING + LEADING;
    }
    LEADING
}

// A number as hi * 2^54 + lo.
#[derive(Clone, Copy)]
struct Wide {
    hi: u64,
    lo: u64,
}

// q * q, by the halves of q.
fn square(q: u64) -> Wide
    requires { q < 2 ^ 53 }
    ensures { (result.hi * 2 ^ 54 + result.lo ≡ q * q) × (result.lo < 2 ^ 55) }
{
    let h = q / 0x800_0000;
    let l = q % 0x800_0000;
    let b = 2 * h * l;
    Wide {
        hi: h * h + b / 0x800_0000,
        lo: b % 0x800_0000 * 0x800_0000 + l * l,
    }
}

// 5 * 2^55, more than a candidate's square ever exceeds its number by.
const LEVEL: u64 = 0x280_0000_0000_0000;

// A candidate q for the whole number nearest to the root of n, with over = n - q * q + LEVEL.
#[derive(Clone, Copy)]
struct Candidate {
    q: u64,
    over: u64,
}

// The candidate q for m * 2^52, where the upper part of that number, m / 4, is near that of the square s of q.
fn as_candidate(q: u64, s: Wide, m: u64) -> Candidate
    requires { (s.hi * 2 ^ 54 + s.lo ≡ q * q) × (s.lo < 2 ^ 55) × (s.hi ≤ m / 4 + 1) × (m / 4 ≤ s.hi + 2) × (m < 2 ^ 54) }
    ensures { (result.q ≡ q) × (result.over + result.q * result.q ≡ m * 2 ^ 52 + 5 * 2 ^ 55) × (result.over < 2 ^ 62) }
{
    let high = (m / 4 + 2 - s.hi) * 0x40_0000_0000_0000;
    Candidate {
        q,
        over: high + m % 4 * 0x10_0000_0000_0000 + 0x200_0000_0000_0000 - s.lo,
    }
}

// Whether q is the one: n is above q * q - q, and at most q * q + q.
fn is_nearest(c: Candidate) -> bool
    requires { (c.q < 2 ^ 54) × (c.over < 2 ^ 63) }
    ensures { result ≡ (leb c.over (5 * 2 ^ 55 + c.q) && ltb (5 * 2 ^ 55) (c.over + c.q)) }
{
    c.over <= LEVEL + c.q && c.over + c.q > LEVEL
}

// The candidate's neighbour towards the root of n: the next one up where n is above q * q + q.
fn nudged(c: Candidate) -> Candidate
    requires { (0 < c.q) × (c.q < 2 ^ 53) × (c.over < 2 ^ 62) }
    ensures { (result.over + result.q * result.q ≡ c.over + c.q * c.q) × (result.q ≤ 2 ^ 53) × (result.over < 2 ^ 63) }
{
    if c.over > LEVEL + c.q {
        Candidate {
            q: c.q + 1,
            over: c.over - (2 * c.q + 1),
        }
    } else {
        Candidate {
            q: c.q - 1,
            over: c.over + (2 * c.q - 1),
        }
    }
}

// The whole number nearest to the root of m * 2^52: q or a neighbour of it if the test holds, else digit by digit.
fn nearest_whole(q: u64, m: u64) -> u64
    requires { (2 ^ 52 ≤ q) × (q < 2 ^ 53) × (2 ^ 52 ≤ m) × (m < 2 ^ 54) }
    ensures { NearestWhole (m * 2 ^ 52) result }
{
    let s = square(q);
    if s.hi > m / 4 + 1 || m / 4 > s.hi + 2 {
        return nearest_by_digits(m);
    }
    let c = as_candidate(q, s, m);
    if is_nearest(c) {
        return c.q;
    }
    let e = nudged(c);
    if is_nearest(e) {
        return e.q;
    }
    nearest_by_digits(m)
}

// ---- from the pattern to the pattern

// m shifted up to 53 digits: the digits, and by how many places.
#[derive(Clone, Copy)]
struct Scaled {
    m: u64,
    by: u64,
}

// m below 2^53, shifted.
fn shifted(m: u64) -> Scaled
    requires { (0 < m) × (m < 2 ^ 53) }
    ensures { (result.m ≡ m * 2 ^ result.by) × (2 ^ 52 ≤ result.m) × (result.m < 2 ^ 53) × (result.by ≤ 52) }
{
    // 11 zeros lead a number of 53 digits
    let by = m.leading_zeros() - 11;
    Scaled {
        m: m << by,
        by: u64::from(by),
    }
}

// The number m * 2^up, in units of 2^-1126, with m of 53 digits.
#[derive(Clone, Copy)]
struct Parts {
    m: u64,
    up: u64,
}

// What a pattern above zero and below infinity's stands for, subnormal or not.
fn apart(b: u64) -> Parts
    requires { (0 < b) × (b < 0x7ff0_0000_0000_0000) }
    ensures { (2 ^ 52 ≤ result.m) × (result.m < 2 ^ 53) × (result.up ≤ 2097) × HasValue (of_bits binary64 b) false (result.m * 2 ^ result.up) (2 ^ 1126) }
{
    let field = b / LEADING;
    let low = b % LEADING;
    if field == 0 {
        let s = shifted(low);
        return Parts {
            m: s.m,
            up: 52 - s.by,
        };
    }
    Parts {
        m: low + LEADING,
        up: field + 51,
    }
}

// m or 2 m: what is left of m * 2^up when an even power is taken out.
fn evened(m: u64, up: u64) -> u64
    requires { (2 ^ 52 ≤ m) × (m < 2 ^ 53) }
    ensures { (2 ^ 52 ≤ result) × (result < 2 ^ 54) × (result ≡ m * 2 ^ (up % 2)) }
{
    if up % 2 == 0 { m } else { m * 2 }
}

// The root's pattern, of a pattern above zero and below infinity's. The root's leading digit adds one to the exponent's field.
fn root_bits(b: u64) -> u64
    requires { (0 < b) × (b < 0x7ff0_0000_0000_0000) }
    ensures { (result < 0x7ff0_0000_0000_0000) × (of_bits binary64 result ≡ root_of (of_bits binary64 b)) }
{
    let p = apart(b);
    // m or 2 m as a number from 1 up to 4: its pattern
    let scaled = p.m + 0x3fe0_0000_0000_0000 + p.up % 2 * LEADING;
    (p.up / 2 + 485) * LEADING + nearest_whole(guess_digits(scaled), evened(p.m, p.up))
}

// Rust's f64::sqrt: the root rounded to nearest. -0 gives -0, a negative number or NaN gives NaN.
pub fn sqrt(x: f64) -> f64
    ensures { result ≡ root_of x }
{
    if x.is_nan() {
        return x;
    }
    let b = x.to_bits();
    if b % SIGN == 0 {
        return x;
    }
    if b >= SIGN {
        return f64::NAN;
    }
    if b >= INFINITY {
        return x;
    }
    f64::from_bits(root_bits(b))
}
