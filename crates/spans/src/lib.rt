// Where a parameter lies among the knots: the span of the flat knots that holds it, and the two distinct knots around it.
#![tactic(auto)]

ghost use Rattle.std.specs.Prelude.{◌≡◌, ◌+◌, ◌-◌, ◌*◌, ◌≤◌, ◌<◌, length, Bool, Float};
ghost use Rattle.spans.specs.Spans.{clamp_of, leading, Tests, reach_of, back_of, span_of, passed_of, span_end, span_around, start_unless, in_period, turn_of, turn_span, place_of};

// `u`, or the end of the range that it lies beyond, as by Rust's `f64::clamp`.
#[tactic(auto, unfolding(crate::specs::Spans::clamp_of))]
pub fn clamp(u: f64, lo: f64, hi: f64) -> f64
    ensures { result ≡ clamp_of lo hi u }
{
    if u < lo {
        lo
    } else if u > hi {
        hi
    } else {
        u
    }
}

// How many numbers from the front on pass the test.
fn leading<F: Fn(f64) -> bool>(s: &[f64], test: F) -> usize
    requires callable { F.IsAlwaysCallable test }
    ensures value { (t : Float → Bool) → Tests F.Fn t test → result ≡ leading t s.now }
    ensures bound { result ≤ length s.now }
{
    for i in 0..s.len() {
        if !test(s[i]) {
            return i;
        }
    }
    s.len()
}

// From number `from` on, `n` steps at most, each to the next knot while that is at most `u`.
fn reach(flat: &[f64], from: usize, n: usize, u: f64) -> usize
    requires { from + n + 1 ≤ length flat.now }
    ensures { (result ≡ reach_of n from u flat.now) × (from ≤ result) × (result ≤ from + n) }
{
    from + leading(&flat[from + 1..from + 1 + n], |k| k <= u)
}

// Back from number `from`, to `lo` at most, while the knot there opens no span.
fn back(flat: &[f64], lo: usize, from: usize) -> usize
    requires { (lo ≤ from) × (from + 1 < length flat.now) }
    ensures { (result ≡ back_of (from - lo) lo flat.now) × (lo ≤ result) × (result ≤ from) }
{
    for s in (lo..from).rev() {
        if !(flat[s + 1] >= flat[s + 2]) {
            return s + 1;
        }
    }
    lo
}

// The number of the flat knot that opens the span of `u`. The scan finds what the Rust's halving search finds: there is one only.
pub fn span(flat: &[f64], p: usize, u: f64) -> usize
    requires { (p ≤ 25) × (2 * p + 2 ≤ length flat.now) }
    ensures { (result ≡ span_of p flat.now u) × (p ≤ result) × (result + p + 1 < length flat.now) }
{
    let s = reach(flat, p, flat.len() - (2 * p + 2), u);
    back(flat, p, s)
}

// How many of the first `n` knots, from the front, are at most `t`.
fn passed(knots: &[f64], n: usize, t: f64) -> usize
    requires { n ≤ length knots.now }
    ensures { (result ≡ passed_of n 0 t knots.now) × (result ≤ n) }
{
    leading(&knots[..n], |k| k <= t)
}

// The number of the knot that ends the span of `t`: at least 1, and at most the last.
fn span_end(knots: &[f64], t: f64) -> usize
    requires { 2 ≤ length knots.now }
    ensures { (result ≡ span_end knots.now t) × (1 ≤ result) × (result < length knots.now) }
{
    let s = passed(knots, knots.len() - 1, t);
    if s == 0 { 1 } else { s }
}

// The two neighbouring knots around `t`.
#[tactic(auto, unfolding(crate::specs::Spans::span_around))]
pub fn span_around(knots: &[f64], t: f64) -> points::Interval
    requires { 2 ≤ length knots.now }
    ensures { result ≡ span_around knots.now t }
{
    let j = span_end(knots, t);
    points::Interval {
        lo: knots[j - 1],
        hi: knots[j],
    }
}

// `x`, or `a` where it leaves [a, b).
#[tactic(auto, unfolding(crate::specs::Spans::start_unless))]
fn start_unless(a: f64, b: f64, x: f64) -> f64
    ensures { result ≡ start_unless a b x }
{
    if a <= x && x < b { x } else { a }
}

// `u` moved into the period from `first` to `last`; `first` where the rounded result leaves it.
#[tactic(auto, unfolding(crate::specs::Spans::in_period, crate::specs::Spans::turned_back))]
fn in_period(u: f64, first: f64, last: f64) -> f64
    ensures { result ≡ in_period first last u }
{
    let period = last - first;
    start_unless(
        first,
        last,
        u - period * floats::floor((u - first) / period),
    )
}

// The number, in the first turn, of the knot that opens the span of `t`.
#[tactic(auto, unfolding(crate::specs::Spans::turn_span))]
fn turn_span(knots: &[f64], t: f64) -> usize
    requires { 2 ≤ length knots.now }
    ensures { (result ≡ turn_span knots.now t) × (result < turn_of knots.now) }
{
    (span_end(knots, t) - 1) % (knots.len() / 2)
}

// Where the net of a piece around `t` is made, the knots being a line's, unrolled: at `t`, and on a closed line at `t` moved into the period, in the span that `t` lies in.
pub fn place(closed: bool, knots: &[f64], t: f64) -> f64
    requires { 2 ≤ length knots.now }
    ensures { result ≡ place_of closed knots.now t }
{
    if closed {
        let i = turn_span(knots, t);
        let u = in_period(t, knots[0], knots[knots.len() / 2]);
        start_unless(knots[i], knots[i + 1], u)
    } else {
        t
    }
}
