// A line's knots unrolled, its flat knots and bounds, and the breaks of an asked range.
#![tactic(auto)]

ghost use Rattle.std.specs.Prelude.{◌≡◌, true, cond, ◌++◌, ◌+◌, ◌-◌, ◌*◌, ◌≤◌, length, take, drop};
ghost use Rattle.lists.specs.Parts.{patch};
ghost use Rattle.lists.specs.Tests.{total};
ghost use Rattle.lines.specs.Admit.{beyond_of};
ghost use Rattle.lines.specs.Lines.{seen};
ghost use Rattle.knots.specs.Knots.{HasKnots, HasTurn, HasBounds, flat_knots, open_bounds, bounds_of, shifted, unrolled_of, turn_flat, line_flat, flat_of, turn_poles, inside, breaks_in};

use lines::Line;
use points::Interval;

// Each knot as often as its multiplicity says; answers how many these are.
// What fills the front of `out` answers how much, and not that front as a slice: of `out` after the loan it could promise nothing.
pub fn flat_knots(knots: &[f64], mults: &[u32], out: &mut [f64]) -> usize
    requires { (length mults.now ≡ length knots.now) × (total mults.now ≤ length out.old) }
    ensures { (result ≡ total mults.now)
        × (out.new ≡ patch out.old 0 (flat_knots knots.now mults.now))
        × (take result out.new ≡ flat_knots knots.now mults.now) }
{
    let mut at = 0;
    for (i, k) in knots.iter().enumerate() {
        let m = mults[i] as usize;
        out[at..at + m].fill(*k);
        at += m;
    }
    at
}

// `out` becomes the numbers of `s`, each with `d` added.
fn shift(s: &[f64], d: f64, out: &mut [f64])
    requires { length s.now ≡ length out.old }
    ensures { out.new ≡ shifted d s.now }
{
    for (i, x) in s.iter().enumerate() {
        out[i] = *x + d;
    }
}

// The flat knots around one turn of a closed line of `n` poles: the last `p` of the turn a period earlier, the turn with both ends, and the knots behind the end a period later, `n + 2 p + 1` in all.
pub fn flat_turn(flat: &[f64], n: usize, p: usize, period: f64, out: &mut [f64])
    requires { (p + 1 ≤ n) × (n + 1 ≤ length flat.now) × (length flat.now ≤ n + p + 1) × (length out.old ≡ n + 2 * p + 1) × (n ≤ 128) }
    ensures { out.new ≡ turn_flat p n period flat.now }
{
    let m = flat.len() - n;
    let before = n - p;
    let end = p + flat.len();
    let behind = p + 1;
    shift(&flat[before..n], -period, &mut out[..p]);
    lists::copy_from_slice(&mut out[p..end], flat);
    shift(&flat[m..behind], period, &mut out[end..]);
}

// The flat knots of a closed line's nets; see `line_flat`.
#[tactic(auto, using(crate::proofs::Laws::beyond_last))]
fn closed_flat(l: Line, out: &mut [f64]) -> usize
    requires in_bounds { length out.old ≡ 179 }
    requires fact { HasTurn true l.degree l.knots.now l.mults.now }
    ensures { let s = seen l.entry in
        (result ≡ total s.mults - beyond_of true s.degree s.mults + s.degree + (s.degree + 1))
        × (take result out.new ≡ line_flat true s.degree s.knots s.mults) }
{
    let mut f = [0.0; 179];
    // the front by its count, as at `flat_knots`
    let all = flat_knots(l.knots, l.mults, &mut f);
    let last = l.knots.len() - 1;
    let n = all - l.mults[last] as usize;
    let p = l.degree as usize;
    let end = n + p + (p + 1);
    let period = l.knots[last] - l.knots[0];
    flat_turn(&f[..all], n, p, period, &mut out[..end]);
    end
}

// The flat knots that a line's nets are made with, from the front of `out`; answers how many these are.
pub fn line_flat(l: Line, out: &mut [f64]) -> usize
    requires in_bounds { length out.old ≡ 179 }
    requires fact { HasTurn l.closed l.degree l.knots.now l.mults.now }
    ensures { let s = seen l.entry in
        (result ≡ turn_poles s.closed s.degree (total s.mults - beyond_of s.closed s.degree s.mults) + (s.degree + 1))
        × (take result out.new ≡ flat_of s) }
{
    if l.closed {
        closed_flat(l, out)
    } else {
        flat_knots(l.knots, l.mults, out)
    }
}

// The parameter range of an open line.
fn open_bounds(l: Line) -> Interval
    requires { HasBounds l.degree l.knots.now l.mults.now }
    ensures { let s = seen l.entry in
        result ≡ open_bounds s.degree s.knots s.mults }
{
    let mut flat = [0.0; 179];
    let n = flat_knots(l.knots, l.mults, &mut flat);
    let first = l.degree as usize;
    let last = n - first - 1;
    Interval {
        lo: flat[first],
        hi: flat[last],
    }
}

// The parameter range of a line.
pub fn bounds(l: Line) -> Interval
    requires { (2 ≤ length l.knots.now) × HasBounds l.degree l.knots.now l.mults.now }
    ensures { result ≡ bounds_of (seen l.entry) }
{
    if l.closed {
        return Interval {
            lo: l.knots[0],
            hi: l.knots[l.knots.len() - 1],
        };
    }
    open_bounds(l)
}

// A closed line's knots from the front of `out`, and each but the first again, a period later; answers how many these are.
pub fn unrolled(knots: &[f64], out: &mut [f64]) -> usize
    requires { (1 ≤ length knots.now) × (2 * length knots.now ≤ length out.old + 1) }
    ensures { (result + 1 ≡ 2 * length knots.now) × (take result out.new ≡ unrolled_of true knots.now) }
{
    let n = knots.len();
    let end = n + (n - 1);
    let period = knots[n - 1] - knots[0];
    lists::copy_from_slice(&mut out[..n], knots);
    shift(&knots[1..], period, &mut out[n..end]);
    end
}

// Whether a knot lies strictly between the ends.
#[tactic(auto, unfolding(crate::specs::Knots::inside))]
fn is_inside(r: Interval, k: f64) -> bool
    ensures { result ≡ inside r.lo r.hi k }
{
    r.lo < k && k < r.hi
}

// lo, the knots strictly between, hi; answers how many these are.
pub fn breaks_of(knots: &[f64], r: Interval, out: &mut [f64]) -> usize
    requires { length knots.now + 2 ≤ length out.old }
    ensures { let b = breaks_in r.lo r.hi knots.now in
        (result ≡ length b)
        × (out.new ≡ patch out.old 0 b)
        × (take result out.new ≡ b)
        × (2 ≤ result)
        × (result ≤ length knots.now + 2) }
{
    out[0] = r.lo;
    let mut n = 1;
    for k in knots {
        if is_inside(r, *k) {
            out[n] = *k;
            n += 1;
        }
    }
    out[n] = r.hi;
    n + 1
}

// The breaks of a closed line's range.
fn turn_breaks(knots: &[f64], r: Interval, out: &mut [f64]) -> usize
    requires { HasKnots knots.now × (2 * length knots.now + 1 ≤ length out.old) }
    ensures { let b = breaks_in r.lo r.hi (unrolled_of true knots.now) in
        (result ≡ length b)
        × (out.new ≡ patch out.old 0 b)
        × (take result out.new ≡ b)
        × (2 ≤ result)
        × (result ≤ 2 * length knots.now + 1) }
{
    let mut all = [0.0; 255];
    // the front by its count, as at `flat_knots`
    let n = unrolled(knots, &mut all);
    breaks_of(&all[..n], r, out)
}

// The breaks of a range: lo, the knots strictly between, hi; a closed line's knots are unrolled. Answers how many these are.
pub fn breaks(closed: bool, knots: &[f64], r: Interval, out: &mut [f64]) -> usize
    requires { HasKnots knots.now × (2 * length knots.now + 1 ≤ length out.old) }
    ensures { let b = breaks_in r.lo r.hi (unrolled_of closed knots.now) in
        (result ≡ length b)
        × (out.new ≡ patch out.old 0 b)
        × (take result out.new ≡ b)
        × (2 ≤ result)
        × (result ≤ 2 * length knots.now + 1) }
{
    if closed {
        turn_breaks(knots, r, out)
    } else {
        breaks_of(knots, r, out)
    }
}
