// The Bezier pieces of an admitted line over an asked range.
#![tactic(auto)]

ghost use Rattle.std.specs.Prelude.{◌≡◌, true, ◌+◌, ◌-◌, ◌*◌, ◌%◌, ◌≤◌, ◌<◌, leb, length, Ok};
ghost use Rattle.lists.specs.Parts.{patch};
ghost use Rattle.lists.specs.Tests.{total};
ghost use Rattle.lines.specs.Lines.{seen};
ghost use Rattle.lines.specs.Admit.{beyond_of, admit_of};
ghost use Rattle.knots.specs.Knots.{HasKnots, HasTurn, unrolled_of, breaks_in, flat_of, knots_of, breaks_of};
ghost use Rattle.pieces.specs.Pieces.{HasSpans, nets_of};
ghost use Rattle.curves.specs.Curves.{count_in, piece_count, around_of, turn_of_poles, pieces_of};

use lines::Line;
use pieces::Spans;
use points::Interval;
use poles::Poles;

// How many pieces the range has.
pub fn piece_count(l: Line, r: Interval) -> usize
    requires { HasKnots l.knots.now }
    ensures { (result ≡ piece_count (seen l.entry) r.lo r.hi) × (1 ≤ result) × (result ≤ 256) }
{
    knots::breaks(l.closed, l.knots, r, &mut [0.0; 257]) - 1
}

// Whether a slice of this length holds the pieces: 4 × width a piece.
pub fn pieces_fit(l: Line, r: Interval, room: usize) -> bool
    requires { HasKnots l.knots.now × (l.degree ≤ 25) }
    ensures { let s = seen l.entry in
        result ≡ leb (piece_count s r.lo r.hi * (4 * (s.degree + 1))) room }
{
    room >= piece_count(l, r) * (4 * (l.degree as usize + 1))
}

// The nets between the breaks of the knots that part the spans.
fn with_breaks(s: Spans, r: Interval, out: &mut [f64])
    requires has_spans { HasSpans s.p s.knots.now s.flat.now s.poles.now }
    requires in_bounds { (length s.knots.now ≤ 255) × (count_in r.lo r.hi s.knots.now * (4 * (s.p + 1)) ≤ length out.old) }
    ensures { let e = s.entry in
        out.new ≡ patch out.old 0 (nets_of e.closed e.p e.knots.now e.flat.now e.poles.now (breaks_in r.lo r.hi e.knots.now)) }
{
    let mut b = [0.0; 257];
    // the front by its count, as at `knots::flat_knots`
    let n = knots::breaks_of(s.knots, r, &mut b);
    pieces::nets(s, &b[..n], out);
}

// Which of the `n` poles is number `j` of a turn.
fn turn_pole(n: usize, m: usize, j: usize) -> usize
    requires { (1 ≤ n) × (n ≤ 128) × (m ≤ n + 1) × (j ≤ 153) }
    ensures { (result ≡ (j + n + 1 - m) % n) × (result < n) }
{
    (j + n + 1 - m) % n
}

// The poles of a turn, from the `n` poles of a closed line with multiplicity `m` at its ends.
fn around(poles: &[f64], n: usize, m: usize, p: usize, out: &mut [f64])
    requires { (1 ≤ n) × (n ≤ 128) × (m ≤ n + 1) × (p ≤ 25) × (length poles.now ≡ 4 * n) × (length out.old ≡ 4 * (n + p)) }
    ensures { out.new ≡ around_of n m (n + p) 0 poles.now }
{
    for j in 0..n + p {
        let i = turn_pole(n, m, j) * 4;
        out[4 * j..4 * j + 4].copy_from_slice(&poles[i..i + 4]);
    }
}

// The nets of a closed line, from its own knots and `n` poles, with multiplicity `m` at its ends, and the flat knots of a turn.
fn with_turn(s: Spans, n: usize, m: usize, r: Interval, out: &mut [f64])
    requires le_p { (1 ≤ s.p)
        × (s.p ≤ 25)
        × (s.p + 1 ≤ n)
        × (n ≤ 128)
        × (m ≤ n + 1)
        × (length s.flat.now ≡ n + s.p + (s.p + 1))
        × (length s.poles.now ≡ 4 * n) }
    requires in_bounds { (2 ≤ length s.knots.now)
        × (length s.knots.now ≤ 128)
        × (count_in r.lo r.hi (unrolled_of true s.knots.now) * (4 * (s.p + 1)) ≤ length out.old) }
    ensures { let e = s.entry in
        let all = unrolled_of true e.knots.now in
        out.new
        ≡ patch out.old 0 (nets_of true e.p all e.flat.now (around_of n m (n + e.p) 0 e.poles.now) (breaks_in r.lo r.hi all)) }
{
    let mut t = [0.0; 255];
    // the front by its count, as at `knots::flat_knots`
    let k = knots::unrolled(s.knots, &mut t);
    // no heap: room for 128 poles, and as many again as the degree, of which this turn takes the front
    let mut a = [0.0; 612];
    let len = 4 * (n + s.p);
    around(s.poles, n, m, s.p, &mut a[..len]);
    let turn = Spans {
        closed: true,
        knots: &t[..k],
        flat: s.flat,
        poles: &a[..len],
        p: s.p,
    };
    with_breaks(turn, r, out);
}

// The nets of a line from its poles, four numbers each.
fn with_poles(l: Line, poles: &[f64], r: Interval, out: &mut [f64])
    requires fact { (1 ≤ l.degree)
        × HasTurn l.closed l.degree l.knots.now l.mults.now
        × (2 ≤ length l.knots.now)
        × (length l.knots.now ≤ 128) }
    requires in_bounds { let s = seen l in
        (length poles.now ≡ 4 * (total s.mults - beyond_of s.closed s.degree s.mults))
        × (piece_count s r.lo r.hi * (4 * (s.degree + 1)) ≤ length out.old) }
    ensures { let s = seen l.entry in
        let m = beyond_of s.closed s.degree s.mults in
        let n = total s.mults - m in
        out.new
        ≡ patch out.old 0
        (nets_of s.closed s.degree (knots_of s) (flat_of s) (turn_of_poles s.closed s.degree n m poles.now) (breaks_of s r.lo r.hi)) }
{
    let mut f = [0.0; 179];
    // the front by its count, as at `knots::flat_knots`
    let k = knots::line_flat(l, &mut f);
    let s = Spans {
        closed: l.closed,
        knots: l.knots,
        flat: &f[..k],
        poles,
        p: l.degree as usize,
    };
    if l.closed {
        let m = l.mults[l.mults.len() - 1] as usize;
        with_turn(s, poles.len() / 4, m, r, out);
    } else {
        with_breaks(s, r, out);
    }
}

// The nets of all pieces, one after the other from the front of `out`: `CurvePieces::new`. The poles are read through their view.
pub fn line_pieces(l: Line, r: Interval, out: &mut [f64])
    requires { let s = seen l in
        (admit_of s ≡ Ok tt) × (piece_count s r.lo r.hi * (4 * (s.degree + 1)) ≤ length out.old) }
    ensures { out.new ≡ patch out.old 0 (pieces_of (seen l.entry) r.lo r.hi) }
{
    let poles = Poles {
        coords: l.coords,
        weights: l.weights,
    };
    let all = poles.homogeneous_poles();
    with_poles(l, &all[..4 * poles.len()], r, out);
}
