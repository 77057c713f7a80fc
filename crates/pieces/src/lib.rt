// The pieces of a line over a range: for each two neighbouring breaks the net of the span around their middle, cut to them.
#![tactic(auto)]

ghost use Rattle.std.specs.Prelude.{◌≡◌, ◌+◌, ◌-◌, ◌*◌, ◌≤◌, length};
ghost use Rattle.lists.specs.Parts.{patch};
ghost use Rattle.pieces.specs.Pieces.{HasNet, HasSpans, span_bezier, share, net_of, nets_of};

// What a line's nets are made of: its knots, of a closed line unrolled, the flat knots and the poles of a turn, and its degree `p`.
#[derive(Clone, Copy)]
pub struct Spans<'a> {
    pub closed: bool,
    pub knots: &'a [f64],
    pub flat: &'a [f64],
    pub poles: &'a [f64],
    pub p: usize,
}

// The net over the whole span that holds `v`.
fn span_bezier(s: Spans, v: f64, out: &mut [f64])
    requires { HasNet s.p s.flat.now s.poles.now × (length out.old ≡ 4 * (s.p + 1)) }
    ensures { out.new ≡ span_bezier s.entry.p s.entry.flat.now s.entry.poles.now v }
{
    let last = s.flat.len() - 1 - s.p;
    let u = spans::clamp(v, s.flat[s.p], s.flat[last]);
    let at = spans::span(s.flat, s.p, u);
    let near = at - s.p + 1;
    let first = 4 * (at - s.p);
    let around = blends::Near {
        knots: &s.flat[near..],
        p: s.p,
        u,
    };
    blends::points(around, &s.poles[first..], out);
}

// Where `t` lies from `a` to `b`.
#[tactic(auto, unfolding(crate::specs::Pieces::share))]
fn share_of(a: f64, b: f64, t: f64) -> f64
    ensures { result ≡ share a b t }
{
    (t - a) / (b - a)
}

// The net of the piece from `t0` to `t1`.
fn net(s: Spans, t0: f64, t1: f64, out: &mut [f64])
    requires { HasSpans s.p s.knots.now s.flat.now s.poles.now × (length out.old ≡ 4 * (s.p + 1)) }
    ensures { out.new ≡ net_of s.entry.closed s.entry.p s.entry.knots.now s.entry.flat.now s.entry.poles.now t0 t1 }
{
    let middle = floats::mean(t0, t1);
    span_bezier(s, spans::place(s.closed, s.knots, middle), out);
    let around = spans::span_around(s.knots, middle);
    let f0 = share_of(around.lo, around.hi, t0);
    let f1 = share_of(around.lo, around.hi, t1);
    cuts::restrict(out, s.p + 1, f0, f1);
}

// The net of each piece, one after the other from the front of `out`.
pub fn nets(s: Spans, breaks: &[f64], out: &mut [f64])
    requires has_spans { HasSpans s.p s.knots.now s.flat.now s.poles.now }
    requires in_bounds { (2 ≤ length breaks.now) × (length breaks.now ≤ 257) × ((length breaks.now - 1) * (4 * (s.p + 1)) ≤ length out.old) }
    ensures { out.new
        ≡ patch out.old 0 (nets_of s.entry.closed s.entry.p s.entry.knots.now s.entry.flat.now s.entry.poles.now breaks.now) }
{
    let len = 4 * (s.p + 1);
    for i in 0..breaks.len() - 1 {
        let from = i * len;
        net(s, breaks[i], breaks[i + 1], &mut out[from..from + len]);
    }
}
