// The Bezier points of one knot span, by the triangular recurrence on the poles' coefficients.
#![tactic(auto)]

ghost use Rattle.std.specs.Prelude.{◌≡◌, ◌++◌, ◌+◌, ◌-◌, ◌*◌, ◌≤◌, ◌<◌, length, take, drop, replicate};
ghost use Rattle.floats.specs.Floats.{zero64};
ghost use Rattle.blends.specs.Blends.{HasNear, mix_of, knot_of, alpha_of, end_of, added, nothing, point_of, points_from};
ghost use Rattle.blends.specs.Table.{mixes, level_of, triangle, units, weighed};

// One blend.
#[tactic(auto, unfolding(crate::specs::Blends::mix_of))]
fn mix(alpha: f64, a: f64, b: f64) -> f64
    ensures { result ≡ mix_of alpha a b }
{
    (1.0 - alpha) * a + alpha * b
}

// `n` numbers from `at` on, each blended with the one 26 places on.
fn mix_run(s: &mut [f64], at: usize, n: usize, alpha: f64)
    requires { at + n + 26 ≤ length s.old }
    ensures { s.new ≡ take at s.old ++ mixes alpha n (drop at s.old) }
{
    lists::pair_round(&mut s[at..], 26, n, |a, b| mix(alpha, a, b));
}

// The knots around a span of degree `p`, 2 p of them or more, and where they are read from.
#[derive(Clone, Copy)]
pub struct Near<'a> {
    pub knots: &'a [f64],
    pub p: usize,
    pub u: f64,
}

// Knot `m` of those around the span, relative to `u`.
#[tactic(auto, unfolding(crate::specs::Blends::knot_of))]
fn knot(near: Near, m: usize) -> f64
    requires { m < length near.knots.now }
    ensures { let e = near.entry in
        result ≡ knot_of e.p e.u e.knots.now m }
{
    if m < near.p {
        -(near.u - near.knots[m])
    } else {
        near.knots[m] - near.u
    }
}

// The factor of row `i` in level `r` at `x`: by a reciprocal, as the Rust has it.
#[tactic(auto, unfolding(crate::specs::Blends::alpha_of))]
fn blend_at(near: Near, x: f64, r: usize, i: usize) -> f64
    requires { HasNear near.p near.knots.now × (r + i < near.p) }
    ensures { let e = near.entry in
        result ≡ alpha_of e.p e.u e.knots.now x r i }
{
    let low = knot(near, r + i);
    (x - low) * (1.0 / (knot(near, near.p + i) - low))
}

// One level of the recurrence.
fn level(s: &mut [f64], near: Near, x: f64, r: usize)
    requires { HasNear near.p near.knots.now × (r < near.p) × (length s.old ≡ 702) }
    ensures { let e = near.entry in
        s.new ≡ level_of (alpha_of e.p e.u e.knots.now x r) (r + 2) (e.p - r) 0 s.old }
{
    for i in 0..near.p - r {
        mix_run(s, 27 * i, r + 2, blend_at(near, x, r, i));
    }
}

// The span's end in the first `k` levels, then its start.
#[tactic(auto, unfolding(crate::specs::Blends::end_of))]
fn end_of(near: Near, k: usize, r: usize) -> f64
    requires { HasNear near.p near.knots.now }
    ensures { let e = near.entry in
        result ≡ end_of e.p e.u e.knots.now k r }
{
    if r < k {
        knot(near, near.p)
    } else {
        knot(near, near.p - 1)
    }
}

// The levels of the recurrence, in place.
fn levels(s: &mut [f64], near: Near, k: usize)
    requires { HasNear near.p near.knots.now × (length s.old ≡ 702) }
    ensures { let e = near.entry in
        s.new ≡ triangle (λ r. alpha_of e.p e.u e.knots.now (end_of e.p e.u e.knots.now k r) r) e.p 0 s.old }
{
    for r in 0..near.p {
        level(s, near, end_of(near, k, r), r);
    }
}

// 1 where each row of the table starts; the table is all +0 before.
fn start(s: &mut [f64])
    requires { s.old ≡ replicate 702 zero64 }
    ensures { s.new ≡ units 702 0 }
{
    for i in 0..26 {
        s[27 * i] = 1.0;
    }
}

// `m` times a pole added.
#[tactic(auto, unfolding(crate::specs::Blends::added))]
fn plus(q: points::Point4D, m: f64, a: f64, b: f64, c: f64, d: f64) -> points::Point4D
    ensures { result ≡ added q m a b c d }
{
    points::Point4D {
        x: q.x + m * a,
        y: q.y + m * b,
        z: q.z + m * c,
        w: q.w + m * d,
    }
}

// The poles weighed by the first `n` numbers of `row`.
fn weigh(row: &[f64], poles: &[f64], n: usize) -> points::Point4D
    requires { (n ≤ 26) × (n ≤ length row.now) × (4 * n ≤ length poles.now) }
    ensures { result ≡ weighed nothing n 0 row.now poles.now }
{
    let mut q = points::Point4D {
        x: 0.0,
        y: 0.0,
        z: 0.0,
        w: 0.0,
    };
    for j in 0..n {
        q = plus(
            q,
            row[j],
            poles[4 * j],
            poles[4 * j + 1],
            poles[4 * j + 2],
            poles[4 * j + 3],
        );
    }
    q
}

// Point `k` of the span.
fn point(near: Near, poles: &[f64], k: usize) -> points::Point4D
    requires { HasNear near.p near.knots.now × (4 * (near.p + 1) ≤ length poles.now) }
    ensures { let e = near.entry in
        result ≡ point_of e.p e.u e.knots.now poles.now k }
{
    // 26 rows of 27 numbers
    let mut table = [0.0; 702];
    start(&mut table);
    levels(&mut table, near, k);
    weigh(&table, poles, near.p + 1)
}

// The points of the span, four numbers each.
pub fn points(near: Near, poles: &[f64], out: &mut [f64])
    requires { HasNear near.p near.knots.now × (4 * (near.p + 1) ≤ length poles.now) × (length out.old ≡ 4 * (near.p + 1)) }
    ensures { let e = near.entry in
        out.new ≡ points_from e.p e.u e.knots.now poles.now (e.p + 1) 0 }
{
    for k in 0..near.p + 1 {
        points::put(out, 4 * k, point(near, poles, k));
    }
}
