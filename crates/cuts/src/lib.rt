// A Bezier net cut to a part of its range, in blocks of four numbers.
#![tactic(auto)]

ghost use Rattle.std.specs.Prelude.{◌≡◌, ◌+◌, ◌*◌, ◌≤◌, length};
ghost use Rattle.cuts.specs.Cuts.{IsNet, lerp_of, lerps, from_of, up_to_of, rest_of, upper_part, lower_part, restricted};

#[tactic(auto, unfolding(crate::specs::Cuts::lerp_of))]
fn lerp(f: f64, a: f64, b: f64) -> f64
    ensures { result ≡ lerp_of f a b }
{
    a + f * (b - a)
}

// One round in place: each of the first `m` numbers is moved by `f` towards the one four places on.
fn lerp_round(s: &mut [f64], m: usize, f: f64)
    requires { m + 4 ≤ length s.old }
    ensures { s.new ≡ lerps f m s.old }
{
    lists::pair_round(s, 4, m, |a, b| lerp(f, a, b));
}

// The part from `f` on, in place.
fn cut_from(s: &mut [f64], n: usize, f: f64)
    requires { IsNet n s.old }
    ensures { s.new ≡ from_of f n s.old }
{
    for r in 0..n {
        lerp_round(s, (n - 1 - r) * 4, f);
    }
}

// The part up to `f` into `low`, a point a round; `s` is used up.
fn cut_to(s: &mut [f64], n: usize, f: f64, low: &mut [f64])
    requires { IsNet n s.old × (length low.old ≡ n * 4) }
    ensures { low.new ≡ up_to_of f n s.old }
{
    for r in 0..n {
        low[r * 4..r * 4 + 4].copy_from_slice(&s[..4]);
        lerp_round(s, (n - 1 - r) * 4, f);
    }
}

// The part up to `f`, in place.
fn cut_up_to(s: &mut [f64], n: usize, f: f64)
    requires { IsNet n s.old }
    ensures { s.new ≡ up_to_of f n s.old }
{
    let mut low = [0.0; 104];
    let t = &mut low[..n * 4];
    cut_to(s, n, f, t);
    s.copy_from_slice(t);
}

// The cut at `f0`.
#[tactic(auto, unfolding(crate::specs::Cuts::upper_part))]
fn upper_part(s: &mut [f64], n: usize, f: f64)
    requires { IsNet n s.old }
    ensures { s.new ≡ upper_part f n s.old }
{
    if f > 0.0 {
        cut_from(s, n, f);
    }
}

// The cut at `g`.
#[tactic(auto, unfolding(crate::specs::Cuts::lower_part))]
fn lower_part(s: &mut [f64], n: usize, g: f64)
    requires { IsNet n s.old }
    ensures { s.new ≡ lower_part g n s.old }
{
    if g < 1.0 {
        cut_up_to(s, n, g);
    }
}

// Where `f1` lies in the part from `f0` on.
#[tactic(auto, unfolding(crate::specs::Cuts::rest_of))]
fn rest(f0: f64, f1: f64) -> f64
    ensures { result ≡ rest_of f0 f1 }
{
    if f0 > 0.0 { (f1 - f0) / (1.0 - f0) } else { f1 }
}

// The net of `n` points cut to the part from `f0` to `f1`, in place.
#[tactic(auto, unfolding(crate::specs::Cuts::restricted))]
pub fn restrict(s: &mut [f64], n: usize, f0: f64, f1: f64)
    requires { IsNet n s.old }
    ensures { s.new ≡ restricted f0 f1 n s.old }
{
    upper_part(s, n, f0);
    lower_part(s, n, rest(f0, f1));
}
