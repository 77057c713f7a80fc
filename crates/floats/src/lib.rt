// Least, greatest, middle, floor and vectors of f64, one rounding a step.
#![tactic(auto)]

ghost use Rattle.std.specs.Prelude.{◌≡◌, cond};
ghost use Rattle.std.specs.Float.Ieee.{lt, le};
ghost use Rattle.roots.specs.Root.{root_of};
ghost use Rattle.floats.specs.Floats.{least, greatest, within, middle, floor_of};
ghost use Rattle.floats.specs.Vectors.{sub_of, dot_of, cross_of, norm_of};

// Least and greatest stay two: one function over the order is no plainer, since the order is all that each says.
// b where it is less than a, else a: one instruction of the machine.
fn lower(a: f64, b: f64) -> f64
    ensures { result ≡ cond (lt b a) b a }
{
    if b < a { b } else { a }
}

// b where it is more than a, else a.
fn higher(a: f64, b: f64) -> f64
    ensures { result ≡ cond (lt a b) b a }
{
    if a < b { b } else { a }
}

// The least of two; a NaN is skipped, as by Rust's `f64::min`, which leaves the sign of a zero open.
#[tactic(auto, using(crate::proofs::Picks::lower_is, crate::proofs::Picks::second_least))]
pub fn min(a: f64, b: f64) -> f64
    ensures { result ≡ least a b }
{
    let low = lower(a, b);
    if a == a { low } else { b }
}

// The greatest of two; a NaN is skipped, as by Rust's `f64::max`, which leaves the sign of a zero open.
#[tactic(auto, using(crate::proofs::Picks::higher_is, crate::proofs::Picks::second_greatest))]
pub fn max(a: f64, b: f64) -> f64
    ensures { result ≡ greatest a b }
{
    let high = higher(a, b);
    if a == a { high } else { b }
}

// Whether x lies from lo to hi, ends included; a NaN does not.
#[tactic(auto, unfolding(crate::specs::Floats::within))]
pub fn is_within(lo: f64, hi: f64, x: f64) -> bool
    ensures { result ≡ within lo hi x }
{
    lo <= x && x <= hi
}

// The middle of a range, and the mean of neighbours in a net.
#[tactic(auto, unfolding(crate::specs::Floats::middle))]
pub fn mean(a: f64, b: f64) -> f64
    ensures { result ≡ middle a b }
{
    0.5 * (a + b)
}

// The greatest whole number that is not above x; x itself where it is whole, a NaN or an infinity.
#[tactic(auto, using(crate::proofs::Wholes::floor_is))]
pub fn floor(x: f64) -> f64
    ensures { result ≡ floor_of x }
{
    x.floor()
}

#[derive(Clone, Copy)]
pub struct Vector3D {
    pub x: f64,
    pub y: f64,
    pub z: f64,
}

pub fn sub(a: Vector3D, b: Vector3D) -> Vector3D
    ensures { result ≡ sub_of a b }
{
    Vector3D {
        x: a.x - b.x,
        y: a.y - b.y,
        z: a.z - b.z,
    }
}

#[tactic(auto, unfolding(crate::specs::Vectors::dot_of))]
pub fn dot(a: Vector3D, b: Vector3D) -> f64
    ensures { result ≡ dot_of a b }
{
    a.x * b.x + a.y * b.y + a.z * b.z
}

pub fn cross(a: Vector3D, b: Vector3D) -> Vector3D
    ensures { result ≡ cross_of a b }
{
    Vector3D {
        x: a.y * b.z - a.z * b.y,
        y: a.z * b.x - a.x * b.z,
        z: a.x * b.y - a.y * b.x,
    }
}

#[tactic(auto, unfolding(crate::specs::Vectors::norm_of))]
pub fn norm(a: Vector3D) -> f64
    ensures { result ≡ norm_of a }
{
    roots::sqrt(dot(a, a))
}

// ---- lengths compared by their squares, where these are not too near each other

// A little above a bound from 0 up. Nothing rests on it: a caller tests it.
fn above(reach: f64) -> f64 {
    1.0009765625 * reach + 1.0e-150
}

// Whether the root of x is at most the reach.
fn root_within(x: f64, reach: f64) -> bool
    ensures { result ≡ le (root_of x) reach }
{
    if 0.0 < x && 0.0 < reach && x < reach * reach {
        return true;
    }
    let t = above(reach);
    if reach < t && t * t < x {
        return false;
    }
    roots::sqrt(x) <= reach
}

// Whether a is no longer than the reach.
#[tactic(auto, unfolding(crate::specs::Vectors::norm_of))]
pub fn norm_within(a: Vector3D, reach: f64) -> bool
    ensures { result ≡ le (norm_of a) reach }
{
    root_within(dot(a, a), reach)
}

// Whether a is no longer than b.
pub fn is_no_longer(a: Vector3D, b: Vector3D) -> bool
    ensures { result ≡ le (norm_of a) (norm_of b) }
{
    let x = dot(a, a);
    let y = dot(b, b);
    if x <= y {
        return true;
    }
    // b's length is at most t, a's more than t
    let t = 1.00390625 * roots::rough_sqrt(y);
    let u = above(t);
    if 0.0 < y && 0.0 < t && y < t * t && t < u && u * u < x {
        return false;
    }
    norm(a) <= norm(b)
}
