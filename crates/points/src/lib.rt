// Homogeneous points of four numbers and parameter ranges, by value; points stored in a slice.
#![tactic(auto)]

ghost use Rattle.std.specs.Prelude.{◌≡◌, [], ◌∷◌, ◌+◌, ◌≤◌, length};
ghost use Rattle.lists.specs.Parts.{patch};

// A control point as (x w, y w, z w, w).
#[derive(Clone, Copy)]
pub struct Point4D {
    pub x: f64,
    pub y: f64,
    pub z: f64,
    pub w: f64,
}

// A parameter range, a pair of ends in the Rust.
#[derive(Clone, Copy)]
pub struct Interval {
    pub lo: f64,
    pub hi: f64,
}

// The point's four numbers stored from `at` on.
pub fn put(s: &mut [f64], at: usize, q: Point4D)
    requires { at + 4 ≤ length s.old }
    ensures { s.new ≡ patch s.old at (q.x ∷ q.y ∷ q.z ∷ q.w ∷ []) }
{
    lists::put(s, at, [q.x, q.y, q.z, q.w]);
}
