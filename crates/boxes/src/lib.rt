// Boxes of points and of nets: whether they are apart by a gap, and which is halved.
#![tactic(auto)]

ghost use Rattle.std.specs.Prelude.{◌≡◌, false, ◌+◌, ◌≤◌, length};
ghost use Rattle.boxes.specs.Points.{point_at};
ghost use Rattle.boxes.specs.Boxes.{cube_of, grown, bounding_box, apart_by, boxes_apart, sides_of, box_size, second_halved};
ghost use Rattle.boxes.specs.Nets.{in_measure, measured, measured_in, room, measured_box, box_of};

use floats::Vector3D;

// A box: its lowest and its highest corner.
#[derive(Clone, Copy)]
pub struct Aabb {
    pub x0: f64,
    pub y0: f64,
    pub z0: f64,
    pub x1: f64,
    pub y1: f64,
    pub z1: f64,
}

// The box from lo to hi along each axis.
fn cube(lo: f64, hi: f64) -> Aabb
    ensures { result ≡ cube_of lo hi }
{
    Aabb {
        x0: lo,
        y0: lo,
        z0: lo,
        x1: hi,
        y1: hi,
        z1: hi,
    }
}

// The point whose coordinates stand from place i on.
pub fn point_at(points: &[f64], i: usize) -> Vector3D
    requires { i + 3 ≤ length points.now }
    ensures { result ≡ point_at points.now i }
{
    Vector3D {
        x: points[i],
        y: points[i + 1],
        z: points[i + 2],
    }
}

// The box with one more point in it.
fn grow(b: Aabb, p: Vector3D) -> Aabb
    ensures { result ≡ grown b p }
{
    Aabb {
        x0: floats::min(b.x0, p.x),
        y0: floats::min(b.y0, p.y),
        z0: floats::min(b.z0, p.z),
        x1: floats::max(b.x1, p.x),
        y1: floats::max(b.y1, p.y),
        z1: floats::max(b.z1, p.z),
    }
}

// The box of the points, three numbers each.
fn bounding_box(points: &[f64]) -> Aabb
    ensures { result ≡ bounding_box points.now }
{
    points.chunks_exact(3).fold(
        cube(f64::INFINITY, f64::NEG_INFINITY),
        |b, p| grow(b, point_at(p, 0)),
    )
}

// Whether one range lies beyond the other by more than the gap.
#[tactic(auto, unfolding(crate::specs::Boxes::apart_by))]
pub fn ranges_apart(a0: f64, a1: f64, b0: f64, b1: f64, gap: f64) -> bool
    ensures { result ≡ apart_by gap a0 a1 b0 b1 }
{
    a0 > b1 + gap || b0 > a1 + gap
}

// Whether the boxes are more than the gap apart along some axis.
#[tactic(auto, unfolding(crate::specs::Boxes::boxes_apart))]
pub fn boxes_apart(a: Aabb, b: Aabb, gap: f64) -> bool
    ensures { result ≡ boxes_apart gap a b }
{
    ranges_apart(a.x0, a.x1, b.x0, b.x1, gap)
        || ranges_apart(a.y0, a.y1, b.y0, b.y1, gap)
        || ranges_apart(a.z0, a.z1, b.z0, b.z1, gap)
}

// The sides of a box.
fn sides(b: Aabb) -> Vector3D
    ensures { result ≡ sides_of b }
{
    Vector3D {
        x: b.x1 - b.x0,
        y: b.y1 - b.y0,
        z: b.z1 - b.z0,
    }
}

// The length of the box's diagonal.
#[tactic(auto, unfolding(crate::specs::Boxes::box_size))]
pub fn box_size(b: Aabb) -> f64
    ensures { result ≡ box_size b }
{
    floats::norm(sides(b))
}

// Whether the second line is the one to halve: its box b is no smaller than a.
#[tactic(auto, unfolding(crate::specs::Boxes::second_halved, crate::specs::Boxes::box_size))]
pub fn second_halved(a: Aabb, b: Aabb) -> bool
    ensures { result ≡ second_halved a b }
{
    floats::is_no_longer(sides(a), sides(b))
}

// Whether each coordinate lies within 2^25 of zero; a NaN does not.
fn in_measure(points: &[f64]) -> bool
    ensures { result ≡ in_measure points.now }
{
    points
        .iter()
        .all(|x| floats::is_within(-33554432.0, 33554432.0, *x))
}

// Room for the points of a net of up to 26.
// A function, and no literal at each place: `room` is what the contracts of three crates say of it.
#[tactic(auto, unfolding(crate::specs::Nets::room))]
pub fn scratch() -> [f64; 78]
    ensures { (result ≡ room) × (length result ≡ 78) }
{
    [0.0; 78]
}

// The points of a net go to the start of out, and how many numbers of it count is the result: 0 for a net out of measure, as none of them count.
pub fn measure(net: &[f64], out: &mut [f64]) -> usize
    requires { length out.old ≡ 78 }
    ensures value { (result ≡ length (measured net.now)) × (result ≤ 78) }
    ensures out_after { out.new ≡ measured_in net.now out.old }
{
    if net.len() < 8 {
        return 0;
    }
    if net.len() > 104 {
        return 0;
    }
    let n = net.len() / 4 * 3;
    nets::net_points(net, &mut out[..n]);
    if in_measure(&out[..n]) {
        return n;
    }
    0
}

// The box of a net's points; everything where there are none.
#[tactic(auto, unfolding(crate::specs::Nets::measured_box))]
pub fn measured_box(points: &[f64]) -> Aabb
    ensures { result ≡ measured_box points.now }
{
    if points.len() < 3 {
        return cube(f64::NEG_INFINITY, f64::INFINITY);
    }
    bounding_box(points)
}

// The box of a net.
pub fn net_box(net: &[f64]) -> Aabb
    ensures { result ≡ box_of net.now }
{
    let mut points = scratch();
    let n = measure(net, &mut points);
    measured_box(&points[..n])
}
