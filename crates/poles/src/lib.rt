// The poles of a line: both slices in one borrowed view, the functions over it, and one pole's arithmetic on the slices.
#![tactic(auto)]

ghost use Rattle.std.specs.Prelude.{◌≡◌, ◌+◌, ◌*◌, ◌≤◌, length, take};
ghost use Rattle.poles.specs.Poles.{pole_count, weight_of, homogeneous_of, homogeneous_poles};

// The poles of a line, three coordinates each, and their weights, none for all 1: `Poles` of the Rust.
#[derive(Clone, Copy)]
pub struct Poles<'a, 'b> {
    pub coords: &'a [f64],
    pub weights: &'b [f64],
}

impl<'a, 'b> Poles<'a, 'b> {
    // How many poles there are.
    pub fn len(self) -> usize
        ensures { result ≡ pole_count self.entry.coords.now }
    {
        self.coords.len() / 3
    }

    // Pole `i` as four numbers.
    #[tactic(auto, unfolding(crate::specs::Poles::homogeneous_of))]
    pub fn homogeneous(self, i: usize) -> points::Point4D
        requires { (i ≤ 128) × (3 * i + 3 ≤ length self.coords.now) }
        ensures { result ≡ homogeneous_of self.entry.coords.now self.entry.weights.now i }
    {
        let w = weight(self.weights, i);
        points::Point4D {
            x: self.coords[3 * i] * w,
            y: self.coords[3 * i + 1] * w,
            z: self.coords[3 * i + 2] * w,
            w,
        }
    }

    // All poles, four numbers each, from the front of an array with room for 128.
    pub fn homogeneous_poles(self) -> [f64; 512]
        requires { pole_count self.coords.now ≤ 128 }
        ensures { (length result ≡ 512)
            × (take (4 * pole_count self.entry.coords.now) result
            ≡ homogeneous_poles self.entry.coords.now self.entry.weights.now (pole_count self.entry.coords.now) 0) }
    {
        let mut out = [0.0; 512];
        for i in 0..self.len() {
            points::put(&mut out, 4 * i, self.homogeneous(i));
        }
        out
    }
}

// Weight `i`, 1 where there is none.
#[tactic(auto, unfolding(crate::specs::Poles::weight_of))]
fn weight(weights: &[f64], i: usize) -> f64
    ensures { result ≡ weight_of weights.now i }
{
    *weights.get(i).unwrap_or(&1.0)
}
