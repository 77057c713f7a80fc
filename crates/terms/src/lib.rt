// What only a report reads of the question, by value.
#![tactic(auto)]

ghost use Rattle.std.specs.Prelude.{◌≡◌};
ghost use Rattle.terms.specs.Terms.{seam_of};

use verdicts::Side;

// Whether each line is closed and asked for a whole turn, and the asked ends.
#[derive(Clone, Copy)]
pub struct Terms {
    pub turn1: bool,
    pub turn2: bool,
    pub lo1: f64,
    pub hi1: f64,
    pub lo2: f64,
    pub hi2: f64,
}

// One line's seam: whether there is one, and the ends that meet there. No Option: the asked ends are said of a line without a seam too.
#[derive(Clone, Copy)]
pub struct Seam {
    pub whole: bool,
    pub lo: f64,
    pub hi: f64,
}

// A line's seam.
pub fn seam_on(t: Terms, line: Side) -> Seam
    ensures { result ≡ seam_of line t }
{
    match line {
        Side::First => Seam {
            whole: t.turn1,
            lo: t.lo1,
            hi: t.hi1,
        },
        Side::Second => Seam {
            whole: t.turn2,
            lo: t.lo2,
            hi: t.hi2,
        },
    }
}
