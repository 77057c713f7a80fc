// What is wrong with a question about two admitted lines: the table's numbers 15 to 18, in its order.
#![tactic(auto)]

ghost use Rattle.std.specs.Prelude.{◌≡◌, ◌≤◌, length};
ghost use Rattle.lists.specs.Tests.{each_two};
ghost use Rattle.lines.specs.Lines.{seen};
ghost use Rattle.knots.specs.Knots.{HasKnots, bounds_of, unrolled_of, breaks_in};
ghost use Rattle.questions.specs.Questions.{HasRanges, question_error_number, question_error_line, turn_fits, whole_turn, range_fits, parted, ask_within};

use lines::Line;
use points::Interval;
use verdicts::Side;

// Why a question is refused; a side is the line at fault.
#[derive(Clone, Copy, Debug, PartialEq, Eq)]
pub enum QuestionError {
    RangeOutOfBounds(Side),
    GapOutOfRange,
    TooManySplits,
    BreaksTooClose(Side),
}

// The table's number of what is wrong.
impl From<QuestionError> for u8 {
    ghost from_gives = { λ e n. n ≡ question_error_number e };

    fn from(e: QuestionError) -> u8 {
        match e {
            QuestionError::RangeOutOfBounds(_) => 15,
            QuestionError::GapOutOfRange => 16,
            QuestionError::TooManySplits => 17,
            QuestionError::BreaksTooClose(_) => 18,
        }
    }
}

impl QuestionError {
    // The line at fault, if it is one of them.
    pub fn line(self) -> Option<Side>
        ensures { result ≡ question_error_line self }
    {
        match self {
            QuestionError::RangeOutOfBounds(side) => Some(side),
            QuestionError::GapOutOfRange => None,
            QuestionError::TooManySplits => None,
            QuestionError::BreaksTooClose(side) => Some(side),
        }
    }
}

// Whether a range starts before a closed line's last knot and is no longer than the period.
#[tactic(auto, unfolding(crate::specs::Questions::turn_fits))]
fn turn_fits(bounds: Interval, r: Interval) -> bool
    ensures { result ≡ turn_fits bounds r.lo r.hi }
{
    r.lo < bounds.hi && r.hi - r.lo <= bounds.hi - bounds.lo
}

// Whether a range is a whole turn of a closed line: as long as the period.
#[tactic(auto, unfolding(crate::specs::Questions::whole_turn))]
pub fn whole_turn(l: Line, r: Interval) -> bool
    requires { 1 ≤ length l.knots.now }
    ensures { let s = seen l.entry in
        result ≡ whole_turn s.closed s.knots r.lo r.hi }
{
    l.closed && r.hi - r.lo == l.knots[l.knots.len() - 1] - l.knots[0]
}

// Whether a range rises and lies inside a line's bounds; on a closed line, whether it rises, starts there before the end, and is no longer than the period.
#[tactic(auto, unfolding(crate::specs::Questions::range_fits))]
fn range_fits(closed: bool, bounds: Interval, r: Interval) -> bool
    ensures { result ≡ range_fits closed bounds r.lo r.hi }
{
    r.lo < r.hi
        && bounds.lo <= r.lo
        && if closed {
            turn_fits(bounds, r)
        } else {
            r.hi <= bounds.hi
        }
}

// Whether the middle lies strictly between.
#[tactic(auto, unfolding(crate::specs::Questions::parted))]
fn is_parted(t0: f64, t1: f64) -> bool
    ensures { result ≡ parted t0 t1 }
{
    let m = floats::mean(t0, t1);
    t0 < m && m < t1
}

fn all_parted(s: &[f64]) -> bool
    ensures { result ≡ each_two parted s.now }
{
    s.is_sorted_by(|t0, t1| is_parted(*t0, *t1))
}

// Whether each two neighbouring breaks of the range lie far enough apart.
fn breaks_fit(closed: bool, knots: &[f64], r: Interval) -> bool
    requires { HasKnots knots.now }
    ensures { result ≡ each_two parted (breaks_in r.lo r.hi (unrolled_of closed knots.now)) }
{
    let mut b = [0.0; 257];
    // the front by its count, as at `knots::flat_knots`
    let n = knots::breaks(closed, knots, r, &mut b);
    all_parted(&b[..n])
}

// Whether a question about two lines is fine, and if not, the first fault in the table's order. What it asks of their lengths,
// admission gives.
#[tactic(auto, unfolding(crate::specs::Questions::ask_within))]
pub fn ask(
    l1: Line,
    r1: Interval,
    l2: Line,
    r2: Interval,
    gap: f64,
    splits: u32,
) -> Result<(), QuestionError>
    requires in_bounds { HasRanges l1.degree l1.knots.now l1.mults.now }
    requires in_bounds_2 { HasRanges l2.degree l2.knots.now l2.mults.now }
    ensures { let s1 = seen l1.entry in
        let s2 = seen l2.entry in
        result
        ≡ ask_within s1.closed (bounds_of s1) s1.knots r1.lo r1.hi s2.closed (bounds_of s2) s2.knots r2.lo r2.hi gap splits }
{
    if !range_fits(l1.closed, knots::bounds(l1), r1) {
        return Err(QuestionError::RangeOutOfBounds(Side::First));
    }
    if !range_fits(l2.closed, knots::bounds(l2), r2) {
        return Err(QuestionError::RangeOutOfBounds(Side::Second));
    }
    if !floats::is_within(0.0, 16777216.0, gap) {
        return Err(QuestionError::GapOutOfRange);
    }
    if splits > 256 {
        return Err(QuestionError::TooManySplits);
    }
    if !breaks_fit(l1.closed, l1.knots, r1) {
        return Err(QuestionError::BreaksTooClose(Side::First));
    }
    if !breaks_fit(l2.closed, l2.knots, r2) {
        return Err(QuestionError::BreaksTooClose(Side::Second));
    }
    Ok(())
}
