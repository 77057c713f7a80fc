// Admission of a line: the table's numbers 4 to 14, and 22 of a closed line after 7, in this order; and whether two lines are of one datum.
#![tactic(auto)]

ghost use Rattle.std.specs.Prelude.{◌≡◌, ◌||◌, ◌≤◌, ◌<◌, ltb, leb, eqb, length, Ok};
ghost use Rattle.std.specs.Float.Ieee.{lt};
ghost use Rattle.lists.specs.Tests.{every, each_two, total};
ghost use Rattle.floats.specs.Floats.{within};
ghost use Rattle.lines.specs.Lines.{seen};
ghost use Rattle.lines.specs.Data.{one_datum};
ghost use Rattle.lines.specs.Admit.{HasMults, line_error_number, ends_differ, ends_too_large, too_large, beyond_of, validate_knots, validate_mults, validate_direction, validate_poles, admit_of};

// A line by its slices: its poles as x, y, z in turn, and no weights where each is 1.
#[derive(Clone, Copy)]
pub struct Line<'a> {
    pub closed: bool,
    pub degree: u32,
    pub knots: &'a [f64],
    pub mults: &'a [u32],
    pub coords: &'a [f64],
    pub weights: &'a [f64],
}

// Why a line is refused. `BSplineConstructionError` names five of the cases.
#[derive(Clone, Copy, Debug, PartialEq, Eq)]
pub enum LineError {
    InvalidDegree,
    KnotCount,
    KnotOutOfRange,
    KnotsNotIncreasing,
    EndMultiplicitiesDiffer,
    MultiplicityTooLarge,
    ZeroMultiplicity,
    PoleCountMismatch,
    PoleCountOutOfRange,
    WeightCountMismatch,
    WeightOutOfRange,
    CoordinateOutOfRange,
}

// The table's number of a fault.
impl From<LineError> for u8 {
    ghost from_gives = { λ e n. n ≡ line_error_number e };

    fn from(e: LineError) -> u8 {
        match e {
            LineError::InvalidDegree => 4,
            LineError::KnotCount => 5,
            LineError::KnotOutOfRange => 6,
            LineError::KnotsNotIncreasing => 7,
            LineError::EndMultiplicitiesDiffer => 22,
            LineError::MultiplicityTooLarge => 8,
            LineError::ZeroMultiplicity => 9,
            LineError::PoleCountMismatch => 10,
            LineError::PoleCountOutOfRange => 11,
            LineError::WeightCountMismatch => 12,
            LineError::WeightOutOfRange => 13,
            LineError::CoordinateOutOfRange => 14,
        }
    }
}

fn all_within(s: &[f64], lo: f64, hi: f64) -> bool
    ensures { result ≡ every (within lo hi) s.now }
{
    s.iter().all(|x| floats::is_within(lo, hi, *x))
}

fn increasing(s: &[f64]) -> bool
    ensures { result ≡ each_two lt s.now }
{
    s.is_sorted_by(|a, b| a < b)
}

fn all_at_most(s: &[u32], most: u32) -> bool
    ensures { result ≡ every (λ m. leb m most) s.now }
{
    s.iter().all(|m| *m <= most)
}

fn all_positive(s: &[u32]) -> bool
    ensures { result ≡ every (λ m. ltb 0 m) s.now }
{
    s.iter().all(|m| *m > 0)
}

// The sum of the multiplicities: 128 of 32 bits each fit.
#[tactic(auto, using(lists::proofs::Tests::total_is_sum))]
fn sum(s: &[u32]) -> u64
    requires { length s.now ≤ 128 }
    ensures { result ≡ total s.now }
{
    s.iter().map(|m| u64::from(*m)).sum()
}

// Whether an end multiplicity is over degree + 1, or an inner one over the degree.
#[tactic(auto, unfolding(crate::specs::Admit::ends_too_large))]
fn ends_too_large(degree: u32, mults: &[u32]) -> bool
    requires { HasMults degree mults.now }
    ensures { result ≡ ends_too_large degree mults.now }
{
    let last = mults.len() - 1;
    mults[0] > degree + 1 || mults[last] > degree + 1 || !all_at_most(&mults[1..last], degree)
}

// Whether a multiplicity is over the degree; at the ends of an open line, over degree + 1.
#[tactic(auto, unfolding(crate::specs::Admit::too_large))]
fn too_large(closed: bool, degree: u32, mults: &[u32]) -> bool
    requires { HasMults degree mults.now }
    ensures { result ≡ too_large closed degree mults.now }
{
    if closed {
        !all_at_most(mults, degree)
    } else {
        ends_too_large(degree, mults)
    }
}

// Whether the first and the last multiplicity of a closed line differ.
#[tactic(auto, unfolding(crate::specs::Admit::ends_differ))]
fn ends_differ(closed: bool, mults: &[u32]) -> bool
    requires { 2 ≤ length mults.now }
    ensures { result ≡ ends_differ closed mults.now }
{
    closed && mults[0] != mults[mults.len() - 1]
}

// Numbers 4 to 7.
#[tactic(auto, unfolding(crate::specs::Admit::validate_knots))]
fn validate_knots(degree: u32, knots: &[f64], mults: &[u32]) -> Result<(), LineError>
    ensures { result ≡ validate_knots degree knots.now mults.now (Ok tt) }
{
    if degree < 1 || degree > 25 {
        return Err(LineError::InvalidDegree);
    }
    if knots.len() < 2 || knots.len() > 128 || mults.len() != knots.len() {
        return Err(LineError::KnotCount);
    }
    if !all_within(knots, -1048576.0, 1048576.0) {
        return Err(LineError::KnotOutOfRange);
    }
    if !increasing(knots) {
        return Err(LineError::KnotsNotIncreasing);
    }
    Ok(())
}

// Numbers 22, 8 and 9.
#[tactic(auto, unfolding(crate::specs::Admit::validate_mults))]
fn validate_mults(closed: bool, degree: u32, mults: &[u32]) -> Result<(), LineError>
    requires { HasMults degree mults.now }
    ensures { result ≡ validate_mults closed degree mults.now (Ok tt) }
{
    if ends_differ(closed, mults) {
        return Err(LineError::EndMultiplicitiesDiffer);
    }
    if too_large(closed, degree, mults) {
        return Err(LineError::MultiplicityTooLarge);
    }
    if !all_positive(mults) {
        return Err(LineError::ZeroMultiplicity);
    }
    Ok(())
}

// Numbers 4 to 9, 22 after 7.
fn validate_direction(l: Line) -> Result<(), LineError>
    ensures { let s = seen l.entry in
        result ≡ validate_direction s.closed s.degree s.knots s.mults (Ok tt) }
{
    validate_knots(l.degree, l.knots, l.mults)?;
    validate_mults(l.closed, l.degree, l.mults)
}

// What the sum of the multiplicities exceeds the poles by: degree + 1, on a closed line the last multiplicity.
#[tactic(auto, unfolding(crate::specs::Admit::beyond_of))]
fn beyond(closed: bool, degree: u32, mults: &[u32]) -> u64
    requires { HasMults degree mults.now }
    ensures { (result ≡ beyond_of closed degree mults.now) × (result < 4294967296) }
{
    if closed {
        u64::from(mults[mults.len() - 1])
    } else {
        u64::from(degree + 1)
    }
}

// Whether there are no weights, or one a pole.
fn weights_fit(n: usize, poles: usize) -> bool
    ensures { result ≡ (eqb n 0 || eqb n poles) }
{
    n == 0 || n == poles
}

// Numbers 10 to 14.
#[tactic(auto, unfolding(crate::specs::Admit::validate_poles))]
fn validate_poles(l: Line) -> Result<(), LineError>
    requires { HasMults l.degree l.mults.now × (length l.mults.now ≤ 128) }
    ensures { let s = seen l.entry in
        result ≡ validate_poles s.closed s.degree s.mults s.coords s.weights }
{
    let poles = l.coords.len() / 3;
    if l.coords.len() % 3 != 0
        || poles as u64 + beyond(l.closed, l.degree, l.mults) != sum(l.mults)
    {
        return Err(LineError::PoleCountMismatch);
    }
    if poles < l.degree as usize + 1 || poles > 128 {
        return Err(LineError::PoleCountOutOfRange);
    }
    if !weights_fit(l.weights.len(), poles) {
        return Err(LineError::WeightCountMismatch);
    }
    if !all_within(l.weights, 0.0009765625, 1024.0) {
        return Err(LineError::WeightOutOfRange);
    }
    if !all_within(l.coords, -16777216.0, 16777216.0) {
        return Err(LineError::CoordinateOutOfRange);
    }
    Ok(())
}

// Whether a line is admitted, and if not, the first fault in the table's order. Any slices at all.
pub fn admit(l: Line) -> Result<(), LineError>
    ensures { result ≡ admit_of (seen l.entry) }
{
    validate_direction(l)?;
    validate_poles(l)
}

// Whether two data are one number, and that from 1 to 9,999; where not, number 23.
#[tactic(auto, using(crate::proofs::Data::within_span, crate::proofs::Data::below_span, crate::proofs::Data::above_span))]
pub fn one_datum(a: u32, b: u32) -> bool
    ensures { result ≡ one_datum a b }
{
    1 <= a && a <= 9999 && a == b
}
