// Regions of ten floats by value, and merging those that touch.
#![tactic(auto)]

ghost use Rattle.std.specs.Prelude.{◌≡◌, cond, ◌++◌, [], reverse, ◌+◌, ◌-◌, ◌*◌, ◌≤◌, ◌<◌, length, take, drop, replicate};
ghost use Rattle.lists.specs.Parts.{block, patch};
ghost use Rattle.floats.specs.Floats.{zero64};
ghost use Rattle.machine.specs.Merge.{take1, grown, remaining, take_in, gather, insert, ordered, merged};
ghost use Rattle.regions.specs.Regions.{meet_of, touches_of, union_of, merging, flat, region_at, regions_in};
ghost use Rattle.regions.specs.Reports.{word_for, word_number, report_slice};

// The ranges of the first and of the second line, and the lowest and the highest corner of a box.
#[derive(Clone, Copy)]
pub struct Region {
    pub a0: f64,
    pub a1: f64,
    pub b0: f64,
    pub b1: f64,
    pub x0: f64,
    pub y0: f64,
    pub z0: f64,
    pub x1: f64,
    pub y1: f64,
    pub z1: f64,
}

// A report's first word.
#[derive(Clone, Copy, Debug, PartialEq, Eq)]
pub enum Word {
    Complete,
    Budget,
    Unseparated,
}

// The word's number, as other programs are handed it.
impl From<Word> for u8 {
    ghost from_gives = { λ word n. n ≡ word_number word };

    fn from(word: Word) -> u8 {
        match word {
            Word::Complete => 0,
            Word::Budget => 1,
            Word::Unseparated => 2,
        }
    }
}

// What one pass leaves: the region as grown, and how many stay.
#[derive(Clone, Copy)]
struct Swept {
    grown: Region,
    kept: usize,
}

// Whether two closed ranges meet.
pub fn meet(a0: f64, a1: f64, b0: f64, b1: f64) -> bool
    ensures { result ≡ meet_of a0 a1 b0 b1 }
{
    a0 <= b1 && b0 <= a1
}

// Whether the ranges of both lines meet; the boxes take no part.
fn touches(a: Region, b: Region) -> bool
    ensures { result ≡ touches_of a b }
{
    meet(a.a0, a.a1, b.a0, b.a1) && meet(a.b0, a.b1, b.b0, b.b1)
}

// The smallest ranges and the smallest box that hold both.
fn union(a: Region, b: Region) -> Region
    ensures { result ≡ union_of a b }
{
    Region {
        a0: floats::min(a.a0, b.a0),
        a1: floats::max(a.a1, b.a1),
        b0: floats::min(a.b0, b.b0),
        b1: floats::max(a.b1, b.b1),
        x0: floats::min(a.x0, b.x0),
        y0: floats::min(a.y0, b.y0),
        z0: floats::min(a.z0, b.z0),
        x1: floats::max(a.x1, b.x1),
        y1: floats::max(a.y1, b.y1),
        z1: floats::max(a.z1, b.z1),
    }
}

// r in the i-th place of ten floats.
pub fn store(s: &mut [f64], i: usize, r: Region)
    requires { (i + 1) * 10 ≤ length s.old }
    ensures { s.new ≡ patch s.old (i * 10) (flat r) }
{
    lists::put(
        s,
        i * 10,
        [r.a0, r.a1, r.b0, r.b1, r.x0, r.y0, r.z0, r.x1, r.y1, r.z1],
    );
}

// The region in the i-th place of ten floats.
pub fn load(s: &[f64], i: usize) -> Region
    requires { (i + 1) * 10 ≤ length s.now }
    ensures { result ≡ region_at (block 10 i s.now) }
{
    let at = i * 10;
    Region {
        a0: s[at],
        a1: s[at + 1],
        b0: s[at + 2],
        b1: s[at + 3],
        x0: s[at + 4],
        y0: s[at + 5],
        z0: s[at + 6],
        x1: s[at + 7],
        y1: s[at + 8],
        z1: s[at + 9],
    }
}

// One turn of a pass: the grown region takes r in, or r stays behind those that stay.
fn sweep_one(out: &mut [f64], s: Swept, r: Region) -> Swept
    requires { (s.kept + 1) * 10 ≤ length out.old }
    ensures grown_value { (result.grown ≡ take1 merging (touches_of s.grown r) s.grown r) × (result.kept ≡ cond (touches_of s.grown r) s.kept (s.kept + 1)) }
    ensures out_after { out.new ≡ cond (touches_of s.grown r) out.old (patch out.old (s.kept * 10) (flat r)) }
{
    let grown = s.grown;
    let kept = s.kept;
    if touches(grown, r) {
        return Swept {
            grown: union(grown, r),
            kept,
        };
    }
    store(out, kept, r);
    Swept {
        grown,
        kept: kept + 1,
    }
}

// One pass over the first n regions: r takes in those that it touches, as grown so far; the others stay in order.
fn sweep(out: &mut [f64], n: usize, r: Region) -> Swept
    requires { n * 10 ≤ length out.old }
    ensures grown_value { (result.grown ≡ grown merging r (regions_in n out.old))
        × (result.kept ≡ length (remaining merging r (regions_in n out.old)))
        × (result.kept ≤ n) }
    ensures out_after { (regions_in result.kept out.new ≡ remaining merging r (regions_in n out.old))
        × (drop (n * 10) out.new ≡ drop (n * 10) out.old) }
{
    let mut s = Swept { grown: r, kept: 0 };
    for i in 0..n {
        s = sweep_one(out, s, load(out, i));
    }
    s
}

// r taken into the first n regions: passes until one takes in nothing, then r as grown behind what stays. Answers how many there are.
fn absorb(out: &mut [f64], n: usize, r: Region) -> usize
    requires { (n + 1) * 10 ≤ length out.old }
    ensures value { (result ≡ length (take_in merging r (regions_in n out.old))) × (result ≤ n + 1) }
    ensures out_after { (regions_in result out.new ≡ take_in merging r (regions_in n out.old))
        × (drop ((n + 1) * 10) out.new ≡ drop ((n + 1) * 10) out.old) }
{
    let mut had = n;
    let mut s = sweep(out, n, r);
    // no `for`: how many passes there are is not known before
    while s.kept < had {
        had = s.kept;
        s = sweep(out, had, s.grown);
    }
    store(out, had, s.grown);
    had + 1
}

// The first n regions of raw, taken from the end, each with those that it touches merged. Answers how many there are.
fn gather(raw: &[f64], n: usize, out: &mut [f64]) -> usize
    requires { (n * 10 ≤ length raw.now) × (n * 10 ≤ length out.old) }
    ensures { (result ≤ n)
        × (regions_in result out.new ≡ gather merging (reverse (regions_in n raw.now)) [])
        × (drop (n * 10) out.new ≡ drop (n * 10) out.old) }
{
    let mut m = 0usize;
    for i in (0..n).rev() {
        m = absorb(out, m, load(raw, i));
    }
    m
}

// Region k moved up behind each of the regions k + 1 .. n - 1 that starts before it.
fn insert(out: &mut [f64], k: usize, n: usize)
    requires { (k < n) × (n * 10 ≤ length out.old) }
    ensures out_after { regions_in n out.new
        ≡ take k (regions_in n out.old) ++ insert merging (region_at (block 10 k out.old))
        (drop (k + 1) (regions_in n out.old)) }
    ensures out_unchanged { drop (n * 10) out.new ≡ drop (n * 10) out.old }
{
    let r = load(out, k);
    let mut j = k;
    // no `for`: the loop ends at the first region that doesn't start before r
    while j + 1 < n && out[(j + 1) * 10] < r.a0 {
        store(out, j, load(out, j + 1));
        j += 1;
    }
    store(out, j, r);
}

// The first n regions ordered by first start, equal starts as they came.
fn sort(out: &mut [f64], n: usize)
    requires { n * 10 ≤ length out.old }
    ensures { (regions_in n out.new ≡ ordered merging (regions_in n out.old))
        × (drop (n * 10) out.new ≡ drop (n * 10) out.old) }
{
    for k in (0..n).rev() {
        insert(out, k, n);
    }
}

// The first n regions of raw merged, then +0 up to n regions; the rest of `out` stays. Answers how many merged ones there are.
pub fn merged(raw: &[f64], n: usize, out: &mut [f64]) -> usize
    requires { (n * 10 ≤ length raw.now) × (n * 10 ≤ length out.old) }
    ensures value { result ≡ length (merged merging (regions_in n raw.now)) }
    ensures out_after { out.new ≡ report_slice n (merged merging (regions_in n raw.now)) out.old }
{
    let m = gather(raw, n, out);
    sort(out, m);
    out[m * 10..n * 10].fill(0.0);
    m
}

// A report's word, by how many nodes were given up and how many are left.
pub fn word_of(given: usize, left: usize) -> Word
    ensures { result ≡ word_for given left }
{
    if left > 0 {
        return Word::Budget;
    }
    if given > 0 {
        Word::Unseparated
    } else {
        Word::Complete
    }
}
