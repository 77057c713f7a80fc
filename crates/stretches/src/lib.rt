// Stretch marks: which regions of a report are one stretch, over the seam of a closed line too.
#![tactic(auto)]

ghost use Rattle.std.specs.Prelude.{◌≡◌, ◌&&◌, cond, ◌+◌, ◌*◌, ◌≤◌, ◌<◌, eqb, length};
ghost use Rattle.std.specs.Float.Ieee.{eq};
ghost use Rattle.lists.specs.Parts.{patch};
ghost use Rattle.machine.specs.Marks.{relabel, unite, link, row_marks, count_from, marks_of};
ghost use Rattle.stretches.specs.Stretches.{over_seam, near_on, neighbours_of, near_in};

use regions::Region;
use terms::Seam;

// Whether a0, where one range starts, is lo, and b1, where the other ends, is hi.
fn at_ends(a0: f64, lo: f64, b1: f64, hi: f64) -> bool
    ensures { result ≡ (eq a0 lo && eq b1 hi) }
{
    a0 == lo && b1 == hi
}

// Whether two ranges meet over the seam: one starts at the asked lo while the other ends at the asked hi.
fn over_seam(s: Seam, a0: f64, a1: f64, b0: f64, b1: f64) -> bool
    ensures { result ≡ over_seam s a0 a1 b0 b1 }
{
    s.whole && (at_ends(a0, s.lo, b1, s.hi) || at_ends(b0, s.lo, a1, s.hi))
}

// Whether two ranges of one line meet plainly or over the seam.
fn near_on(s: Seam, a0: f64, a1: f64, b0: f64, b1: f64) -> bool
    ensures { result ≡ near_on s a0 a1 b0 b1 }
{
    regions::meet(a0, a1, b0, b1) || over_seam(s, a0, a1, b0, b1)
}

// Whether two regions are neighbours: on each line their ranges meet plainly or over the seam.
fn neighbours(s1: Seam, s2: Seam, a: Region, b: Region) -> bool
    ensures { result ≡ neighbours_of s1 s2 a b }
{
    near_on(s1, a.a0, a.a1, b.a0, b.a1) && near_on(s2, a.b0, a.b1, b.b0, b.b1)
}

// Each `from` becomes `to`.
fn lower(marks: &mut [u32], from: u32, to: u32)
    ensures { marks.new ≡ relabel from to marks.old }
{
    for m in marks.iter_mut() {
        if *m == from {
            *m = to;
        }
    }
}

// Marks a and b made one: the larger becomes the smaller. Equal ones, as most pairs of a group have, cost no pass.
fn unite(marks: &mut [u32], a: u32, b: u32)
    ensures { marks.new ≡ unite a b marks.old }
{
    if a < b {
        lower(marks, b, a);
    } else if b < a {
        lower(marks, a, b);
    }
}

// The marks of two neighbours, in places i and j, made one.
fn link(marks: &mut [u32], i: usize, j: usize)
    requires { (i < length marks.old) × (j < length marks.old) }
    ensures { marks.new ≡ link i j marks.old }
{
    let a = marks[i];
    let b = marks[j];
    unite(marks, a, b);
}

// Region i with each region before it, the last first.
fn mark_row(s1: Seam, s2: Seam, out: &[f64], i: usize, marks: &mut [u32])
    requires { (i < length marks.old) × (length marks.old * 10 ≤ length out.now) }
    ensures { marks.new ≡ row_marks (near_in s1 s2 out.now) i i marks.old }
{
    let r = regions::load(out, i);
    for j in (0..i).rev() {
        if neighbours(s1, s2, r, regions::load(out, j)) {
            link(marks, i, j);
        }
    }
}

// Each place its own mark.
fn number(marks: &mut [u32])
    requires { length marks.old ≤ 4294967295 }
    ensures { marks.new ≡ count_from 0 (length marks.old) }
{
    for k in 0..marks.len() {
        marks[k] = k as u32;
    }
}

// The marks of as many regions as `marks` has places.
fn mark_all(s1: Seam, s2: Seam, out: &[f64], marks: &mut [u32])
    requires { (length marks.old ≤ 4294967295) × (length marks.old * 10 ≤ length out.now) }
    ensures { marks.new ≡ marks_of (length marks.old) (near_in s1 s2 out.now) }
{
    number(marks);
    for i in (0..marks.len()).rev() {
        mark_row(s1, s2, out, i, marks);
    }
}

// The marks of the first n regions; the rest of `marks` stays.
pub fn mark(s1: Seam, s2: Seam, out: &[f64], n: usize, marks: &mut [u32])
    requires { (n ≤ 4294967295) × (n * 10 ≤ length out.now) × (n ≤ length marks.old) }
    ensures { marks.new ≡ patch marks.old 0 (marks_of n (near_in s1 s2 out.now)) }
{
    mark_all(s1, s2, out, &mut marks[..n]);
}
