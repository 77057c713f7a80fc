// The lines that the sheet program prints: counts, regions, a refusal.
#![tactic(auto)]

ghost use Rattle.std.specs.Prelude.{◌≡◌, ◌+◌, ◌*◌, ◌≤◌, length};
ghost use Rattle.texts.specs.Texts.{Wrote};
ghost use Rattle.printing.specs.Printed.{counts_length, region_length, refusal_length, counted, word_text, steps_text, settled_text, listed_text, count_line, float_texts, region_line, region_lines, refusal_line};

use regions::Word;
use states::Counts;

// A name and a number.
fn put_count(out: &mut [u8], at: usize, name: &[u8], n: u64) -> usize
    requires { at + length name.now + 20 ≤ length out.old }
    ensures wrote { Wrote out.old at (counted name.now n) out.new result }
    ensures upper_bound { result ≤ at + length name.now + 20 }
{
    let next = texts::put_bytes(out, at, name);
    texts::put_decimal(out, next, n)
}

fn put_word(out: &mut [u8], w: Word) -> usize
    requires { 11 ≤ length out.old }
    ensures wrote { Wrote out.old 0 (word_text w) out.new result }
    ensures upper_bound { result ≤ 11 }
{
    match w {
        Word::Complete => texts::put_bytes(out, 0, b"complete"),
        Word::Budget => texts::put_bytes(out, 0, b"budget"),
        Word::Unseparated => texts::put_bytes(out, 0, b"unseparated"),
    }
}

// Pairs, visits and splits.
fn put_steps(out: &mut [u8], at: usize, c: Counts) -> usize
    requires { at + 83 ≤ length out.old }
    ensures wrote { Wrote out.old at (steps_text c) out.new result }
    ensures upper_bound { result ≤ at + 83 }
{
    let pairs = put_count(out, at, b" pairs=", c.pairs as u64);
    let visits = put_count(out, pairs, b" visits=", c.visits);
    put_count(out, visits, b" splits=", c.splits as u64)
}

// Nodes settled, and by which test.
fn put_settled(out: &mut [u8], at: usize, c: Counts) -> usize
    requires { at + 107 ≤ length out.old }
    ensures wrote { Wrote out.old at (settled_text c) out.new result }
    ensures upper_bound { result ≤ at + 107 }
{
    let settled = put_count(out, at, b" settled=", c.settled as u64);
    let boxes = put_count(out, settled, b" box=", c.boxes as u64);
    let planes = put_count(out, boxes, b" plane=", c.planes as u64);
    put_count(out, planes, b" line=", c.lines as u64)
}

// Nodes given up and left.
fn put_listed(out: &mut [u8], at: usize, c: Counts) -> usize
    requires { at + 53 ≤ length out.old }
    ensures wrote { Wrote out.old at (listed_text c) out.new result }
    ensures upper_bound { result ≤ at + 53 }
{
    let given = put_count(out, at, b" given=", c.given as u64);
    put_count(out, given, b" left=", c.left as u64)
}

// The line of counts.
pub fn put_counts(out: &mut [u8], w: Word, c: Counts, regions: usize) -> usize
    requires { counts_length ≤ length out.old }
    ensures wrote { Wrote out.old 0 (count_line w c regions) out.new result }
    ensures upper_bound { result ≤ counts_length }
{
    let word = put_word(out, w);
    let steps = put_steps(out, word, c);
    let settled = put_settled(out, steps, c);
    let listed = put_listed(out, settled, c);
    let all = put_count(out, listed, b" regions=", regions as u64);
    texts::put_bytes(out, all, b"\n")
}

fn put_floats(out: &mut [u8], at: usize, xs: &[f64]) -> usize
    requires { at + 17 * length xs.now ≤ length out.old }
    ensures wrote { Wrote out.old at (float_texts xs.now) out.new result }
    ensures value { result ≡ at + 17 * length xs.now }
{
    let mut here = at;
    for x in xs {
        here = texts::put_float(out, here, *x);
    }
    here
}

// The line of a region and its mark.
fn put_region(out: &mut [u8], at: usize, region: &[f64], mark: u32) -> usize
    requires { (length region.now ≡ 10) × (at + region_length ≤ length out.old) }
    ensures wrote { Wrote out.old at (region_line region.now mark) out.new result }
    ensures upper_bound { result ≤ at + region_length }
{
    let floats = texts::put_bytes(out, at, b"region");
    let place = put_floats(out, floats, region);
    let end = put_count(out, place, b" ", mark as u64);
    texts::put_bytes(out, end, b"\n")
}

// The lines of the first `n` regions.
pub fn put_regions(out: &mut [u8], at: usize, list: &[f64], marks: &[u32], n: usize) -> usize
    requires { (n * 10 ≤ length list.now) × (n ≤ length marks.now) × (at + region_length * n ≤ length out.old) }
    ensures wrote { Wrote out.old at (region_lines n list.now marks.now) out.new result }
    ensures upper_bound { result ≤ at + region_length * n }
{
    let mut here = at;
    for k in 0..n {
        let from = k * 10;
        let to = from + 10;
        here = put_region(out, here, &list[from..to], marks[k]);
    }
    here
}

pub fn put_refusal(out: &mut [u8], number: u8, line: u8) -> usize
    requires { refusal_length ≤ length out.old }
    ensures { Wrote out.old 0 (refusal_line number line) out.new result }
{
    let first = put_count(out, 0, b"refused ", number as u64);
    let second = put_count(out, first, b" ", line as u64);
    texts::put_bytes(out, second, b"\n")
}
