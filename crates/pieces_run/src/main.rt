// Reads questions about two lines and writes for each its refusal, number and line, or the nets of all pieces of both lines,
// sixteen hexadecimal digits a number.
// A line is five words (degree, counts of knots, multiplicities, coordinates, weights), the knots, coordinates, weights, lo and hi as floats,
// and the multiplicities as words; a question is two lines, the gap and S. Words have 32 bits, floats 64, low byte first.
#![tactic(auto)]

ghost use Rattle.std.specs.Prelude.{◌≡◌, ◌+◌, ◌*◌, ◌≤◌, length, Ok, IfSome};
ghost use Rattle.lines.specs.Lines.{seen};
ghost use Rattle.lines.specs.Admit.{admit_of};
ghost use Rattle.pieces_run.specs.Headers.{Fits};

use lines::Line;
use points::Interval;
use std::io;
use std::io::{Read, Write};

// The counts of a line, no more than the memory lent here holds.
#[derive(Clone, Copy)]
struct Header {
    degree: u32,
    knots: usize,
    mults: usize,
    coords: usize,
    weights: usize,
}

// Reads the whole of `bytes` at once, since standard input has no buffer: whether the input had so many.
fn read_whole<R: Read>(from: &mut R, bytes: &mut [u8]) -> bool
    ensures { length bytes.new ≡ length bytes.old }
{
    streams::read_full(from, bytes) == bytes.len()
}

fn read_word<R: Read>(from: &mut R) -> Option<u32> {
    let mut bytes = [0u8; 4];
    if streams::read_full(from, &mut bytes) < 4 {
        return None;
    }
    Some(u32::from_le_bytes(bytes))
}

fn read_float<R: Read>(from: &mut R) -> Option<f64> {
    let mut bytes = [0u8; 8];
    if streams::read_full(from, &mut bytes) < 8 {
        return None;
    }
    Some(patterns::float_of_bytes(&bytes))
}

fn read_header<R: Read>(from: &mut R) -> Option<Header>
    ensures { IfSome result Fits }
{
    let mut bytes = [0u8; 20];
    if !read_whole(from, &mut bytes) {
        return None;
    }
    let mut words: &[u8] = &bytes;
    let degree = read_word(&mut words)?;
    let knots = read_word(&mut words)? as usize;
    let mults = read_word(&mut words)? as usize;
    let coords = read_word(&mut words)? as usize;
    let weights = read_word(&mut words)? as usize;
    if knots > 130 || mults > 130 || coords > 400 || weights > 130 {
        return None;
    }
    Some(Header {
        degree,
        knots,
        mults,
        coords,
        weights,
    })
}

// Reads as many as `out` holds.
fn fill<R: Read, T: Copy, F: Fn(&mut R) -> Option<T>>(
    from: &mut R,
    out: &mut [T],
    read: F,
) -> Option<()>
    requires { F.IsAlwaysCallable read }
{
    for x in out {
        *x = read(from)?;
    }
    Some(())
}

// Reads a line: its floats to the front of `floats`, lo and hi behind them, and its multiplicities to the front of `mults`.
fn read_line<R: Read>(from: &mut R, floats: &mut [f64], mults: &mut [u32]) -> Option<Header>
    requires { (length floats.old ≡ 662) × (length mults.old ≡ 130) }
    ensures { IfSome result Fits }
{
    let h = read_header(from)?;
    let count = h.knots + h.coords + h.weights + 2;
    let mut bytes = [0u8; 5816];
    let held = &mut bytes[..8 * count + 4 * h.mults];
    if !read_whole(from, held) {
        return None;
    }
    let mut numbers: &[u8] = held;
    fill(&mut numbers, &mut floats[..count], read_float)?;
    fill(&mut numbers, &mut mults[..h.mults], read_word)?;
    Some(h)
}

// The line that was read.
fn line<'a>(h: Header, floats: &'a [f64], mults: &'a [u32]) -> Line<'a>
    requires { Fits h × (length floats.now ≡ 662) × (length mults.now ≡ 130) }
{
    let c = h.knots + h.coords;
    Line {
        closed: false,
        degree: h.degree,
        knots: &floats[..h.knots],
        mults: &mults[..h.mults],
        coords: &floats[h.knots..c],
        weights: &floats[c..c + h.weights],
    }
}

// The range that was read.
fn range(h: Header, floats: &[f64]) -> Interval
    requires { Fits h × (length floats.now ≡ 662) }
{
    let w = h.knots + h.coords + h.weights;
    Interval {
        lo: floats[w],
        hi: floats[w + 1],
    }
}

fn print_refusal<W: Write>(to: &mut W, number: u8, line: u8) -> io::Result<()> {
    writeln!(to, "refused {number} {line}")
}

// A space and the float's sixteen digits in one write: standard output has no buffer, and `write!` hands it each part by itself.
fn print_float<W: Write>(to: &mut W, x: f64) -> io::Result<()> {
    let mut text = [b' '; 17];
    let mut digits = &mut text[1..];
    write!(digits, "{:016X}", patterns::pattern(x))?;
    to.write_all(&text)
}

fn print_net<W: Write>(to: &mut W, line: u8, number: usize, net: &[f64]) -> io::Result<()> {
    write!(to, "piece {line} {number}")?;
    for x in net {
        print_float(to, *x)?;
    }
    to.write_all(b"\n")
}

// The nets of an admitted line.
fn print_pieces<W: Write>(to: &mut W, line: u8, l: Line, r: Interval) -> io::Result<()>
    requires { admit_of (seen l) ≡ Ok tt }
{
    // 256 nets of 26 points
    let mut out = [0.0; 26624];
    let n = curves::piece_count(l, r);
    curves::line_pieces(l, r, &mut out);
    for i in 0..n {
        print_net(to, line, i, nets::slot(&out, i, l.degree as usize + 1))?;
    }
    Ok(())
}

fn answer<W: Write>(
    to: &mut W,
    l1: Line,
    r1: Interval,
    l2: Line,
    r2: Interval,
    gap: f64,
    splits: u32,
) -> io::Result<()> {
    if let Err(e) = lines::admit(l1) {
        return print_refusal(to, u8::from(e), 1);
    }
    if let Err(e) = lines::admit(l2) {
        return print_refusal(to, u8::from(e), 2);
    }
    if let Err(e) = questions::ask(l1, r1, l2, r2, gap, splits) {
        return print_refusal(to, u8::from(e), e.line().map_or(0, u8::from));
    }
    print_pieces(to, 1, l1, r1)?;
    print_pieces(to, 2, l2, r2)
}

// One question read and answered; nothing where the input ends.
fn run_question<R: Read, W: Write>(from: &mut R, to: &mut W) -> Option<io::Result<()>> {
    let mut floats1 = [0.0; 662];
    let mut mults1 = [0u32; 130];
    let mut floats2 = [0.0; 662];
    let mut mults2 = [0u32; 130];
    let h1 = read_line(from, &mut floats1, &mut mults1)?;
    let h2 = read_line(from, &mut floats2, &mut mults2)?;
    let mut bytes = [0u8; 12];
    if !read_whole(from, &mut bytes) {
        return None;
    }
    let mut numbers: &[u8] = &bytes;
    let gap = read_float(&mut numbers)?;
    let splits = read_word(&mut numbers)?;
    Some(answer(
        to,
        line(h1, &floats1, &mults1),
        range(h1, &floats1),
        line(h2, &floats2, &mults2),
        range(h2, &floats2),
        gap,
        splits,
    ))
}

fn main(rt: HostRuntime) -> io::Result<()> {
    let mut from = rt.stdin();
    let mut to = rt.stdout();
    for _ in 0..1000000usize {
        match run_question(&mut from, &mut to) {
            None => return Ok(()),
            Some(told) => told?,
        }
    }
    Ok(())
}
