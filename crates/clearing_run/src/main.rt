// Pairs of nets and gaps from standard input; boxes, sizes, verdicts and halves on standard output, floats as bits.
#![tactic(auto)]

ghost use Rattle.std.specs.Prelude.{◌≡◌, ◌+◌, ◌*◌, ◌<◌, ◌≤◌, length};

use boxes::Aabb;
use std::io;
use std::io::{Read, Write};
use verdicts::{Test, Verdict};

// The next eight bytes, low byte first.
fn read_word<R: Read>(from: &mut R) -> u64 {
    let mut bytes = [0u8; 8];
    streams::read_full(from, &mut bytes);
    u64::from_le_bytes(bytes)
}

fn read_float<R: Read>(from: &mut R) -> f64 {
    patterns::float(read_word(from))
}

// Sixteen hexadecimal digits and a space in one write: standard output has no buffer, and `write!` hands it each part by itself.
fn print_bits<W: Write>(to: &mut W, x: f64) -> io::Result<()> {
    let mut text = [b' '; 17];
    let mut digits = &mut text[..16];
    write!(digits, "{:016X}", patterns::pattern(x))?;
    to.write_all(&text)
}

fn print_net<W: Write>(to: &mut W, s: &[f64]) -> io::Result<()> {
    for x in s {
        print_bits(to, *x)?;
    }
    to.write_all(b"\n")
}

// The corners, zeros as +0, and the size.
fn print_box<W: Write>(to: &mut W, b: Aabb) -> io::Result<()> {
    for x in [b.x0, b.y0, b.z0, b.x1, b.y1, b.z1] {
        print_bits(to, x + 0.0)?;
    }
    print_bits(to, boxes::box_size(b))?;
    to.write_all(b"\n")
}

fn flag(yes: bool) -> &'static str {
    if yes { "yes" } else { "no" }
}

// A settled pair by the test that passed.
fn verdict_name(v: Verdict) -> &'static str {
    match v {
        Verdict::Settled(Test::Box) => "box",
        Verdict::Settled(Test::Plane) => "plane",
        Verdict::Settled(Test::Line) => "line",
        Verdict::Split => "split",
        Verdict::Unseparated => "unseparated",
    }
}

fn read_net<R: Read>(from: &mut R, s: &mut [f64]) {
    for x in s {
        *x = read_float(from);
    }
}

fn print_halves<W: Write>(to: &mut W, s: &mut [f64], w: usize) -> io::Result<()>
    requires { 2 * (4 * w) ≤ length s.old }
{
    nets::halve_slot(s, 0, w);
    let mid = 4 * w;
    let end = mid + 4 * w;
    print_net(to, &s[mid..end])?;
    print_net(to, &s[..mid])
}

fn print_tests<W: Write>(to: &mut W, first: &[f64], second: &[f64], gap: f64) -> io::Result<()> {
    let judged = clearing::judge_boxes(first, second, gap);
    let a = judged.a;
    let b = judged.b;
    let verdict = verdict_name(clearing::judge(first, second, gap));
    let apart = flag(boxes::boxes_apart(a, b, gap));
    let first_halved = flag(!boxes::second_halved(a, b));
    writeln!(to, "{verdict} {apart} {first_halved}")?;
    print_box(to, boxes::net_box(first))?;
    print_box(to, b)
}

// Reads both nets, of up to 32 points, into their slot 0, judges them from slot 1, and halves them.
fn run_nets<R: Read, W: Write>(
    from: &mut R,
    to: &mut W,
    s: &mut [f64],
    v: usize,
    t: &mut [f64],
    w: usize,
    gap: f64,
) -> io::Result<()>
    requires { (length s.old ≡ 256) × (length t.old ≡ 256) × (v ≤ 32) × (w ≤ 32) }
{
    let n = 4 * v;
    let m = 4 * w;
    read_net(from, &mut s[..n]);
    read_net(from, &mut t[..m]);
    nets::copy_slot(s, 0, v);
    nets::copy_slot(t, 0, w);
    print_tests(
        to,
        nets::net_of(s, t, 1, 1, v),
        nets::net_of(s, t, 2, 1, w),
        gap,
    )?;
    print_halves(to, s, v)?;
    print_halves(to, t, w)
}

fn run_case<R: Read, W: Write>(from: &mut R, to: &mut W) -> io::Result<()> {
    let v = read_word(from).min(32) as usize;
    let w = read_word(from).min(32) as usize;
    let gap = read_float(from);
    let mut s = [0.0; 256];
    let mut t = [0.0; 256];
    run_nets(from, to, &mut s, v, &mut t, w, gap)
}

// The number of pairs; then of each the two widths, the gap and the two nets.
fn main(rt: HostRuntime) -> io::Result<()> {
    let mut from = rt.stdin();
    let mut to = rt.stdout();
    for _ in 0..read_word(&mut from) {
        run_case(&mut from, &mut to)?;
    }
    Ok(())
}
