// Cuts made texts into lines and these into fields, by words and by bytes, and prints what both find: the sum of the
// places where fields end. Started with an argument, it prints how many times quicker words are.
#![tactic(auto)]

ghost use Rattle.std.specs.Prelude.{◌≤◌, length};

use search::{by_bytes, next_of};
use std::env::FillError;
use std::io;
use std::rt::{CpuClock, Env};

// What a text is made of: fields of `least` digits and up to `spread` more, and so many fields to a line besides the
// last.
#[derive(Clone, Copy)]
struct Shape {
    least: u64,
    spread: u8,
    fields: u64,
}

// Where a text is made: a number that looks drawn, how many digits its field has left, and how many fields its line.
#[derive(Clone, Copy)]
struct Spot {
    number: u64,
    digits: u64,
    fields: u64,
}

// A sum of places, and the processor time that it took.
#[derive(Clone, Copy)]
struct Timed {
    sum: u64,
    ticks: u64,
}

// The time of words and of bytes, and whether both find the same places.
#[derive(Clone, Copy)]
struct Turns {
    words: u64,
    bytes: u64,
    same: bool,
}

// How a text is searched for the next of two bytes.
trait Search {
    fn next(text: &[u8], from: usize, a: u8, b: u8) -> usize
        requires { from ≤ length text.now }
        ensures { (from ≤ result) × (result ≤ length text.now) };
}

struct Words;

struct Bytes;

impl Search for Words {
    #[tactic(auto, using(search::specs::Laws::next_within))]
    fn next(text: &[u8], from: usize, a: u8, b: u8) -> usize {
        next_of(text, from, a, b)
    }
}

impl Search for Bytes {
    #[tactic(auto, using(search::specs::Laws::next_within))]
    fn next(text: &[u8], from: usize, a: u8, b: u8) -> usize {
        by_bytes(text, from, a, b)
    }
}

// ---- Texts

fn byte_at(spot: Spot) -> u8 {
    if 0 < spot.digits {
        b'7'
    } else if 0 < spot.fields {
        b'\t'
    } else {
        b'\n'
    }
}

// A field ends where it has no digit left, and a line where it has no field left. The next number of digits is drawn.
fn advance(spot: &mut Spot, shape: Shape) {
    if 0 < spot.digits {
        spot.digits -= 1;
        return;
    }
    spot.number = (spot.number % 2147483648 * 1103515245 + 12345) % 2147483648;
    spot.digits = shape
        .least
        .wrapping_add(spot.number / 65536 % (u64::from(shape.spread) + 1));
    spot.fields = if 0 < spot.fields {
        spot.fields - 1
    } else {
        shape.fields
    };
}

fn fill(text: &mut [u8], shape: Shape) {
    let mut spot = Spot {
        number: 1,
        digits: shape.least,
        fields: shape.fields,
    };
    for b in text.iter_mut() {
        *b = byte_at(spot);
        advance(&mut spot, shape);
    }
}

// ---- The search

// The sum of the places where the fields of a line end. Not by `split`: the search is what is timed.
fn part<S: Search>(line: &[u8]) -> u64 {
    let mut sum = 0u64;
    let mut at = 0;
    while at < line.len() {
        let end = S::next(line, at, b'\t', b'\n');
        sum = sum.wrapping_add(end as u64);
        at = end + 1;
    }
    sum
}

// The same of all lines from a place on.
fn cut<S: Search>(text: &[u8], from: usize) -> u64 {
    let mut sum = 0u64;
    let mut at = from;
    while at < text.len() {
        let end = S::next(text, at, b'\n', b'\n');
        sum = sum.wrapping_add(part::<S>(&text[at..end]));
        at = end + 1;
    }
    sum
}

// The same from each of the first eight places on, so that fields begin at every place of a word.
fn cut_all<S: Search>(text: &[u8]) -> u64 {
    (0..8).fold(0u64, |sum, from| sum.wrapping_add(cut::<S>(text, from)))
}

// ---- What is printed

fn put_places(rt: &impl Print, text: &[u8]) -> io::Result<()> {
    print!(rt; "\twords\t{}", cut_all::<Words>(text))?;
    print!(rt; "\tbytes\t{}", cut_all::<Bytes>(text))
}

// The processor time used so far, in microseconds.
fn ticks(rt: &impl CpuClock) -> io::Result<u64> {
    let used = rt.process_cpu_time()?;
    let whole = used.as_secs().wrapping_mul(1000000);
    Ok(whole.wrapping_add(u64::from(used.subsec_micros())))
}

fn run<S: Search>(rt: &impl CpuClock, text: &[u8]) -> io::Result<Timed> {
    let begin = ticks(rt)?;
    let sum = cut_all::<S>(text);
    let end = ticks(rt)?;
    Ok(Timed {
        sum,
        ticks: end.wrapping_sub(begin),
    })
}

// Words and bytes, by turns.
fn take_turns(rt: &impl CpuClock, text: &[u8]) -> io::Result<Turns> {
    let mut turns = Turns {
        words: 0,
        bytes: 0,
        same: true,
    };
    for _ in 0..100 {
        let x = run::<Words>(rt, text)?;
        let y = run::<Bytes>(rt, text)?;
        turns.words = turns.words.wrapping_add(x.ticks);
        turns.bytes = turns.bytes.wrapping_add(y.ticks);
        turns.same = turns.same && x.sum == y.sum;
    }
    Ok(turns)
}

// How many times quicker words are, in hundredths.
fn put_ratio(rt: &impl Print, turns: Turns) -> io::Result<()> {
    let ratio = turns.bytes / (turns.words / 100 + 1);
    print!(rt; "\t{}.{}{}", ratio / 100, ratio / 10 % 10, ratio % 10)?;
    if !turns.same {
        print!(rt; "\tother places")?;
    }
    Ok(())
}

// `ratios` is the program's argument and asked in this one place: a closure for each answer would be no plainer.
fn try_text<R: Print + CpuClock>(
    rt: &R,
    name: &[u8],
    shape: Shape,
    ratios: bool,
) -> io::Result<()> {
    let mut text = [0u8; 65536];
    fill(&mut text, shape);
    rt.write_all(name)?;
    if ratios {
        put_ratio(rt, take_turns(rt, &text)?)?;
    } else {
        put_places(rt, &text)?;
    }
    println!(rt)
}

fn shaped(least: u64, spread: u8, fields: u64) -> Shape {
    Shape {
        least,
        spread,
        fields,
    }
}

// Whether the program was started with an argument.
fn has_argument(rt: &impl Env) -> bool {
    let mut start = [0u8; 1];
    !matches!(rt.arg(1, &mut start), Err(FillError::NotPresent))
}

fn main(rt: HostRuntime) -> io::Result<()> {
    let ratios = has_argument(&rt);
    try_text(&rt, b"fields of 1 to 3 digits", shaped(1, 2, 3), ratios)?;
    try_text(&rt, b"fields of 1 to 9 digits", shaped(1, 8, 3), ratios)?;
    try_text(&rt, b"fields of 1 to 13 digits", shaped(1, 12, 3), ratios)?;
    try_text(&rt, b"fields of 8 to 13 digits", shaped(8, 5, 3), ratios)?;
    try_text(
        &rt,
        b"lines of two fields of 1 to 7 digits",
        shaped(1, 6, 1),
        ratios,
    )?;
    try_text(&rt, b"runs of 1,000 digits", shaped(1000, 0, 0), ratios)
}
