// The search for the next of two bytes: a word of eight bytes at a time, and the tail by bytes. It knows bytes, and no
// line. What the public functions find is in specs/Model.antt, why the test of a word is right in specs/Words.antt.
#![tactic(auto)]

ghost use Rattle.std.specs.Prelude.{◌≡◌, ◌/◌, position};
ghost use Rattle.std.specs.Int.Count.{count_trailing_zeros};
ghost use Rattle.search.specs.Model.{this, either, next_place};
ghost use Rattle.search.specs.Words.{bytes_of, Marks, Exact};

// 1 in each byte of a word, and the top bit of each byte.
const ONES: u64 = 0x0101_0101_0101_0101;

const TOPS: u64 = 0x8080_8080_8080_8080;

// ---- A word

// Eight bytes as one number, the first the lowest. It is one load once compiled.
fn eight(bytes: &[u8; 8]) -> u64
    ensures { bytes_of 8 result ≡ bytes.now }
{
    u64::from_le_bytes(*bytes)
}

// The top bit of the first byte of a word that is `byte`, and none below it; 0 where no byte is. The subtract borrows
// from a byte that is 0, and so wraps.
fn marks_of(w: u64, byte: u8) -> u64
    ensures { Marks (this byte) (bytes_of 8 w) result }
{
    let x = w ^ (u64::from(byte) * ONES);
    x.wrapping_sub(ONES) & !x & TOPS
}

// The marks of two bytes.
fn marks(w: u64, a: u8, b: u8) -> u64
    ensures { Exact (either a b) (bytes_of 8 w) result }
{
    marks_of(w, a) | marks_of(w, b)
}

// The byte of a word that the lowest mark is in.
fn mark_place(t: u64) -> usize
    ensures { result ≡ count_trailing_zeros 64 t / 8 }
{
    (t.trailing_zeros() / 8) as usize
}

// ---- A text

// Where one of two bytes stands first, byte by byte.
fn first_of(text: &[u8], a: u8, b: u8) -> Option<usize>
    ensures { result ≡ position (either a b) text.now }
{
    text.iter().position(|x| *x == a || *x == b)
}

// Where one of two bytes stands next, at `from` or behind it, byte by byte. Where none stands it answers the text's end
// (`next_place`): no Option, since a field ends there too.
pub fn by_bytes(text: &[u8], from: usize, a: u8, b: u8) -> usize
    ensures { result ≡ next_place (either a b) text.now from }
{
    match text.get(from..) {
        Some(rest) => from + first_of(rest, a, b).unwrap_or(rest.len()),
        None => from,
    }
}

// The same, eight bytes at a time and the tail by bytes.
pub fn next_of(text: &[u8], from: usize, a: u8, b: u8) -> usize
    ensures { result ≡ next_place (either a b) text.now from }
{
    let Some(mut rest) = text.get(from..) else {
        return from;
    };
    let mut i = from;
    while let Some((bytes, tail)) = rest.split_first_chunk() {
        let t = marks(eight(bytes), a, b);
        if t != 0 {
            return i + mark_place(t);
        }
        rest = tail;
        i += 8;
    }
    by_bytes(text, i, a, b)
}

// Where one byte stands next, at `from` or behind it.
pub fn find(text: &[u8], from: usize, byte: u8) -> usize
    ensures { result ≡ next_place (this byte) text.now from }
{
    next_of(text, from, byte, byte)
}
