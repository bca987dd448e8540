// Text in: one line, given without its newline, and the record that it is. It knows bytes and numbers, and no farm.
// What the public functions mean is in specs/Model.antt, what their parts work out in specs/Steps.antt and
// specs/Separators.antt.
#![tactic(auto)]

ghost use Rattle.std.specs.Prelude.{◌≡◌, [], ◌≤◌, length, drop, replicate, IfSome};
ghost use Rattle.reading.specs.Model.{kind_of, fits, row_with, row_of};
ghost use Rattle.reading.specs.Separators.{field_from, end_of};
ghost use Rattle.reading.specs.Steps.{number_in, behind, gathered, answer_of};

use search::next_of;

// The kind of a line, which its first field names; and that of a line that cannot be read.
// `Unreadable` is no Option: `kind_of`, `row_with` and `row_of` of specs/Model.antt, and theorems on them, speak of it.
#[derive(Clone, Copy)]
pub enum Kind {
    Farm,
    Job,
    Clock,
    Account,
    Withdraw,
    Quote,
    Unreadable,
}

// A line's record: its kind, how many numbers it keeps, and these.
// The count stands beside the numbers: memory is fixed, and `row_with` and `row_kept` of specs/ speak of both.
#[derive(Clone, Copy)]
pub struct Row {
    pub kind: Kind,
    pub count: usize,
    pub numbers: [u64; 39],
}

// Fields that are numbers: how many they are, and the first of them. No ArrayVec: the count goes on above 39, where no
// number is kept (`gathered`).
#[derive(Clone, Copy)]
struct Numbers {
    count: usize,
    numbers: [u64; 39],
}

// Where the field from `from` on ends, at the next tab or at the line's end; none at a newline.
#[tactic(auto, using(search::specs::Laws::next_within))]
fn field_from(line: &[u8], from: usize) -> Option<usize>
    requires { from ≤ length line.now }
    ensures place { result ≡ end_of (field_from line.now from) }
    ensures within { IfSome result (λ end. (from ≤ end) × (end ≤ length line.now)) }
{
    let end = next_of(line, from, b'\t', b'\n');
    match line.get(end) {
        Some(b'\n') => None,
        _ => Some(end),
    }
}

// ---- The kind

// The kind that a word names. By `==`, since a `match` on the words leaves open goals, one for each byte that differs.
#[tactic(auto, using(crate::specs::Steps::kind_is))]
fn kind_of(word: &[u8]) -> Kind
    ensures { result ≡ kind_of word.now }
{
    if word == b"farm".as_slice() {
        Kind::Farm
    } else if word == b"job".as_slice() {
        Kind::Job
    } else if word == b"clock".as_slice() {
        Kind::Clock
    } else if word == b"account".as_slice() {
        Kind::Account
    } else if word == b"withdraw".as_slice() {
        Kind::Withdraw
    } else if word == b"quote".as_slice() {
        Kind::Quote
    } else {
        Kind::Unreadable
    }
}

// Whether a kind has that many numbers.
fn fitting(kind: Kind, count: usize) -> bool
    ensures { result ≡ fits kind count }
{
    match kind {
        Kind::Farm => 6 <= count,
        Kind::Job => (3..=4).contains(&count),
        Kind::Clock => count == 1,
        Kind::Account => count == 1,
        Kind::Withdraw => count == 1,
        Kind::Quote => (3..=4).contains(&count),
        Kind::Unreadable => false,
    }
}

// ---- The numbers

// A field of 1 to 13 digits and its value.
fn digits(field: &[u8]) -> Option<u64>
    ensures { result ≡ number_in field.now }
{
    if !(1..=13).contains(&field.len()) {
        return None;
    }
    let mut value: u64 = 0;
    for b in field {
        if !b.is_ascii_digit() {
            return None;
        }
        value = value * 10 + u64::from(*b - b'0');
    }
    Some(value)
}

// The numbers in the fields behind the tab at `from`; none where a field is no number. Past the last place a number is
// counted and not kept.
fn gather(line: &[u8], from: usize) -> Option<Numbers>
    requires { from ≤ length line.now }
    ensures { result ≡ answer_of (gathered 0 (replicate 39 0) (behind (drop from line.now))) }
{
    let mut numbers = [0u64; 39];
    let mut count = 0;
    let mut at = from;
    // From field to field: the search of words finds each end, where `split` would look at each byte.
    while at < line.len() {
        let end = field_from(line, at + 1)?;
        let value = digits(&line[at + 1..end])?;
        // By an index: the contract of `get_mut` says nothing of what the numbers end as, so no proof closes.
        if count < numbers.len() {
            numbers[count] = value;
        }
        count += 1;
        at = end;
    }
    Some(Numbers { count, numbers })
}

// ---- A line

// The record of a line that cannot be read.
pub fn unreadable() -> Row
    ensures { result ≡ row_with Kind.Unreadable [] }
{
    Row {
        kind: Kind::Unreadable,
        count: 0,
        numbers: [0; 39],
    }
}

// The record of a line of any length and any bytes. Every field is read, also those whose numbers are not kept.
pub fn read(line: &[u8]) -> Row
    ensures { result ≡ row_of line.now }
{
    let Some(end) = field_from(line, 0) else {
        return unreadable();
    };
    let kind = kind_of(&line[..end]);
    let Some(x) = gather(line, end) else {
        return unreadable();
    };
    if !fitting(kind, x.count) {
        return unreadable();
    }
    // By a variable: a field that is an array, put into a literal straight, gets no generated proof.
    let numbers = x.numbers;
    Row {
        kind,
        count: x.count.min(39),
        numbers,
    }
}
