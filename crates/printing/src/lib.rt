// Text out: the line of an answer. It knows words and numbers, and no farm. What each function means is in
// specs/Model.antt.
#![tactic(auto)]

ghost use Rattle.std.specs.Prelude.{◌≡◌, ◌∷◌, ◌+◌, ◌*◌, ◌≤◌, length};
ghost use Rattle.text.specs.Model.{tab};
ghost use Rattle.text.specs.Writing.{Wrote, WroteWithin};
ghost use Rattle.printing.specs.Model.{decimal, answer_word, tabbed, line_text};

use itoa::write_digits;

// The first word of a line.
#[derive(Clone, Copy)]
pub enum Word {
    Open,
    Yes,
    Chunk,
    Clock,
    Account,
    Gone,
    Quote,
    No,
}

impl Word {
    // Its bytes.
    fn text(self) -> &'static [u8]
        ensures { (result.now ≡ answer_word self) × (length result.now ≤ 7) }
    {
        match self {
            Word::Open => b"open",
            Word::Yes => b"yes",
            Word::Chunk => b"chunk",
            Word::Clock => b"clock",
            Word::Account => b"account",
            Word::Gone => b"gone",
            Word::Quote => b"quote",
            Word::No => b"no",
        }
    }
}

// Writes a text at place `at` and answers the place behind it, as each function below does. `out` and `at` in no
// struct: `Wrote` and `WroteWithin` (text/specs/Writing.antt), in which every promise of printed text is written, speak
// of both.
fn put_text(out: &mut [u8], at: usize, text: &[u8]) -> usize
    requires { at + length text.now ≤ length out.old }
    ensures { Wrote text.now at out.old out.new result }
{
    let end = at + text.len();
    out[at..end].copy_from_slice(text);
    end
}

// A tab and a number in base ten. The digits are written where they are to stand, so their count is worked out: by way
// of the kit's buffer each number would be copied once more.
fn put_number(out: &mut [u8], at: usize, n: u64) -> usize
    requires { at + 21 ≤ length out.old }
    ensures { WroteWithin 21 (tab ∷ decimal n) at out.old out.new result }
{
    let next = put_text(out, at, b"\t");
    let end = next + n.max(1).ilog10() as usize + 1;
    write_digits(n, out, end);
    end
}

// Each number behind a tab.
fn put_numbers(out: &mut [u8], at: usize, numbers: &[u64]) -> usize
    requires { at + 21 * length numbers.now ≤ length out.old }
    ensures { WroteWithin (21 * length numbers.now) (tabbed numbers.now) at out.old out.new result }
{
    let mut place = at;
    for &n in numbers {
        place = put_number(out, place, n);
    }
    place
}

// Writes the line of an answer, its word and its numbers, at place `at` and answers the place behind it. A line takes
// at most 176 bytes.
pub fn put(out: &mut [u8], at: usize, word: Word, numbers: &[u64]) -> usize
    requires { (length numbers.now ≤ 8) × (at + 176 ≤ length out.old) }
    ensures { WroteWithin 176 (line_text word numbers.now) at out.old out.new result }
{
    let word_end = put_text(out, at, word.text());
    let line_end = put_numbers(out, word_end, numbers);
    put_text(out, line_end, b"\n")
}
