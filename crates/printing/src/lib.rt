// The text that the unfolding program prints: numbers, lines and titles, put into lent bytes.
#![tactic(auto)]

ghost use Rattle.std.specs.Prelude.{◌≡◌, [], ◌∷◌, ◌++◌, ◌≤◌, ◌<◌, length};
ghost use Rattle.model.specs.Verdicts.{refusal};
ghost use Rattle.model.specs.Printed.{values_text, links_title, cues_title, refusal_text};
ghost use Rattle.codec.specs.Writing.{Puts};
ghost use Rattle.printing.specs.Stream.{ended_text, line_of, Fills, StartsWith};
ghost use Rattle.triples.specs.Marks.{marks_size};

use lines::{COMMA, LINE_FEED};
use triples::{LABEL_PLACES, MARKS};

// The titles.
const LINKS: [u8; 14] = *b"from,to,label\n";

const CUES: [u8; 5] = *b"cues\n";

const REFUSAL: [u8; 14] = *b"refusal,place\n";

// The longest line: three numbers of ten digits, each with a byte behind it.
const LINE: usize = 33;

// Where filling a buffer stopped: the place, and how many bytes are used.
#[derive(Drop)]
pub struct Filled {
    pub place: usize,
    pub used: usize,
}

// Writes a number and the byte behind it: the digits before the last one are those of its tenth, and the last one is the byte behind them.
// Kept: apart from the writing of a value in `codec`, which is without recursion for speed and knows five digits.
fn put_ended(n: u32, end: u8, out: &mut [u8]) -> usize
    requires { 11 ≤ length out.old }
    ensures { Puts (ended_text n end) out.old 0 result out.new }
{
    let last = codec::digit(n);
    if n < 10 {
        out[0] = last;
        out[1] = end;
        return 2;
    }
    let at = put_ended(n / 10, last, out);
    out[at] = end;
    at + 1
}

// Writes a line of one value, of two and of three.
// Kept: three functions, for one over a list is no plainer: it has to know which value is the last, and fixed lines of two and three are all that is printed.
pub fn put_one(a: u32, out: &mut [u8]) -> usize
    requires { 11 ≤ length out.old }
    ensures { Puts (values_text (a ∷ [])) out.old 0 result out.new }
{
    put_ended(a, LINE_FEED, out)
}

pub fn put_pair(a: u32, b: u32, out: &mut [u8]) -> usize
    requires { 22 ≤ length out.old }
    ensures { Puts (values_text (a ∷ b ∷ [])) out.old 0 result out.new }
{
    let at = put_ended(a, COMMA, out);
    at + put_one(b, &mut out[at..])
}

pub fn put_line(from: u32, to: u32, label: u32, out: &mut [u8]) -> usize
    requires { 33 ≤ length out.old }
    ensures { Puts (values_text (from ∷ to ∷ label ∷ [])) out.old 0 result out.new }
{
    let at = put_ended(from, COMMA, out);
    at + put_pair(to, label, &mut out[at..])
}

// Writes the line of the link from cue u that a place of the table stands for.
fn put_place(u: u32, place: usize, out: &mut [u8]) -> usize
    requires { (place < marks_size) × (33 ≤ length out.old) }
    ensures { Puts (line_of u place) out.old 0 result out.new }
{
    let to = (place / LABEL_PLACES) as u32;
    let label = (place % LABEL_PLACES) as u32;
    put_line(u, to, label, out)
}

// Puts the lines of the marked places from p up to e into a buffer, as long as there is room for any line.
// Kept: p and e are no plainer as a Range: they are places of the table of marks, none of the buffer, and the answer has a place of that table.
pub fn fill(m: &[u8; MARKS], u: u32, p: usize, e: usize, out: &mut [u8]) -> Filled
    requires { (p ≤ e) × (e ≤ marks_size) }
    ensures { Fills m.now u p e out.old result.place result.used out.new }
{
    let mut used = 0;
    for place in p..e {
        if m[place] != 1 {
            continue;
        }
        if out.len() - used < LINE {
            return Filled { place, used };
        }
        used += put_place(u, place, &mut out[used..]);
    }
    Filled { place: e, used }
}

// Puts the title of the links at the start of a buffer.
pub fn put_links_title(out: &mut [u8; 64]) -> usize
    ensures { StartsWith links_title result out.new }
{
    codec::put_bytes(&LINKS, out)
}

// Puts the count of cues there, with its title.
pub fn put_count(cues: u32, out: &mut [u8; 64]) -> usize
    ensures { StartsWith (cues_title ++ values_text (cues ∷ [])) result out.new }
{
    let at = codec::put_bytes(&CUES, out);
    at + put_one(cues, &mut out[at..])
}

// Puts a refusal there, with its title.
// Kept: alike to put_count but for the title and the line, of one value there and of two here; a function that is lent both is no plainer. And two numbers,
// by what may not change: the clause is of any two, which a `Refusal` is not.
pub fn put_refusal(number: u32, place: u32, out: &mut [u8; 64]) -> usize
    ensures { StartsWith (refusal_text (refusal number place)) result out.new }
{
    let at = codec::put_bytes(&REFUSAL, out);
    at + put_pair(number, place, &mut out[at..])
}
