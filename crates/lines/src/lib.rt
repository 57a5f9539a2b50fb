// Lines of values at a place of a text, and the line of names that a text starts with. Every kind of file has them so: how many values a line has, the
// lent row says, and its names are lent too. Others call line_at and starts.
#![tactic(auto)]

ghost use Rattle.std.specs.Prelude.{◌≡◌, ◌<◌, length, get_or};
ghost use Rattle.model.specs.Text.{line_feed};
ghost use Rattle.shows.specs.Files.{ends_of};
ghost use Rattle.lines.specs.Scanning.{line_at, LineSays, starts_with};

// The byte behind a line's last value, and behind the others.
pub const LINE_FEED: u8 = b'\n';

pub const COMMA: u8 = b',';

// The byte behind value c of a line of n values.
fn end_of(c: usize, n: usize) -> u8
    requires { c < n }
    ensures { result ≡ get_or (ends_of n) c line_feed }
{
    if c + 1 == n {
        return LINE_FEED;
    }
    COMMA
}

// The line at a place: its values to a row, as many as the row has places. The answer is the place behind the line, if one is there.
// Kept: the place beside the text, for what may not change: the definition `line_at` answers with a place of the whole text.
#[inline(always)]
pub fn line_at(text: &[u8], from: usize, row: &mut [u32]) -> Option<usize>
    ensures { LineSays (line_at (ends_of (length row.old)) text.now from) result row.new }
{
    let n = row.len();
    let mut at = from;
    for c in 0..n {
        let (v, next) = values::value_at(text, at, end_of(c, n))?;
        row[c] = v;
        at = next;
    }
    Some(at)
}

// The text starts with a line of names.
pub fn starts(text: &[u8], names: &[u8]) -> bool
    ensures { result ≡ starts_with names.now text.now }
{
    text.starts_with(names)
}
