// A value at a place of a text, with the byte that ends it: up to five digits, with zeros in front or not, and no more than 65,535. Every kind of file
// has its values so, and nothing here knows of show files. Others call value_at.
#![tactic(auto)]

ghost use Rattle.std.specs.Prelude.{◌≡◌};
ghost use Rattle.values.specs.Fields.{figure_at, digit_of, ended_at, value_at};

use model::limits::{MAX_DIGITS, MAX_VALUE};

// The digit at a place, if one stands there.
#[inline(always)]
fn digit_at(text: &[u8], i: usize) -> Option<u32>
    ensures { result ≡ digit_of (figure_at text.now i) }
{
    let b = *text.get(i)?;
    if b.is_ascii_digit() {
        return Some(u32::from(b - b'0'));
    }
    None
}

// The value v and the place behind its end, if the byte `end` stands behind it at i.
#[inline(always)]
fn ended_at(text: &[u8], i: usize, end: u8, v: u32) -> Option<(u32, usize)>
    ensures { result ≡ ended_at text.now end i v }
{
    if *text.get(i)? == end {
        return Some((v, i + 1));
    }
    None
}

// The value at a place with the byte that ends it, and the place behind that byte.
// Kept: n is counted by hand, since a `for` would be no plainer: the digits end where none follows, and what stands behind them needs both v and n.
// Kept: the place beside the text, for what may not change: the definition `value_at` answers with a place of the whole text.
#[inline(always)]
pub fn value_at(text: &[u8], at: usize, end: u8) -> Option<(u32, usize)>
    ensures { result ≡ value_at text.now end at }
{
    let mut v = digit_at(text, at)?;
    let mut n = 1;
    while let Some(d) = digit_at(text, at + n) {
        if MAX_DIGITS <= n {
            return None;
        }
        v = v * 10 + d;
        n += 1;
    }
    if MAX_VALUE < v {
        return None;
    }
    ended_at(text, at + n, end, v)
}
