// Parts and numbers of a text.
ghost use Rattle.std.specs.Prelude.{◌≤◌, ◌<◌, ◌-◌, length};

// The part of a text up to the first byte that ends it, and what stands behind that byte.
fn cut<P: FnMut(&u8) -> bool>(text: &[u8], ends: P) -> (&[u8], &[u8])
    requires { P.IsAlwaysCallable ends }
    ensures { length result.1.now ≤ length text.now - 1 }
{
    match text.iter().position(ends) {
        Some(end) => (&text[..end], &text[end + 1..]),
        None => (text, b""),
    }
}

// A part of a line up to the mark, or to the line's end.
pub fn part(text: &[u8], mark: u8) -> (&[u8], &[u8])
    ensures { length result.1.now ≤ length text.now - 1 }
{
    cut(text, |b| *b == mark || *b == b'\n')
}

// A byte of a file that is copied: a semicolon stands for a line feed.
pub fn fed(byte: u8) -> u8 {
    if byte == b';' { b'\n' } else { byte }
}

// Whether a byte pads a value: a 0 that no digit stands before and that a digit follows.
fn pads(before: u8, byte: u8, behind: u8) -> bool {
    byte == b'0' && !before.is_ascii_digit() && behind.is_ascii_digit()
}

// Stores a byte, if there is room: how many are stored then.
// Kept: a count beside the list, by the figure at `unpad`.
fn keep(list: &mut [u8], n: usize, byte: u8) -> usize {
    if n < list.len() {
        list[n] = byte;
        return n + 1;
    }
    n
}

// Copies a file without the zeros that pad its values, as far as there is room: how many bytes.
// Kept: a counted loop and a lent array, by its figure: with a list that grows, or an iterator over the bytes, a padded file took 1.6 to 2.9 times as long.
pub fn unpad(file: &[u8], plain: &mut [u8]) -> usize {
    let mut before = b',';
    let mut n = 0;
    for i in 0..file.len() {
        let byte = file[i];
        let behind = if i + 1 < file.len() {
            file[i + 1]
        } else {
            b'\n'
        };
        if pads(before, byte, behind) {
            continue;
        }
        n = keep(plain, n, byte);
        before = byte;
    }
    n
}

// The numbers of a text, one after the other. Between numbers stands anything but a digit; 7x5 is five 7s.
#[derive(Drop)]
pub struct Numbers<'a> {
    text: &'a [u8],
    number: u32,
    times: u32,
}

impl<'a> Numbers<'a> {
    pub fn new(text: &'a [u8]) -> Numbers<'a> {
        Numbers {
            text,
            number: 0,
            times: 0,
        }
    }
}

impl<'a> Iterator for Numbers<'a> {
    type Item = u32;

    fn next(&mut self) -> Option<u32> {
        // Kept: a `while` that counts nothing: it goes on from word to word to the next that stands there at all.
        while self.times == 0 {
            if self.text.is_empty() {
                return None;
            }
            let (word, rest) = cut(self.text, |b| !b.is_ascii_digit() && *b != b'x');
            (self.number, self.times) = repeated(word);
            self.text = rest;
        }
        self.times -= 1;
        Some(self.number)
    }
}

// The number of digits and times signs, and how often it stands there: behind the last sign stands how often, before it the number.
fn repeated(word: &[u8]) -> (u32, u32) {
    let Some(first) = word.iter().position(|b| b.is_ascii_digit()) else {
        return (0, 0);
    };
    let mut parts = word[first..].rsplit(|b| *b == b'x').map(number);
    let last = parts.next().unwrap_or(0);
    match parts.next() {
        Some(number) => (number, last),
        None => (last, 1),
    }
}

// The number of these digits. One that is too large counts as 0, and the digits behind it begin another.
// Kept: no `parse`, by what may not change, what `main` does on every file of cases: `parse` refuses a number that is too large, and one with no digit.
fn number(digits: &[u8]) -> u32 {
    digits.iter().fold(0u32, |value, digit| {
        let tens = value.checked_mul(10);
        tens.and_then(|tens| tens.checked_add(u32::from(digit.wrapping_sub(b'0'))))
            .unwrap_or(0)
    })
}
