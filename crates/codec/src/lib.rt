// The show file as bytes. Others call parse, which reads it to rows; measure and emit, which write it from rows; and put_bytes.
#![tactic(auto)]

ghost use Rattle.std.specs.Prelude.{◌≡◌, true, ◌+◌, ◌*◌, ◌-◌, ◌≤◌, ◌<◌, length, take, drop};
ghost use Rattle.std.proofs.lemmas.List.Edits.{sets};
ghost use Rattle.model.specs.Choice.{if_lt};
ghost use Rattle.model.specs.Limits.{row_size, max_bytes, max_rows};
ghost use Rattle.model.specs.Values.{digits, digit_at};
ghost use Rattle.model.specs.Text.{comma, names, ends};
ghost use Rattle.model.specs.Rows.{rows_from, rows_of, row_lines, file_text};
ghost use Rattle.model.specs.Lists.{overwrite};
ghost use Rattle.model.specs.Verdicts.{read_file};
ghost use Rattle.lines.specs.Scanning.{line_at};
ghost use Rattle.codec.specs.Scanning.{RowSays, StepSays, names_size, starts_named};
ghost use Rattle.codec.specs.Parsing.{Parses};
ghost use Rattle.codec.specs.Writing.{table_size, one, two, value_text, row_text, Puts, Spills, short_texts};

use lines::{COMMA, LINE_FEED};
use model::limits::{MAX_BYTES, ROW_SIZE};
use model::{Reason, Refusal};

// The place of a row's last value.
const LAST: usize = ROW_SIZE - 1;

// The line of names, and its bytes.
const NAMES: [u8; NAMES_SIZE] = *b"block,kind,label,a,b,c,d,e,f,g,h\n";

const NAMES_SIZE: usize = 33;

// Reading: rows at a place of the file, and the reader that goes through it. Their lines are read by crates/lines.

// A file and the place in it where the next line begins.
#[derive(Drop)]
struct Reader<'a> {
    file: &'a [u8],
    at: usize,
}

impl<'a> Reader<'a> {
    // The reader of a file at a place.
    fn new(file: &'a [u8], at: usize) -> Self
        ensures { (result.file ≡ file.entry) × (result.at ≡ at) }
    {
        Reader { file, at }
    }

    // The step over a line, which goes to row n; at the file's end there is none. A line that is none is refused.
    // Kept: n counts the rows so far, and a refusal needs it for its line. With what is left of the rows lent in place of all, n would stay, and so would the
    // spare row for the lines that are checked and counted without room.
    fn next_row(&mut self, rows: &mut [u32], n: usize) -> Result<bool, Refusal>
        requires { n ≤ max_bytes }
        ensures file { self.new.file ≡ self.old.file }
        ensures step { StepSays self.old.file.now self.old.at n result self.new.at rows.old rows.new }
    {
        if self.file.len() <= self.at {
            return Ok(false);
        }
        let Some(next) = row_at(self.file, self.at, rows, n) else {
            return Err(Refusal {
                reason: Reason::BadLine,
                place: n as u32 + 2,
            });
        };
        self.at = next;
        Ok(true)
    }
}

// The line at a place: its values to row r, if there is room for that row.
// Kept: r and no part, which is no plainer: for some lines there is no part, and that is decided here alone.
fn row_at(file: &[u8], at: usize, rows: &mut [u32], r: usize) -> Option<usize>
    ensures { RowSays (line_at ends file.now at) r result rows.old rows.new }
{
    if r < rows.len() / ROW_SIZE {
        let a = r * ROW_SIZE;
        return lines::line_at(file, at, &mut rows[a..a + ROW_SIZE]);
    }
    let mut spare = [0; ROW_SIZE];
    lines::line_at(file, at, &mut spare)
}

// The file starts with the line of names.
fn named(file: &[u8]) -> bool
    ensures { result ≡ starts_named file.now }
{
    lines::starts(file, &NAMES)
}

// Reads the lines behind the line of names: one reader goes through them, line by line.
// Kept: n is counted by hand, since a `for` would be no plainer: the reader says where the file ends, and n is the answer.
fn read_lines(file: &[u8], rows: &mut [u32]) -> Result<usize, Refusal>
    requires { (length file.now ≤ max_bytes) × (starts_named file.now ≡ true) }
    ensures { Parses (read_file file.now) result rows.old rows.new }
{
    let mut reader = Reader::new(file, NAMES_SIZE);
    let mut n = 0;
    while reader.next_row(rows, n)? {
        n += 1;
    }
    Ok(n)
}

// Reads a file to rows, and says how many it has. Rows for which there is no room are checked and counted, but not stored. What a refused file leaves in the
// list is left open.
pub fn parse(file: &[u8], rows: &mut [u32]) -> Result<usize, Refusal>
    ensures { Parses (read_file file.now) result rows.old rows.new }
{
    if MAX_BYTES < file.len() {
        return Err(Refusal {
            reason: Reason::FileTooLong,
            place: 0,
        });
    }
    if named(file) {
        return read_lines(file, rows);
    }
    Err(Refusal {
        reason: Reason::BadNames,
        place: 1,
    })
}

// Writing: the length of a file; then digits, values, rows and lines, each to the start of the bytes that are lent. The answer is how many were written.

// The values that have a ready text, and the bytes of each. No value of accepted rows is larger.
const TABLE: u32 = 264;

const TEXT: usize = 5;

// The ready texts: a value with its comma in four bytes, filled up with commas, and then how many of the four count.
static TEXTS: [u8; 1320] =
    *b"0,,,21,,,22,,,23,,,24,,,25,,,26,,,27,,,28,,,29,,,210,,311,,312,,313,,314,,315,,316,,317,,318,,319,,320,,321,,322,,323,,324,,325,,326,,327,,328,,329,,330,,331,,332,,333,,334,,335,,336,,337,,338,,339,,340,,341,,342,,343,,344,,345,,346,,347,,348,,349,,350,,351,,352,,353,,354,,355,,356,,357,,358,,359,,360,,361,,362,,363,,364,,365,,366,,367,,368,,369,,370,,371,,372,,373,,374,,375,,376,,377,,378,,379,,380,,381,,382,,383,,384,,385,,386,,387,,388,,389,,390,,391,,392,,393,,394,,395,,396,,397,,398,,399,,3100,4101,4102,4103,4104,4105,4106,4107,4108,4109,4110,4111,4112,4113,4114,4115,4116,4117,4118,4119,4120,4121,4122,4123,4124,4125,4126,4127,4128,4129,4130,4131,4132,4133,4134,4135,4136,4137,4138,4139,4140,4141,4142,4143,4144,4145,4146,4147,4148,4149,4150,4151,4152,4153,4154,4155,4156,4157,4158,4159,4160,4161,4162,4163,4164,4165,4166,4167,4168,4169,4170,4171,4172,4173,4174,4175,4176,4177,4178,4179,4180,4181,4182,4183,4184,4185,4186,4187,4188,4189,4190,4191,4192,4193,4194,4195,4196,4197,4198,4199,4200,4201,4202,4203,4204,4205,4206,4207,4208,4209,4210,4211,4212,4213,4214,4215,4216,4217,4218,4219,4220,4221,4222,4223,4224,4225,4226,4227,4228,4229,4230,4231,4232,4233,4234,4235,4236,4237,4238,4239,4240,4241,4242,4243,4244,4245,4246,4247,4248,4249,4250,4251,4252,4253,4254,4255,4256,4257,4258,4259,4260,4261,4262,4263,4";

// 1 where v reaches a limit, and 0 below it.
fn reaches(v: u32, limit: u32) -> u32
    ensures value { result ≡ if_lt v limit 0 1 }
    ensures upper_bound { result ≤ 1 }
{
    u32::from(limit <= v)
}

// How many digits a number is written with.
fn width(v: u32) -> u32
    ensures value { result ≡ length (digits v) }
    ensures upper_bound { result ≤ 5 }
{
    1 + reaches(v, 10) + reaches(v, 100) + reaches(v, 1000) + reaches(v, 10000)
}

// The length of the file of n rows.
pub fn measure(xs: &[u32], n: usize) -> usize
    requires { (n * row_size ≤ length xs.now) × (n ≤ max_rows) }
    ensures { result ≡ length (file_text (rows_from xs.now 0 n)) }
{
    let mut sum = NAMES_SIZE as u32;
    for v in &xs[..n * ROW_SIZE] {
        sum += width(*v) + 1;
    }
    sum as usize
}

// The last digit of a number.
pub fn digit(q: u32) -> u8
    ensures { result ≡ digit_at 1 q }
{
    (q % 10) as u8 + b'0'
}

// Writes the last digit of a number.
fn put_one(q: u32, out: &mut [u8]) -> usize
    requires { length (one q) ≤ length out.old }
    ensures { Puts (one q) out.old 0 result out.new }
{
    out[0] = digit(q);
    1
}

// Writes the last two digits of a number.
fn put_two(q: u32, out: &mut [u8]) -> usize
    requires { length (two q) ≤ length out.old }
    ensures { Puts (two q) out.old 0 result out.new }
{
    out[0] = digit(q / 10);
    out[1] = digit(q);
    2
}

// Writes a number's digits.
fn put_digits(v: u32, out: &mut [u8]) -> usize
    requires { length (digits v) ≤ length out.old }
    ensures { Puts (digits v) out.old 0 result out.new }
{
    if v < 10 {
        return put_one(v, out);
    }
    if v < 100 {
        return put_two(v, out);
    }
    if v < 1000 {
        let i = put_one(v / 100, out);
        return i + put_two(v, &mut out[i..]);
    }
    if v < 10000 {
        let i = put_two(v / 100, out);
        return i + put_two(v, &mut out[i..]);
    }
    let i = put_one(v / 10000, out);
    let j = i + put_two(v / 100, &mut out[i..]);
    j + put_two(v, &mut out[j..])
}

// Writes a value and the byte behind it.
fn put_value(v: u32, end: u8, out: &mut [u8]) -> usize
    requires { length (value_text v end) ≤ length out.old }
    ensures { Puts (value_text v end) out.old 0 result out.new }
{
    let at = put_digits(v, out);
    out[at] = end;
    at + 1
}

// Copies the first four bytes.
// Kept: copy_from_slice of the two parts was tried and misses the speed bar: writing 1,024 rows (race, `write_1024`) took 38.0 microseconds in place of 33.0.
fn copy_four(from: &[u8], out: &mut [u8])
    requires { (4 ≤ length from.now) × (4 ≤ length out.old) }
    ensures { out.new ≡ sets out.old 0 (take 4 from.now) }
{
    let a = from[0];
    let b = from[1];
    let c = from[2];
    let d = from[3];
    out[0] = a;
    out[1] = b;
    out[2] = c;
    out[3] = d;
}

// The ready texts, where they lie.
fn texts() -> &'static [u8]
    ensures { result.now ≡ short_texts 0 table_size }
{
    &TEXTS
}

// Writes a value and a comma. Up to two bytes behind them change too: what is written next goes there.
fn put_comma(v: u32, out: &mut [u8]) -> usize
    requires { length (value_text v comma) + 2 ≤ length out.old }
    ensures { Spills (value_text v comma) out.old 0 result out.new }
{
    if v < TABLE {
        let i = v as usize * TEXT;
        let text = &texts()[i..i + TEXT];
        copy_four(text, out);
        return usize::from(text[4] - b'0');
    }
    put_value(v, COMMA, out)
}

// Writes the line of a row.
fn put_row(row: &[u32], out: &mut [u8]) -> usize
    requires { (length row.now ≡ row_size) × (length (row_text row.now 0) ≤ length out.old) }
    ensures { Puts (row_text row.now 0) out.old 0 result out.new }
{
    let mut at = 0;
    for v in &row[..LAST] {
        at += put_comma(*v, &mut out[at..]);
    }
    at + put_value(row[LAST], LINE_FEED, &mut out[at..])
}

// Writes bytes to the start of a list.
pub fn put_bytes(bytes: &[u8], out: &mut [u8]) -> usize
    requires { length bytes.now ≤ length out.old }
    ensures { Puts bytes.now out.old 0 result out.new }
{
    out[..bytes.len()].copy_from_slice(bytes);
    bytes.len()
}

// Writes the line of names.
fn put_names(out: &mut [u8]) -> usize
    requires { names_size ≤ length out.old }
    ensures { Puts names out.old 0 result out.new }
{
    put_bytes(&NAMES, out)
}

// Writes the lines of rows.
fn put_lines(rows: &[u32], out: &mut [u8]) -> usize
    requires { length (row_lines (rows_of rows.now)) ≤ length out.old }
    ensures { Puts (row_lines (rows_of rows.now)) out.old 0 result out.new }
{
    let mut at = 0;
    for row in rows.chunks_exact(ROW_SIZE) {
        at += put_row(row, &mut out[at..]);
    }
    at
}

// Writes the file of n rows.
// Kept: n beside the rows, by what may not change: the clauses of `emit` and of `measure` are of the first n rows of any list (`rows_from xs 0 n`).
pub fn emit(xs: &[u32], n: usize, out: &mut [u8])
    requires { (n * row_size ≤ length xs.now) × (n ≤ max_rows) × (length (file_text (rows_from xs.now 0 n)) ≤ length out.old) }
    ensures { out.new ≡ overwrite (file_text (rows_from xs.now 0 n)) out.old }
{
    let at = put_names(out);
    put_lines(&xs[..n * ROW_SIZE], &mut out[at..]);
}
