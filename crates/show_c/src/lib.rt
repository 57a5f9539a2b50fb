// The show library for C and Rust. Numbers pass as themselves, and a slice as a pointer and a length in elements. Each function returns 0
// for an answer, whose values then stand first in `given`, or the refusal's number and place. The promises are those of the library.
#![tactic(auto)]

ghost use Rattle.std.specs.Prelude.{◌≡◌, [], ◌∷◌, ◌+◌, ◌*◌, ◌/◌, ◌%◌, ◌≤◌, ◌<◌, min, length};
ghost use Rattle.model.specs.Lists.{overwrite};
ghost use Rattle.model.specs.Answers.{of_read, of_list};
ghost use Rattle.model.specs.Verdicts.{verdict, file_verdict};
ghost use Rattle.model.specs.Desk.{desk_file_verdict};
ghost use Rattle.model.specs.Questions.{read_asked, desk_read_asked, write_asked, count_asked, locate_asked, number_asked, out_asked, in_asked, row_asked, fewest_asked, quickest_asked};
ghost use Rattle.show_c.specs.Interface.{given_size, code, IsRefused, short_of, Told, Answers, AnswersInto};

use model::{LineRefusal, Listed, Refusal, ShowSize};

// The least length of `given`.
const GIVEN_SIZE: usize = 3;

// A refusal as one number.
fn refused(r: Refusal) -> u64
    ensures { result ≡ r.number * 4294967296 + r.place }
{
    u64::from(r.number()) * 4294967296 + u64::from(r.place)
}

// The same where the place has 64 bits: one that has no room in 32 is the largest that has.
fn refused_at(r: LineRefusal) -> u64
    ensures { result ≡ r.number * 4294967296 + min r.place 4294967295 }
{
    u64::from(r.number()) * 4294967296 + r.place.min(4294967295)
}

// What is said of rows where `given` is too short.
// Kept: the number of refusal 11 as it is told, for a `Refusal` is no plainer: it would be made here only to be taken apart.
fn short_rows(rows: &[u32]) -> u64
    ensures { result ≡ short_of (verdict rows.now) }
{
    match show::count(rows) {
        Ok(_) => 47244640256,
        Err(r) => refused(r),
    }
}

// The refusal of a file that was read to a list of one number, which has room for no row: it is never answered.
fn not_read(answer: Result<ShowSize, Refusal>) -> u64
    requires { IsRefused (of_read answer) }
    ensures { result ≡ code (of_read answer) }
{
    match answer {
        Ok(_) => 0,
        Err(r) => refused(r),
    }
}

// What is said of a file where `given` is too short, read the first way and the second.
// Kept: two, since one with the way as a parameter is no plainer: each would hand over one name and be called once.
fn short_file(file: &[u8]) -> u64
    ensures { result ≡ short_of (file_verdict file.now) }
{
    let mut none = [0u32; 1];
    not_read(show::read(file, &mut none))
}

fn short_desk_file(file: &[u8]) -> u64
    ensures { result ≡ short_of (desk_file_verdict file.now) }
{
    let mut none = [0u32; 1];
    not_read(show::read_desk(file, &mut none))
}

// Values told: they stand first in `given`, and 0 is returned.
// Kept: that `given` has room, here and in the two below, and no array of three: by the C interface it may be longer, and what stands behind stays (`Answers`).
fn tell(given: &mut [u32], values: &[u32]) -> u64
    requires { (given_size ≤ length given.old) × (length values.now ≤ given_size) }
    ensures { (result ≡ 0) × (given.new ≡ overwrite values.now given.old) }
{
    given[..values.len()].copy_from_slice(values);
    0
}

// What is told of a file that was read: rows, blocks, cues.
fn tell_read(answer: Result<ShowSize, Refusal>, given: &mut [u32]) -> u64
    requires { given_size ≤ length given.old }
    ensures { Told result given.old given.new (of_read answer) }
{
    match answer {
        Ok(size) => tell(given, &[size.rows, size.blocks, size.cues]),
        Err(r) => refused(r),
    }
}

// What is told of a list: cues written, whether there are more (0 or 1).
fn tell_page(answer: Result<Listed, Refusal>, given: &mut [u32]) -> u64
    requires { given_size ≤ length given.old }
    ensures { Told result given.old given.new (of_list answer) }
{
    match answer {
        Ok(listed) => tell(given, &[listed.written, u32::from(listed.more)]),
        Err(r) => refused(r),
    }
}

// Kept: the functions below are alike by twos and threes, as the C interface needs each by its own name, with its own values in `given`.

// given: cues
#[unsafe(no_mangle)]
pub extern "C" fn show_count(rows: &[u32], given: &mut [u32]) -> u64
    ensures { Answers result given (verdict rows.now) (count_asked rows.now) }
{
    if given.len() < GIVEN_SIZE {
        return short_rows(rows);
    }
    match show::count(rows) {
        Ok(cues) => tell(given, &[cues]),
        Err(r) => refused(r),
    }
}

// given: number
#[unsafe(no_mangle)]
pub extern "C" fn show_number(rows: &[u32], path: &[u32], own: u32, given: &mut [u32]) -> u64
    ensures { Answers result given (verdict rows.now) (number_asked rows.now path.now own) }
{
    if given.len() < GIVEN_SIZE {
        return short_rows(rows);
    }
    match show::number(rows, path, own) {
        Ok(n) => tell(given, &[n]),
        Err(r) => refused(r),
    }
}

// given: depth, block, own cue
#[unsafe(no_mangle)]
pub extern "C" fn show_locate(rows: &[u32], n: u32, path: &mut [u32], given: &mut [u32]) -> u64
    ensures { AnswersInto result given path (verdict rows.now) (locate_asked rows.now n) }
{
    if given.len() < GIVEN_SIZE {
        return short_rows(rows);
    }
    match show::locate(rows, n, path) {
        Ok(place) => tell(given, &[place.depth, place.block, place.own]),
        Err(r) => refused(r),
    }
}

// given: length
#[unsafe(no_mangle)]
pub extern "C" fn show_write(rows: &[u32], out: &mut [u8], given: &mut [u32]) -> u64
    ensures { AnswersInto result given out (verdict rows.now) (write_asked rows.now) }
{
    if given.len() < GIVEN_SIZE {
        return short_rows(rows);
    }
    match show::write(rows, out) {
        Ok(size) => tell(given, &[size]),
        Err(r) => refused(r),
    }
}

// given: rows, blocks, cues
#[unsafe(no_mangle)]
pub extern "C" fn show_read(file: &[u8], rows: &mut [u32], given: &mut [u32]) -> u64
    ensures { AnswersInto result given rows (file_verdict file.now) (read_asked file.now) }
{
    if given.len() < GIVEN_SIZE {
        return short_file(file);
    }
    tell_read(show::read(file, rows), given)
}

// given: rows, blocks, cues
#[unsafe(no_mangle)]
pub extern "C" fn show_read_desk(file: &[u8], rows: &mut [u32], given: &mut [u32]) -> u64
    ensures { AnswersInto result given rows (desk_file_verdict file.now) (desk_read_asked file.now) }
{
    if given.len() < GIVEN_SIZE {
        return short_desk_file(file);
    }
    tell_read(show::read_desk(file, rows), given)
}

// given: cues written, whether there are more (0 or 1)
#[unsafe(no_mangle)]
pub extern "C" fn show_list_out(
    rows: &[u32],
    v: u32,
    n: u32,
    page: &mut [u32],
    given: &mut [u32],
) -> u64
    ensures { AnswersInto result given page (verdict rows.now) (out_asked rows.now v n) }
{
    if given.len() < GIVEN_SIZE {
        return short_rows(rows);
    }
    tell_page(show::list_out(rows, v, n, page), given)
}

// given: cues written, whether there are more (0 or 1)
#[unsafe(no_mangle)]
pub extern "C" fn show_list_in(
    rows: &[u32],
    v: u32,
    n: u32,
    page: &mut [u32],
    given: &mut [u32],
) -> u64
    ensures { AnswersInto result given page (verdict rows.now) (in_asked rows.now v n) }
{
    if given.len() < GIVEN_SIZE {
        return short_rows(rows);
    }
    tell_page(show::list_in(rows, v, n, page), given)
}

// given: row, depth
#[unsafe(no_mangle)]
pub extern "C" fn show_row(rows: &[u32], s: u32, t: u32, path: &mut [u32], given: &mut [u32]) -> u64
    ensures { AnswersInto result given path (verdict rows.now) (row_asked rows.now s t) }
{
    if given.len() < GIVEN_SIZE {
        return short_rows(rows);
    }
    match show::row(rows, s, t, path) {
        Ok(link) => tell(given, &[link.row, link.depth]),
        Err(r) => refused(r),
    }
}

// given: whether there is a chain (0 or 1), which has no note, and its follow-ons (0 where there is none)
#[unsafe(no_mangle)]
pub extern "C" fn show_fewest(
    rows: &[u32],
    s: u32,
    t: u32,
    work: &mut [u32],
    given: &mut [u32],
) -> u64
    ensures { AnswersInto result given work (verdict rows.now) (fewest_asked rows.now s t) }
{
    if given.len() < GIVEN_SIZE {
        return short_rows(rows);
    }
    match show::fewest(rows, s, t, work) {
        Ok(Some(n)) => tell(given, &[1, n]),
        Ok(None) => tell(given, &[0, 0]),
        Err(r) => refused(r),
    }
}

// given: whether there is a chain without notes (0 or 1), and the lower and the upper 32 bits of the smallest sum of waits (0 and 0 where there is none)
#[unsafe(no_mangle)]
pub extern "C" fn show_quickest(
    rows: &[u32],
    s: u32,
    t: u32,
    file: &[u8],
    work: &mut [u64],
    given: &mut [u32],
) -> u64
    ensures { AnswersInto result given work (verdict rows.now) (quickest_asked rows.now s t file.now) }
{
    if given.len() < GIVEN_SIZE {
        return short_rows(rows);
    }
    match show::quickest(rows, s, t, file, work) {
        Ok(Some(n)) => tell(
            given,
            &[1, (n % 4294967296) as u32, (n / 4294967296) as u32],
        ),
        Ok(None) => tell(given, &[0, 0, 0]),
        Err(r) => refused_at(r),
    }
}
