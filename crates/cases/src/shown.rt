// The show that the cases below a line ask about.
use crate::text;
use crate::text::Numbers;
use std::alloc::{AllocError, Global};
use std::io::{Eprint, Read};
use std::rt::Files;
use std::{fs, io};

// The bytes that a file of a show may have here, and the numbers.
pub const BYTES: usize = 65552;

const NUMBERS: usize = 11300;

// The file of a show and its rows. Of each list so many are lent, as far as it reaches.
// Kept: lists with a length beside them, by what may not change, what `main` prints (`stdout`): a line such as `=ring.csv|65537` lends more than its show has,
// and what the shows before it left stands there.
#[derive(Drop)]
pub struct Shown {
    bytes: Vec<u8>,
    size: usize,
    numbers: Vec<u32>,
    many: usize,
}

impl Shown {
    pub fn new(alloc: Global) -> Result<Shown, AllocError> {
        Ok(Shown {
            bytes: vec![in alloc; 0u8; BYTES]?,
            size: 0,
            numbers: vec![in alloc; 0u32; NUMBERS]?,
            many: 0,
        })
    }

    pub fn file(&self) -> &[u8] {
        &self.bytes[..self.size.min(self.bytes.len())]
    }

    pub fn rows(&self) -> &[u32] {
        &self.numbers[..self.many.min(self.numbers.len())]
    }

    // The next file of cases begins with zeros, and with as many as were lent.
    pub fn clear(&mut self) {
        self.bytes.fill(0);
        self.numbers.fill(0);
    }

    // Takes the show of a file, with the sizes that its line tells. A file that cannot be opened has no bytes, and the reason is told.
    pub fn read<R: Files + Eprint>(&mut self, rt: &R, name: &[u8], told: &[u8]) -> io::Result<()> {
        let size = match str::from_utf8(name) {
            Ok(name) => load(rt, name, self.bytes.as_mut_slice())?,
            Err(_) => {
                eprintln!(rt; "the name of a file is not text")?;
                0
            }
        };
        self.take(size, told);
        Ok(())
    }

    // Takes a show that stands in the data.
    pub fn copy(&mut self, show: &[u8]) {
        for (place, byte) in self.bytes.iter_mut().zip(show) {
            *place = text::fed(*byte);
        }
        self.take(show.len(), b"");
    }

    // Takes the show of a file of so many bytes. Its rows are all numbers below the line of names, unless the line tells other sizes.
    fn take(&mut self, size: usize, told: &[u8]) {
        let file = &self.bytes[..size.min(self.bytes.len())];
        let (_, rows) = text::part(file, b'\n');
        let mut many = 0;
        for (place, number) in self.numbers.iter_mut().zip(Numbers::new(rows)) {
            *place = number;
            many += 1;
        }
        let mut told = Numbers::new(told);
        self.size = told.next().map_or(size, |n| n as usize);
        self.many = told.next().map_or(many, |n| n as usize);
    }
}

// Reads the file of this name, as far as there is room: how many bytes. A file that cannot be opened has none, and the reason is told.
// What the room holds behind them stays, so it is no list that grows.
pub fn load<R: Files + Eprint>(rt: &R, name: &str, room: &mut [u8]) -> io::Result<usize> {
    match fs::open(rt, name) {
        Ok(file) => {
            let mut room = room;
            let read = io::copy(&mut file.take(room.len() as u64), &mut room)?;
            Ok(read as usize)
        }
        Err(error) => {
            eprintln!(rt; "{name}: {error}")?;
            Ok(0)
        }
    }
}
