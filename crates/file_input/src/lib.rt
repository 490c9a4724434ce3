// What is read into lent buffers: files of the working folder, and whatever else reads. A file that is not there, or that cannot be read, is an empty text.
// Which file has which bytes no contract can say, so the promise is about the buffer.
#![tactic(auto)]

ghost use Rattle.io.specs.Counts.{IsPrefixLen};

use std::fs;
use std::io::Read;
use std::rt::Files;

// A file that was asked for by its name. The type is one of its own since `Option` is not ours to read from, and its cases are for callers to ask.
#[derive(Drop)]
pub enum Asked<F> {
    Open(F),
    Missing,
}

// One that cannot be opened for reading is missing, whatever the reason.
pub fn open<R: Files>(rt: &R, name: &str) -> Asked<R::File> {
    match fs::open(rt, name) {
        Ok(file) => Asked::Open(file),
        Err(_) => Asked::Missing,
    }
}

// A missing file is an empty text.
impl<F: Read> Read for Asked<F> {
    fn read(&mut self, buf: &mut [u8]) -> std::io::Result<usize> {
        match self {
            Asked::Open(file) => file.read(buf),
            Asked::Missing => Ok(0),
        }
    }
}

// One read, and how many bytes it put at the start of a buffer: none where it failed.
pub fn read_some<S: Read>(source: &mut S, buf: &mut [u8]) -> usize
    ensures { IsPrefixLen result buf.new }
{
    source.read(buf).unwrap_or(0)
}

// Reads until the buffer is full, the text ends or a read fails, and answers how many bytes stand at its start.
pub fn read_full<S: Read>(source: &mut S, buf: &mut [u8]) -> usize
    ensures { IsPrefixLen result buf.new }
{
    let mut done = 0;
    while done < buf.len() {
        let n = read_some(source, &mut buf[done..]);
        if n == 0 {
            break;
        }
        done += n;
    }
    done
}

// Opens the file of that name and reads it so.
pub fn read_file<R: Files>(rt: &R, name: &str, buf: &mut [u8]) -> usize
    ensures { IsPrefixLen result buf.new }
{
    let mut file = open(rt, name);
    read_full(&mut file, buf)
}
