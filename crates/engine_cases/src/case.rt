use crate::decoding::found;
use crate::hexadecimal;
use db_model::{Bytes, MOST_BYTES, Packet, Stamp};
use std::alloc::Global;
use std::fs;
use std::rt::Files;

/// A case of which some lines were taken.
#[derive(Drop)]
pub struct Case {
    /// The text of the database.
    text: Vec<u8>,
    /// The packet.
    bytes: Vec<u8>,
    link: u16,
    stamp: Stamp,
    length: u32,
    /// The lines that have to come.
    wanted: String,
}

impl Case {
    /// A case without lines: an empty packet of link type 1 and no stamp.
    pub fn begin(alloc: Global) -> Case {
        Case {
            text: Vec::new(alloc),
            bytes: Vec::new(alloc),
            link: 1,
            stamp: 0,
            length: 0,
            wanted: String::new(alloc),
        }
    }

    /// Takes one line. None: it isn't read. A line that begins with no word of a case is one that has to come.
    pub fn takes(&mut self, rt: &(impl Files + AllocGlobal), line: &str) -> Option<()> {
        let (word, rest) = line.split_once(' ').unwrap_or((line, ""));
        match word {
            "database" => put_file(rt, &mut self.text, rest),
            "text" => put_line(&mut self.text, rest),
            "packet" => hexadecimal::read(&mut self.bytes, rest),
            "repeated" => put_repeated(&mut self.bytes, rest),
            "link" => {
                self.link = rest.parse::<u16>().ok()?;
                Some(())
            }
            "stamp" => {
                self.stamp = rest.parse::<u64>().ok()?;
                Some(())
            }
            "length" => {
                self.length = rest.parse::<u32>().ok()?;
                Some(())
            }
            "times" => want_times(&mut self.wanted, rest),
            _ => want(&mut self.wanted, line),
        }
    }

    /// The lines that have to come.
    pub fn wanted(&self) -> &str {
        self.wanted.as_str()
    }

    /// The lines that come: a line for each question, and then the tree.
    pub fn found(&self, alloc: Global) -> Option<String> {
        let packet = Packet {
            number: 0,
            link: self.link,
            stamp: self.stamp,
            length: self.length,
            bytes: bytes(alloc, self.bytes.as_slice())?,
        };
        found(alloc, self.text.as_slice(), &packet)
    }
}

fn bytes(alloc: Global, of: &[u8]) -> Option<Bytes> {
    if of.len() > MOST_BYTES {
        return None;
    }
    Bytes::copy_of(alloc, of).ok()
}

/// `database FILE`: the bytes of the file are the database.
fn put_file(rt: &(impl Files + AllocGlobal), text: &mut Vec<u8>, file: &str) -> Option<()> {
    let bytes = fs::read(rt, file).ok()?;
    text.extend_from_slice(bytes.as_slice()).ok()
}

/// `text LINE`: a line of the database.
fn put_line(text: &mut Vec<u8>, line: &str) -> Option<()> {
    text.extend_from_slice(line.as_bytes()).ok()?;
    text.push(b'\n').ok()
}

/// `repeated COUNT HEX`: these bytes so many times.
fn put_repeated(bytes: &mut Vec<u8>, rest: &str) -> Option<()> {
    let (count, digits) = rest.split_once(' ')?;
    for _turn in 0..count.parse::<u32>().ok()? {
        hexadecimal::read(bytes, digits)?;
    }
    Some(())
}

fn want(wanted: &mut String, line: &str) -> Option<()> {
    wanted.push_str(line).ok()?;
    wanted.push('\n').ok()
}

/// `times COUNT LINE`: the line has to come so many times.
fn want_times(wanted: &mut String, rest: &str) -> Option<()> {
    let (count, line) = rest.split_once(' ')?;
    for _turn in 0..count.parse::<u32>().ok()? {
        want(wanted, line)?;
    }
    Some(())
}
