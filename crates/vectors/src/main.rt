// Replays the files of vectors that the arguments name, and says of each how many vectors agree, and which do not.
#![tactic(auto)]

mod answers;
mod bytes;
mod checksum;
mod images;
mod line;
mod listings;
mod number_line;
mod numbers;
mod operation;
mod room;
mod runs;
mod sort;
mod tallies;

ghost use Rattle.std.specs.Prelude.{◌≤◌, length, IfSome};

use sort::Sort;
use std::env::FillError;
use std::io::Read;
use std::rt::{Env, Files};
use std::{fs, io, str};

// The longest name of a file, the most bytes of one, and room for a byte more, which is read only where a file is longer.
const NAME_BYTES: usize = 4096;

const FILE_BYTES: usize = 1048576;

const FILE_ROOM: usize = FILE_BYTES + 1;

// Replays a line: whether it agrees; none where it is malformed. The words are lent, and no Vec of the line's own: a line
// of runs without words is on what the line before has left there.
fn replay_line(sort: Sort, text: &[u8], words: &mut [u64]) -> Option<bool> {
    match sort {
        Sort::Numbers => numbers::replay_line(text),
        Sort::Images => images::replay_line(text, words),
        Sort::Tallies => tallies::replay_line(text, words),
        Sort::Runs => runs::replay_line(text, words),
        Sort::Listings => listings::replay_line(text, words),
        Sort::Answers => answers::replay_line(text, words),
    }
}

// Whether a line agrees; if not, says so.
fn line_agrees(
    rt: &impl Print,
    sort: Sort,
    text: &[u8],
    words: &mut [u64],
    line_number: u64,
) -> io::Result<bool> {
    match replay_line(sort, text, words) {
        Some(true) => return Ok(true),
        Some(false) => println!(rt; "differs at line {line_number}")?,
        None => println!(rt; "malformed line {line_number}")?,
    }
    Ok(false)
}

// Replays every line of a file that does not begin with #. There is room for the words of images that are too long. The lines are taken
// from the front and counted: no proof is made yet of a `for` over `split_inclusive` in a function that is generic over what it prints to.
fn replay(rt: &impl Print, sort: Sort, input: &[u8]) -> io::Result<()> {
    let mut words = room::filled::<u64, { line::WORDS_ROOM }>(0);
    let mut vectors = 0u64;
    let mut agree = 0u64;
    let mut line_number = 0u64;
    let mut rest = input;
    while let Some((text, behind)) = line::first_line(rest) {
        line_number += 1;
        rest = behind;
        if !text.ends_with(b"\n") {
            println!(rt; "the file ends within line {line_number}")?;
        } else if !text.starts_with(b"#") {
            vectors += 1;
            if line_agrees(rt, sort, text, &mut words, line_number)? {
                agree += 1;
            }
        }
    }
    println!(rt; "{vectors} {sort}, {agree} agree")
}

// Writes a line on a file.
fn say_of_file(rt: &impl Print, name: &[u8], what: &[u8]) -> io::Result<()> {
    rt.write_all(name)?;
    rt.write_all(what)
}

// Opens a file by the bytes of its name; none where it cannot be opened.
fn open_named<R: Files>(rt: &R, name: &[u8]) -> Option<R::File> {
    let path = str::from_utf8(name).ok()?;
    fs::open(rt, path).ok()
}

// Reads a whole file; none where it is too long or cannot be read.
fn read_whole<'a, R: Read>(file: &mut R, room: &'a mut [u8]) -> Option<&'a [u8]>
    ensures { IfSome result (λ bytes. length bytes.now ≤ 1048576) }
{
    let bytes = standard_input::read_most(file, room).ok()?;
    if bytes.len() > FILE_BYTES {
        return None;
    }
    Some(bytes)
}

// Replays an open file.
fn replay_open<R: Read>(rt: &impl Print, name: &[u8], sort: Sort, file: &mut R) -> io::Result<()> {
    let mut room = standard_input::room::<FILE_ROOM>();
    match read_whole(file, &mut room) {
        Some(input) => replay(rt, sort, input),
        None => say_of_file(rt, name, b": the file is too long or cannot be read\n"),
    }
}

// Replays a file.
fn replay_file(rt: &(impl Files + Print), name: &[u8]) -> io::Result<()> {
    let Some(sort) = Sort::of_file(name) else {
        return say_of_file(rt, name, b": no such sort of vectors\n");
    };
    match open_named(rt, name) {
        Some(mut file) => replay_open(rt, name, sort, &mut file),
        None => say_of_file(rt, name, b": the file cannot be opened\n"),
    }
}

// An argument, empty where it is too long, and none where there is no such argument.
fn argument<'a>(rt: &impl Env, i: usize, room: &'a mut [u8]) -> Option<&'a [u8]>
    ensures { IfSome result (λ name. length name.now ≤ length room.old) }
{
    match rt.arg(i, room) {
        Ok(n) => Some(&room[..n]),
        Err(FillError::TooLong) => Some(&[]),
        Err(FillError::NotPresent) => None,
    }
}

// Replays the file that an argument names, and answers whether there is such an argument.
fn replay_argument(rt: &(impl Env + Files + Print), i: usize) -> io::Result<bool> {
    let mut room = [0; NAME_BYTES];
    let Some(name) = argument(rt, i, &mut room) else {
        return Ok(false);
    };
    replay_file(rt, name)?;
    Ok(true)
}

fn main(rt: HostRuntime) -> io::Result<()> {
    for i in 1..usize::MAX {
        if !replay_argument(&rt, i)? {
            break;
        }
    }
    Ok(())
}
