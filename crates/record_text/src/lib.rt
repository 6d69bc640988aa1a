// Records read back, each as its line in the listing, and a last line.
#![tactic(auto)]

ghost use Rattle.std.specs.Prelude.{◌≡◌, ◌*◌, ◌≤◌, ◌&&◌, ltb, length};
ghost use Rattle.text.specs.Put.{RoomFor, Put, InFront};
ghost use Rattle.record_text.specs.ReadBack.{last_line, read_back};
ghost use Rattle.record_text.specs.ReadFront.{ReadFront};

use image::RefusalNumber;
use text::Text;

// The words of an input that are looked at, and their bytes.
const WORDS_READ: usize = 65536;

const BYTES_READ: usize = text::WORD_BYTES * WORDS_READ;

// The bytes of an input that are looked at: a byte more is read only where the input is longer.
pub const INPUT_BYTES: usize = BYTES_READ + 1;

// Room for the lines of as many words as are looked at, and for the last line.
pub const LINES_BYTES: usize = 1441792;

// How many words some records have, and how many records they are.
#[derive(Clone, Copy)]
struct Front {
    words: usize,
    records: usize,
}

// Puts the lines of the records at the front of some words, up to where no whole one stands. The next record begins where one ends: no index is counted.
fn put_front(text: &mut Text, words: &[u64]) -> Front
    requires { RoomFor (21 * length words.now) text.old }
    ensures { ReadFront words.now text.old result text.new }
{
    let mut at = 0;
    let mut records = 0;
    loop {
        // The reader answers the sub-slice that holds the record, a form that document 01 names: a slice without words where there is no record.
        let record = unit::next_record(words, at);
        if record.is_empty() {
            return Front { words: at, records };
        }
        text.put_record_line(record);
        at += record.len();
        records += 1;
    }
}

// Whether an input of so many bytes is longer than the words that are looked at, and they begin with a record.
fn is_more(bytes: usize, records: usize) -> bool
    ensures { result ≡ (ltb 524288 bytes && ltb 0 records) }
{
    BYTES_READ < bytes && 0 < records
}

// Puts the last line for an input of so many bytes, with these records at its front.
fn put_last(text: &mut Text, bytes: usize, front: Front)
    requires words { front.words ≤ 65536 }
    requires room { RoomFor 64 text.old }
    ensures { Put (last_line bytes front.words front.records) text.old text.new }
{
    let words = front.words as u64;
    let records = front.records as u64;
    if is_more(bytes, front.records) {
        text.put_named_line(b"more", &[words, records]);
    } else if text::WORD_BYTES * front.words == bytes {
        text.put_named_line(b"end", &[records]);
    } else {
        text.put_named_line(b"refused", &[RefusalNumber::NoRecord as u64, words]);
    }
}

// Puts the records of some input, and the last line.
fn put_read_back(text: &mut Text, input: &[u8])
    requires { RoomFor 1441792 text.old }
    ensures { Put (read_back input.now) text.old text.new }
{
    let mut room = [0; WORDS_READ];
    let words = text::words_in(&mut room, input);
    let front = put_front(text, words);
    put_last(text, input.len(), front);
}

// Puts the records of some input in front of a text, and the last line, and answers the length.
pub fn read_back(input: &[u8], bytes: &mut [u8; LINES_BYTES]) -> usize
    ensures { InFront (read_back input.now) bytes.old result bytes.new }
{
    let mut text = Text::new(bytes);
    put_read_back(&mut text, input);
    text.end
}
