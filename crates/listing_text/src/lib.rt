// A run as text: a line for each record, then how it ended.
#![tactic(auto)]

ghost use Rattle.std.specs.Prelude.{◌≡◌, ◌*◌, ◌≤◌, length, take};
ghost use mathlib.Core.List.{[], ◌∷◌, flat_map};
ghost use Rattle.model.specs.Listing.{ascii, decimal, line, from_text, refused_text, run_text, listing};
ghost use Rattle.model.specs.Run.{runs};
ghost use Rattle.model.specs.RecordReader.{records_in};
ghost use Rattle.record_writer.specs.Promise.{position_of};
ghost use Rattle.unit.specs.AnswerNumbers.{numbers_of};
ghost use Rattle.text.specs.Put.{RoomFor, Put, PutMost};
ghost use Rattle.text.specs.RecordLine.{record_line};
ghost use Rattle.listing_text.specs.EndText.{WordsOfRecords, end_text};
ghost use Rattle.listing_text.specs.InputText.{input_text, ListingInFront};

use image::RefusalNumber;
use record_writer::Linearized;
use text::Text;
use unit::Numbers;

// The words of the output that a listing has room for.
const OUTPUT_WORDS: usize = 8192;

// Room for the longest listing.
pub const LISTING_BYTES: usize = 262144;

// Puts the lines of all records of some words. The next record begins where one ends: no index is counted.
fn put_records(text: &mut Text, words: &[u64])
    requires records { WordsOfRecords words.now }
    requires room { RoomFor (21 * length words.now) text.old }
    ensures { PutMost (flat_map record_line (records_in words.now)) (21 * length words.now) text.old text.new }
{
    let mut at = 0;
    while at < words.len() {
        let record = unit::next_record(words, at);
        text.put_record_line(record);
        at += record.len();
    }
}

// ---- the end

// Puts the last line of a finished run.
fn put_done(text: &mut Text, records: u64)
    requires { RoomFor 26 text.old }
    ensures { Put (line (ascii "done" ∷ decimal records ∷ [])) text.old text.new }
{
    text.put_named_line(b"done", &[records]);
}

// Puts the line of a call that the run was in.
fn put_from(text: &mut Text, scope: u64, place: u64)
    requires { RoomFor 48 text.old }
    ensures { PutMost (line (ascii "from" ∷ decimal scope ∷ decimal place ∷ [])) 48 text.old text.new }
{
    text.put_named_line(b"from", &[scope, place]);
}

// Puts the lines of all calls of a trace, the outermost first, as they stand there.
fn put_trace(text: &mut Text, trace: &[u64])
    requires { RoomFor (24 * length trace.now) text.old }
    ensures { PutMost (from_text trace.now) (24 * length trace.now) text.old text.new }
{
    for i in 0..trace.len() / 2 {
        put_from(text, trace[2 * i], trace[2 * i + 1]);
    }
}

// Puts the last line of a refused run.
fn put_refused(text: &mut Text, n: Numbers)
    requires { RoomFor 71 text.old }
    ensures { Put (refused_text (numbers_of n)) text.old text.new }
{
    text.put_named_line(b"refused", &[n.number, n.place, n.second]);
}

// Puts the closing lines of an answer, whose calls stand in a trace.
fn put_end(text: &mut Text, r: Linearized, trace: &[u64])
    requires calls { (position_of r).trace ≤ length trace.now }
    requires few { length trace.now ≤ 256 }
    requires room { RoomFor 6400 text.old }
    ensures { Put (end_text r (take (position_of r).trace trace.now)) text.old text.new }
{
    match r {
        Ok(p) => put_done(text, p.records),
        Err(e) => {
            let n = e.at.trace as usize;
            put_trace(text, &trace[..n]);
            put_refused(text, unit::numbers_of(r));
        }
    }
}

// ---- a run

// Puts the run of an image at a depth.
fn put_run(text: &mut Text, image: &[u64], depth: u64)
    requires { RoomFor 262144 text.old }
    ensures { Put (run_text (runs image.now depth 8192 256)) text.old text.new }
{
    let mut out = [0; OUTPUT_WORDS];
    let mut trace = [0; linearize::TRACE_WORDS];
    let r = unit::run(image, depth, &mut out, &mut trace);
    let written = unit::position_of(r);
    let n = written.words as usize;
    put_records(text, &out[..n]);
    put_end(text, r, &trace);
}

// ---- the input

// Puts the run of the image behind the depth that an input begins with.
fn put_input_run(text: &mut Text, input: &[u8])
    requires depth { 8 ≤ length input.now }
    requires room { RoomFor 262144 text.old }
    ensures { Put (input_text input.now) text.old text.new }
{
    let mut room = [0; text::WORDS_LOOKED_AT];
    let image = text::words_in(&mut room, &input[text::WORD_BYTES..]);
    put_run(text, image, text::first_word(input));
}

// Puts the listing of an input: of an input that ends within a word or has no depth, the line of a refusal.
fn put_listing(text: &mut Text, input: &[u8])
    requires { RoomFor 262144 text.old }
    ensures { Put (listing input.now) text.old text.new }
{
    if text::is_depth_and_words(input) {
        put_input_run(text, input);
    } else {
        put_refused(
            text,
            Numbers {
                number: RefusalNumber::Contents as u64,
                place: 0,
                second: 0,
            },
        );
    }
}

// Puts the listing of an input in front of a text, and answers its length.
pub fn listing_text(input: &[u8], bytes: &mut [u8; LISTING_BYTES]) -> usize
    ensures { ListingInFront input.now bytes.old result bytes.new }
{
    let mut text = Text::new(bytes);
    put_listing(&mut text, input);
    text.end
}
