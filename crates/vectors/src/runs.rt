// A line of runs: the number of the image's words, the depth, the lengths of the output and of the trace lent; the number, the places,
// the records, output words and trace words of the answer; the sum of the output words and that of the trace words; then the image's
// words, none for the image of the line before.
use crate::{checksum, line, room};
use image::RefusalNumber;

// What a line says, other than the words.
#[derive(Clone, Copy)]
struct Expected {
    image_words: u64,
    depth: u64,
    output_lent: u64,
    trace_lent: u64,
    answer: [u64; 6],
    output_sum: u64,
    trace_sum: u64,
}

impl From<[u64; 12]> for Expected {
    fn from(numbers: [u64; 12]) -> Expected {
        let [
            image_words,
            depth,
            output_lent,
            trace_lent,
            number,
            place,
            second,
            records,
            output_words,
            trace_words,
            output_sum,
            trace_sum,
        ] = numbers;
        Expected {
            image_words,
            depth,
            output_lent,
            trace_lent,
            answer: [number, place, second, records, output_words, trace_words],
            output_sum,
            trace_sum,
        }
    }
}

// The last number that the check answers. A line's number is compared with it as a number: RefusalNumber has the check's numbers first, so
// that one test says what eight arms would.
const LAST_OF_CHECK: u64 = RefusalNumber::Upward as u64;

// The longest output and the longest trace that a line lends.
const OUTPUT_ROOM: usize = 81920;

const TRACE_ROOM: usize = 300;

// ---- what is lent

// The word at a place of what is lent, before the run: no record has it, and no other place.
fn lent_word(i: usize) -> u64 {
    0x5A5A_5A5A_0000_0000 + i as u64 % 0x1_0000_0000
}

// Fills what is lent.
fn fill(words: &mut [u64]) {
    for i in 0..words.len() {
        words[i] = lent_word(i);
    }
}

// Whether the words from a position on are as they were lent.
fn untouched(words: &[u64], from: usize) -> bool {
    (from..words.len()).all(|i| words[i] == lent_word(i))
}

// The words that are written, if there are so many, they have this sum, and all behind them are as they were lent.
fn written(words: &[u64], count: u64, sum: u64) -> Option<&[u64]> {
    if count > words.len() as u64 {
        return None;
    }
    let n = count as usize;
    let front = &words[..n];
    if checksum::with_words(0, front) == sum && untouched(words, n) {
        Some(front)
    } else {
        None
    }
}

// ---- reading back

// Whether the record reader answers the end at a position, and no words.
fn is_end(words: &[u64], at: usize) -> bool {
    if unit::next_record(words, at).len() != 0 {
        return false;
    }
    unit::next_at(words, at) == Ok(None)
}

// Whether the record reader answers a record of so many words at a position.
fn is_record(words: &[u64], at: usize, n: usize) -> bool {
    unit::next_at(words, at) == Ok(Some(n))
}

// Whether the words are so many records and no more, each within them, and the records have this sum.
fn are_records(words: &[u64], count: u64, sum: u64) -> bool {
    let mut s = 0;
    let mut at = 0;
    for _ in 0..count {
        let record = unit::next_record(words, at);
        if !is_record(words, at, record.len()) {
            return false;
        }
        s = checksum::with_words(s, record);
        at += record.len();
        if at > words.len() {
            return false;
        }
    }
    s == sum && is_end(words, at)
}

// ---- a line

// Whether the check answers what a line says of it: its number and place where the run has them, and otherwise that the image is
// accepted. A trace that is too short comes before it.
fn check_agrees(image: &[u64], number: u64, place: u64) -> bool {
    if number == RefusalNumber::ShortTrace as u64 {
        return true;
    }
    let mut checked = [0; 2];
    unit_words::cowhirame_check(image, &mut checked);
    if number > LAST_OF_CHECK {
        checked[0] == 0
    } else {
        checked == [number, place]
    }
}

// Whether a run with this output and trace is as a line says, and its output can be read back.
fn run_agrees(image: &[u64], expected: Expected, out: &mut [u64], trace: &mut [u64]) -> bool {
    fill(out);
    fill(trace);
    let mut answer = [0; 6];
    unit_words::cowhirame_run(image, expected.depth, out, trace, &mut answer);
    let [_, _, _, records, output_words, trace_words] = answer;
    if answer != expected.answer || written(trace, trace_words, expected.trace_sum).is_none() {
        return false;
    }
    match written(out, output_words, expected.output_sum) {
        Some(front) => are_records(front, records, expected.output_sum),
        None => false,
    }
}

// Whether the run of an image is as a line says; the lengths that it lends are in room. The room stands at the head of a function of its own:
// below a branch it is cleared twice, where the function begins and again where it is made.
fn run_in_room_agrees(image: &[u64], expected: Expected) -> bool {
    let mut out = room::filled::<u64, OUTPUT_ROOM>(0);
    let mut trace = room::filled::<u64, TRACE_ROOM>(0);
    if expected.output_lent > OUTPUT_ROOM as u64 || expected.trace_lent > TRACE_ROOM as u64 {
        return false;
    }
    let o = expected.output_lent as usize;
    let t = expected.trace_lent as usize;
    run_agrees(image, expected, &mut out[..o], &mut trace[..t])
}

// Whether the check and the run of an image are as a line says.
fn agrees(image: &[u64], expected: Expected) -> bool {
    let [number, place, ..] = expected.answer;
    check_agrees(image, number, place) && run_in_room_agrees(image, expected)
}

// Whether the image of a line, the first of the words, is in room and as the line says.
fn image_agrees(words: &[u64], expected: Expected) -> bool {
    if expected.image_words > words.len() as u64 {
        return false;
    }
    agrees(&words[..expected.image_words as usize], expected)
}

// Replays a line: whether the run is as it says; none where it is malformed, or has neither all words of its image nor none. The words
// hold the image of the line before, and then that of this line.
pub fn replay_line(text: &[u8], words: &mut [u64]) -> Option<bool> {
    let mut numbers = [0; 12];
    let n = line::read_line(text, &mut numbers, words)?;
    let expected = Expected::from(numbers);
    if n != 0 && n as u64 != expected.image_words {
        return None;
    }
    Some(image_agrees(words, expected))
}
