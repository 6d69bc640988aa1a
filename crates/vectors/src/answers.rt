// A line of answers: the operation (1 check, 2 tally, 3 records, 4 records with a long answer), the number of the input's bytes and of its
// words, then the words and the bytes of the answer, or of a long answer its length and its sum.
ghost use Rattle.std.specs.Prelude.{ℕ, ◌≤◌, length};

use crate::{bytes, checksum, line, room};
use answer_text::LINE_BYTES;

// Whether an answer has these bytes.
fn has_bytes(answer: &[u8], expected: &[u64]) -> bool {
    answer.len() == expected.len()
        && answer
            .iter()
            .zip(expected)
            .all(|(byte, word)| u64::from(*byte) == *word)
}

// Whether an answer has this length and this sum.
fn has_sum(answer: &[u8], expected: &[u64]) -> bool {
    expected == [answer.len() as u64, checksum::bytes_checksum(answer)].as_slice()
}

// Whether an operation answers with a line of these bytes.
fn line_agrees<F: Fn(&[u8], &mut [u8; LINE_BYTES]) -> usize>(
    answer: F,
    input: &[u8],
    expected: &[u64],
) -> bool
    requires can { F.IsAlwaysCallable answer }
    requires inside { (input : _) (text : _) (end : ℕ) (text' : _) → F.post answer input text end text' → end ≤ length text'.now }
{
    let mut text = [0; LINE_BYTES];
    let n = answer(input, &mut text);
    has_bytes(&text[..n], expected)
}

// Whether reading records back gives an answer that is as expected. This is no call of `line_agrees`, whose closure takes other room: no
// proof is made yet of a function where the bound of a closure names a const parameter, as the room's length would be.
fn records_agree<F: Fn(&[u8]) -> bool>(input: &[u8], is_expected: F) -> bool
    requires { F.IsAlwaysCallable is_expected }
{
    let mut text = room::filled(0);
    let n = record_text::read_back(input, &mut text);
    is_expected(&text[..n])
}

// Whether an operation answers this. A line of vectors names an operation by its number, which this match alone reads: an enum of the four would be made and matched in one place.
fn agrees(operation: u64, input: &[u8], expected: &[u64]) -> bool {
    match operation {
        1 => line_agrees(answer_text::check_answer, input, expected),
        2 => line_agrees(answer_text::tally_answer, input, expected),
        3 => records_agree(input, |answer| has_bytes(answer, expected)),
        4 => records_agree(input, |answer| has_sum(answer, expected)),
        _ => false,
    }
}

// Whether an operation answers to the first m bytes of some words what stands behind these.
fn answer_agrees(operation: u64, m: u64, input_words: u64, words: &[u64]) -> bool
    requires { length words.now ≤ 65600 }
{
    if input_words > words.len() as u64 || m > 8 * input_words {
        return false;
    }
    let (input, expected) = words.split_at(input_words as usize);
    let mut bytes = room::filled::<u8, { bytes::BYTES_ROOM }>(0);
    bytes::put_words(&mut bytes, input);
    agrees(operation, &bytes[..m as usize], expected)
}

// Replays a line: whether the answer is as it says; none where it is malformed.
pub fn replay_line(text: &[u8], words: &mut [u64]) -> Option<bool> {
    let mut numbers = [0; 3];
    let n = line::read_line(text, &mut numbers, words)?;
    let [operation, bytes, input_words] = numbers;
    if n > line::WORDS_ROOM {
        return None;
    }
    Some(answer_agrees(operation, bytes, input_words, &words[..n]))
}
