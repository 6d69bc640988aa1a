// Answers as a line of numbers: the check of an image, and its tally.
#![tactic(auto)]

ghost use Rattle.std.specs.Prelude.{◌≡◌, ◌≤◌, length};
ghost use Rattle.text.specs.Put.{RoomFor, Put, InFront};
ghost use Rattle.answer_text.specs.Answers.{check_line, tally_line, check_answer, tally_answer};

use image::RefusalNumber;
use text::Text;

// Room for the line of an answer.
pub const LINE_BYTES: usize = 256;

// ---- the check

// Puts the line of the check for the image that the input is.
fn put_check(text: &mut Text, input: &[u8])
    requires { RoomFor 256 text.old }
    ensures { Put (check_line input.now) text.old text.new }
{
    let mut room = [0; text::WORDS_LOOKED_AT];
    let image = text::words_in(&mut room, input);
    let mut answer = [0; 2];
    unit_words::cowhirame_check(image, &mut answer);
    text.put_number_line(&answer);
}

// Puts the answer of the check to some input.
fn put_check_answer(text: &mut Text, input: &[u8])
    requires { RoomFor 256 text.old }
    ensures { Put (check_answer input.now) text.old text.new }
{
    if input.len() % text::WORD_BYTES != 0 {
        text.put_number_line(&[RefusalNumber::Contents as u64, 0]);
    } else {
        put_check(text, input);
    }
}

// Puts the answer of the check to some input in front of a text, and answers its length. tally_answer, listing_text and read_back are made
// alike. One function over a closure was tried: its contract has to say what room the closure finds, and that the closure leaves the text
// where it stands, which is longer than these lines; and each call of it has as much to prove as each of the four has now.
pub fn check_answer(input: &[u8], bytes: &mut [u8; LINE_BYTES]) -> usize
    ensures { InFront (check_answer input.now) bytes.old result bytes.new }
{
    let mut text = Text::new(bytes);
    put_check_answer(&mut text, input);
    text.end
}

// ---- the tally

// Puts the line of the tally for the depth that the input begins with and the image behind it.
fn put_tally(text: &mut Text, input: &[u8])
    requires depth { 8 ≤ length input.now }
    requires room { RoomFor 256 text.old }
    ensures { Put (tally_line input.now) text.old text.new }
{
    let mut room = [0; text::WORDS_LOOKED_AT];
    let image = text::words_in(&mut room, &input[text::WORD_BYTES..]);
    let depth = text::first_word(input);
    let mut answer = [0; 11];
    unit_words::cowhirame_tally(image, depth, &mut answer);
    text.put_number_line(&answer);
}

// Puts the answer of the tally to some input: of an input that ends within a word or has no depth, 1 and ten zeros.
fn put_tally_answer(text: &mut Text, input: &[u8])
    requires { RoomFor 256 text.old }
    ensures { Put (tally_answer input.now) text.old text.new }
{
    if text::is_depth_and_words(input) {
        put_tally(text, input);
    } else {
        text.put_number_line(&[RefusalNumber::Contents as u64, 0, 0, 0, 0, 0, 0, 0, 0, 0, 0]);
    }
}

// Puts the answer of the tally to some input in front of a text, and answers its length.
pub fn tally_answer(input: &[u8], bytes: &mut [u8; LINE_BYTES]) -> usize
    ensures { InFront (tally_answer input.now) bytes.old result bytes.new }
{
    let mut text = Text::new(bytes);
    put_tally_answer(&mut text, input);
    text.end
}
