// Answers an operation. Its name is the first argument, its input is standard input, and its answer goes to standard output.
#![tactic(auto)]

ghost use Rattle.std.specs.Prelude.{ℕ, ◌≤◌, length};

use answer_text::LINE_BYTES;
use std::io;
use std::rt::Env;

// The most bytes of a name.
const NAME_BYTES: usize = 4096;

// Reads an image, with a depth or without, and writes the line of an answer.
fn answer_line<F: Fn(&[u8], &mut [u8; LINE_BYTES]) -> usize>(
    rt: &(impl Input + Print),
    answer: F,
) -> io::Result<()>
    requires can { F.IsAlwaysCallable answer }
    requires inside { (input : _) (text : _) (end : ℕ) (text' : _) → F.post answer input text end text' → end ≤ length text'.now }
{
    let mut room = standard_input::room::<{ text::INPUT_BYTES }>();
    let input = standard_input::read_input(rt, &mut room)?;
    let mut text = [0; LINE_BYTES];
    let end = answer(input, &mut text);
    rt.write_all(&text[..end])
}

// Reads records, and writes the line of each, as the listing does, and a last line. This is no call of `answer_line`, whose closure takes
// other room: no proof is made yet of a function where the bound of a closure names a const parameter, as the room's length would be.
fn answer_records(rt: &(impl Input + Print)) -> io::Result<()> {
    let mut room = standard_input::room::<{ record_text::INPUT_BYTES }>();
    let input = standard_input::read_input(rt, &mut room)?;
    let mut text = [0; record_text::LINES_BYTES];
    let end = record_text::read_back(input, &mut text);
    rt.write_all(&text[..end])
}

// Writes that there is no such operation: a line that no operation answers. The input is not read.
fn refuse_operation(rt: &impl Print) -> io::Result<()> {
    rt.write_all(b"no such operation\n")
}

// The first argument, empty where it is missing or too long. The `argument` of vectors tells these two apart, which nothing here asks for;
// and standard_input, which both programs use, is no place for what reads arguments.
fn first_argument<'a>(rt: &impl Env, room: &'a mut [u8]) -> &'a [u8]
    ensures { length result.now ≤ length room.old }
{
    match rt.arg(1, room) {
        Ok(n) => &room[..n],
        Err(_) => &[],
    }
}

fn main(rt: HostRuntime) -> io::Result<()> {
    let mut room = [0; NAME_BYTES];
    match first_argument(&rt, &mut room) {
        b"check" => answer_line(&rt, answer_text::check_answer),
        b"tally" => answer_line(&rt, answer_text::tally_answer),
        b"records" => answer_records(&rt),
        _ => refuse_operation(&rt),
    }
}
