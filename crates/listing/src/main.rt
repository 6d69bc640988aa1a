// Reads a depth and an image from standard input, and writes their listing to standard output.
#![tactic(auto)]

use std::io;

// The `answer_line` of answer does the same for a line. No function does it for both: no proof is made yet of a function where the bound of
// a closure names a const parameter, as the room's length would be.
fn main(rt: HostRuntime) -> io::Result<()> {
    let mut room = standard_input::room::<{ text::INPUT_BYTES }>();
    let input = standard_input::read_input(&rt, &mut room)?;
    let mut text = [0; listing_text::LISTING_BYTES];
    let end = listing_text::listing_text(input, &mut text);
    rt.write_all(&text[..end])
}
