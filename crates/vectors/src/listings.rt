// A line of listings: the number of the image's words, the depth, the length and the sum of the listing, then the image's words.
ghost use Rattle.std.specs.Prelude.{◌≤◌, length};

use crate::{bytes, checksum, line, room};

// Whether the listing of an input has so many bytes and this sum.
fn lists(input: &[u8], size: u64, sum: u64) -> bool {
    let mut text = room::filled(0);
    let n = listing_text::listing_text(input, &mut text);
    n as u64 == size && checksum::bytes_checksum(&text[..n]) == sum
}

// Whether the listing of an image at a depth has so many bytes and this sum.
fn agrees(image: &[u64], depth: u64, size: u64, sum: u64) -> bool
    requires { length image.now ≤ 65600 }
{
    let mut input = room::filled::<u8, { bytes::BYTES_ROOM }>(0);
    bytes::put_words(&mut input[..text::WORD_BYTES], &[depth]);
    bytes::put_words(&mut input[text::WORD_BYTES..], image);
    lists(&input[..text::WORD_BYTES * (1 + image.len())], size, sum)
}

// Replays a line: whether the listing is as it says; none where it is malformed.
pub fn replay_line(text: &[u8], words: &mut [u64]) -> Option<bool> {
    let mut numbers = [0; 4];
    let n = line::read_line(text, &mut numbers, words)?;
    let [image_words, depth, size, sum] = numbers;
    if n as u64 != image_words || n > line::WORDS_ROOM {
        return None;
    }
    Some(agrees(&words[..n], depth, size, sum))
}
