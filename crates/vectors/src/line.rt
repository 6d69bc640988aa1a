// The text of a line of vectors: decimals with single spaces between them, and a line feed.
ghost use Rattle.std.specs.Prelude.{◌≡◌, ◌++◌, ◌≤◌, ◌<◌, length, IfSome};

// Room for the words of a line: for more than an image may have, and for more records than are read back at once.
pub const WORDS_ROOM: usize = 65600;

// The line that some input begins with, up to its line feed or to the end of the input, and what stands behind it; none of no input.
pub fn first_line(input: &[u8]) -> Option<(&[u8], &[u8])>
    ensures whole { IfSome result (λ parts. parts.0.now ++ parts.1.now ≡ input.now) }
    ensures shorter { IfSome result (λ parts. length parts.1.now < length input.now) }
{
    if input.is_empty() {
        return None;
    }
    let end = match input.iter().position(|byte| *byte == b'\n') {
        Some(i) => i + 1,
        None => input.len(),
    };
    Some(input.split_at(end))
}

// The number that a byte is.
fn digit(byte: u8) -> Option<u64> {
    match byte {
        b'0'..=b'9' => Some(u64::from(byte - b'0')),
        _ => None,
    }
}

// The number that a part of a line is: at least one digit, and a number below 2^64. The `parse` of a text reads a number too, but a part would
// have to be tested for text and for a sign first, and most of the time of a long line goes into its numbers.
pub fn number(part: &[u8]) -> Option<u64> {
    if part.is_empty() {
        return None;
    }
    let mut n = 0u64;
    for byte in part {
        n = n.checked_mul(10)?.checked_add(digit(*byte)?)?;
    }
    Some(n)
}

// How many equal words a part of a line stands for, and the word: `k*w` stands for k words w.
fn equal_words(part: &[u8]) -> Option<(u64, u64)> {
    if let Some(word) = number(part) {
        return Some((1, word));
    }
    let i = part.iter().position(|byte| *byte == b'*')?;
    Some((number(&part[..i])?, number(&part[i + 1..])?))
}

// Reads a line: as many numbers as there is room for, then the words, each given once or several times. Answers how many words there
// are. The numbers are lent, and not answered as an array: no proof is made yet of these loops in a function with a const parameter.
pub fn read_line(text: &[u8], numbers: &mut [u64], words: &mut [u64]) -> Option<usize>
    ensures { IfSome result (λ n. n ≤ length words.new) }
{
    let mut parts = text.strip_suffix(b"\n")?.split(|byte| *byte == b' ');
    for place in numbers {
        *place = number(parts.next()?)?;
    }
    let mut n = 0;
    for part in parts {
        let (count, word) = equal_words(part)?;
        if count == 0 || count > (words.len() - n) as u64 {
            return None;
        }
        let end = n + count as usize;
        words[n..end].fill(word);
        n = end;
    }
    Some(n)
}
