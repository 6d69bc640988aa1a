// The bytes of words, as the programs read them.
ghost use Rattle.std.specs.Prelude.{◌*◌, ◌≤◌, length};

use crate::line;

// Room for the bytes of a depth and of as many words as a line can give.
pub const BYTES_ROOM: usize = text::WORD_BYTES * (1 + line::WORDS_ROOM);

// Puts the bytes of words, the low one of each first.
pub fn put_words(bytes: &mut [u8], words: &[u64])
    requires { 8 * length words.now ≤ length bytes.old }
{
    for i in 0..words.len() {
        let at = text::WORD_BYTES * i;
        bytes[at..at + text::WORD_BYTES].copy_from_slice(&words[i].to_le_bytes());
    }
}
