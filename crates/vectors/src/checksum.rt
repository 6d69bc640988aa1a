// The sums that stand in a line for longer texts and outputs.

// A prime below 2^32, and a factor below 2^17.
const PRIME: u64 = 4294967291;

const FACTOR: u64 = 65599;

// The first number of more than 32 bits.
const HALF_WORDS: u64 = 0x1_0000_0000;

// A sum with half a word more. Both are taken to their remainders first, so that nothing can wrap.
fn with_half_word(sum: u64, half: u64) -> u64 {
    (sum % PRIME * FACTOR + half % HALF_WORDS) % PRIME
}

// The sum of some bytes.
pub fn bytes_checksum(bytes: &[u8]) -> u64 {
    bytes
        .iter()
        .fold(0, |sum, byte| with_half_word(sum, u64::from(*byte)))
}

// A sum with more words, the low half of each first.
pub fn with_words(sum: u64, words: &[u64]) -> u64 {
    words.iter().fold(sum, |sum, word| {
        with_half_word(with_half_word(sum, *word % HALF_WORDS), *word / HALF_WORDS)
    })
}
