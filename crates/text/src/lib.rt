// Bytes out, words in: decimals, lines and records as text, and words from little-endian bytes.
#![tactic(auto)]

ghost use Rattle.std.specs.Prelude.{◌≡◌, [], ◌∷◌, ◌+◌, ◌*◌, ◌/◌, ◌%◌, ◌≤◌, ◌<◌, ◌&&◌, eqb, leb, min, length, take, drop};
ghost use Rattle.std.proofs.lemmas.List.Edits.{sets};
ghost use Rattle.model.specs.Listing.{decimal, little_endian, words_of};
ghost use Rattle.text.specs.Put.{Room, RoomFor, Put, PutMost};
ghost use Rattle.text.specs.NumberLine.{spaced_numbers, spaced_most, named_line, named_line_most, numbers_line};
ghost use Rattle.text.specs.RecordLine.{signed_text, word_text, numerator, record_line};

use record_kind::{ANGLE_WORDS, OPAQUE_START_WORDS, RecordKind, U_WORDS};

// The bytes of a word.
pub const WORD_BYTES: usize = 8;

// The words of an input that are looked at: one more than an image may have, so that one that is too long is known.
pub const WORDS_LOOKED_AT: usize = 8193;

// The bytes of a depth and of the words of an image that are looked at: of longer input the listing and the answers about an image are the same.
pub const INPUT_BYTES: usize = WORD_BYTES * (1 + WORDS_LOOKED_AT);

// A text, into which bytes are put behind each other: they end at `end`.
#[derive(Drop)]
pub struct Text<'a> {
    pub bytes: &'a mut [u8],
    pub end: usize,
}

// Puts the digits of a number from a place on, and answers where they end. The place goes from digit to digit as a value: as a field of a text it
// would be stored and loaded for each, by which a line of long numbers takes up to half as long again.
fn put_digits(bytes: &mut [u8], start: usize, n: u64) -> usize
    requires { start + length (decimal n) ≤ length bytes.old }
    ensures digits { bytes.new ≡ sets bytes.old start (decimal n) }
    ensures end { result ≡ start + length (decimal n) }
{
    if n < 10 {
        bytes[start] = b'0' + n as u8;
        return start + 1;
    }
    let last = put_digits(bytes, start, n / 10);
    bytes[last] = b'0' + (n % 10) as u8;
    last + 1
}

impl<'a> Text<'a> {
    // A text into which nothing is put yet.
    pub fn new(bytes: &'a mut [u8]) -> Text<'a>
        ensures contents { result.bytes.now ≡ bytes.old }
        ensures empty { result.end ≡ 0 }
        ensures same { result.bytes.ghost_name ≡ bytes.entry.ghost_name }
    {
        Text { bytes, end: 0 }
    }

    // ---- bytes

    // Puts a byte. Every method puts behind what was put before. Each says what room it needs, since it is that of other bytes in each: no fact
    // about room holds of every text, which a type could state.
    pub fn put_byte(&mut self, byte: u8)
        requires { Room (byte ∷ []) self.old }
        ensures { Put (byte ∷ []) self.old self.new }
    {
        self.bytes[self.end] = byte;
        self.end += 1;
    }

    // Puts some bytes.
    pub fn put_bytes(&mut self, bytes: &[u8])
        requires { Room bytes.now self.old }
        ensures { Put bytes.now self.old self.new }
    {
        for byte in bytes {
            self.put_byte(*byte);
        }
    }

    // Puts a line feed.
    fn end_line(&mut self)
        requires { Room (10 ∷ []) self.old }
        ensures { Put (10 ∷ []) self.old self.new }
    {
        self.put_byte(b'\n');
    }

    // ---- words

    // Puts a number in decimal.
    pub fn put_decimal(&mut self, n: u64)
        requires { Room (decimal n) self.old }
        ensures { Put (decimal n) self.old self.new }
    {
        self.end = put_digits(self.bytes, self.end, n);
    }

    // Puts a number in two's complement, with its sign.
    fn put_signed(&mut self, n: u64)
        requires { Room (signed_text n) self.old }
        ensures { Put (signed_text n) self.old self.new }
    {
        if n < 1 << 63 {
            self.put_decimal(n);
        } else {
            self.put_byte(b'-');
            self.put_decimal(n.wrapping_neg());
        }
    }

    // Puts a space and a word behind it, signed or not.
    fn put_word(&mut self, n: u64, sign: bool)
        requires { Room (32 ∷ word_text sign n) self.old }
        ensures { Put (32 ∷ word_text sign n) self.old self.new }
    {
        self.put_byte(b' ');
        if sign {
            self.put_signed(n);
        } else {
            self.put_decimal(n);
        }
    }

    // ---- lines of numbers

    // Puts numbers in decimal, each behind a space, and a line feed.
    fn put_spaced_numbers(&mut self, numbers: &[u64])
        requires { RoomFor (spaced_most numbers.now) self.old }
        ensures { PutMost (spaced_numbers numbers.now) (spaced_most numbers.now) self.old self.new }
    {
        for n in numbers {
            self.put_word(*n, false);
        }
        self.end_line();
    }

    // Puts a line of a name and numbers.
    pub fn put_named_line(&mut self, name: &[u8], numbers: &[u64])
        requires { RoomFor (named_line_most name.now numbers.now) self.old }
        ensures { PutMost (named_line name.now numbers.now) (named_line_most name.now numbers.now) self.old self.new }
    {
        self.put_bytes(name);
        self.put_spaced_numbers(numbers);
    }

    // Puts a line of numbers.
    pub fn put_number_line(&mut self, numbers: &[u64])
        requires some { 1 ≤ length numbers.now }
        requires room { RoomFor (21 * length numbers.now) self.old }
        ensures { Put (numbers_line numbers.now) self.old self.new }
    {
        self.put_decimal(numbers[0]);
        self.put_spaced_numbers(&numbers[1..]);
    }

    // ---- records

    // Puts the line of a record.
    pub fn put_record_line(&mut self, words: &[u64])
        requires some { 1 ≤ length words.now }
        requires room { RoomFor (21 * length words.now) self.old }
        ensures { PutMost (record_line words.now) (21 * length words.now) self.old self.new }
    {
        self.put_decimal(words[0]);
        for i in 1..words.len() {
            self.put_word(words[i], is_numerator(words, i));
        }
        self.end_line(); // The line of a record ends like any other.
    }
}

// Whether word i of a record is a numerator.
#[tactic(auto, unfolding(crate::specs::RecordLine::numerator))]
fn is_numerator(words: &[u64], i: usize) -> bool
    requires { i < length words.now }
    ensures { result ≡ numerator words.now i }
{
    match RecordKind::try_from(words[0]) {
        Ok(RecordKind::U) => i < U_WORDS - 1 && i % 2 == 1,
        Ok(RecordKind::Opaque) => {
            i >= OPAQUE_START_WORDS
                && (((i - OPAQUE_START_WORDS) / ANGLE_WORDS) as u64) < words[2]
                && i % 2 == 0
        }
        _ => false,
    }
}

// ---- words in

// Whether an input is a depth and further whole words.
pub fn is_depth_and_words(input: &[u8]) -> bool
    ensures { result ≡ (eqb (length input.now % 8) 0 && leb 8 (length input.now)) }
{
    input.len() % WORD_BYTES == 0 && input.len() >= WORD_BYTES
}

// The word at the front of some bytes, the low byte first.
pub fn first_word(bytes: &[u8]) -> u64
    requires { 8 ≤ length bytes.now }
    ensures { result ≡ little_endian (take 8 bytes.now) }
{
    u64::from_le_bytes(*bytes.first_chunk().unwrap())
}

// Reads as many words as there is room for from the front of some bytes. A caller that reads fewer, or from a later place, lends a part of the
// room, and the bytes from that place on.
pub fn read_words(words: &mut [u64], bytes: &[u8])
    requires { 8 * length words.old ≤ length bytes.now }
    ensures { words.new ≡ words_of (length words.old) bytes.now }
{
    for i in 0..words.len() {
        words[i] = first_word(&bytes[WORD_BYTES * i..]);
    }
}

// The words that some bytes hold, of those that there is room for: they are read into the front of the room.
pub fn words_in<'a>(room: &'a mut [u64], bytes: &[u8]) -> &'a [u64]
    ensures { result.now ≡ words_of (min (length bytes.now / 8) (length room.old)) bytes.now }
{
    let n = (bytes.len() / WORD_BYTES).min(room.len());
    let words = &mut room[..n];
    read_words(words, bytes);
    words
}
