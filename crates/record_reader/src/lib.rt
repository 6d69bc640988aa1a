// The next record of some words, as a part of the caller's own slice.
#![tactic(auto)]

ghost use Rattle.std.specs.Prelude.{◌≡◌, length, get_or, ◌+◌, ◌*◌, ◌<◌};
ghost use Rattle.model.specs.RecordReader.{next_at};
ghost use Rattle.record_reader.specs.Answer.{length_within, whole_length, next_record_of, next_words_of};

use record_kind::RecordKind;

// The words of the parts of a record whose length is no constant, in the type of a record's words.
const HEAD_START_WORDS: u64 = record_kind::HEAD_START_WORDS as u64;

const PAIR_WORDS: u64 = record_kind::PAIR_WORDS as u64;

const OPAQUE_START_WORDS: u64 = record_kind::OPAQUE_START_WORDS as u64;

const ANGLE_WORDS: u64 = record_kind::ANGLE_WORDS as u64;

const BARRIER_START_WORDS: u64 = record_kind::BARRIER_START_WORDS as u64;

// Where no whole record of a known kind begins, and the words do not end at the position: the answer 17.
#[derive(Clone, Copy, PartialEq, Eq, Debug)]
pub struct NoRecord;

// Word k of a record, or 0 if the words end before it.
fn record_word(words: &[u64], k: usize) -> u64
    ensures { result ≡ get_or words.now k 0 }
{
    words.get(k).copied().unwrap_or(0)
}

// The length of a head of some qubits and bits, if it is within the words available.
fn head_length(available: u64, qubits: u64, bits: u64) -> Option<u64>
    ensures { result ≡ length_within available (3 + 2 * (qubits + bits)) }
{
    if available < HEAD_START_WORDS {
        return None;
    }
    let room = (available - HEAD_START_WORDS) / PAIR_WORDS;
    if room < qubits {
        return None;
    }
    if room - qubits < bits {
        return None;
    }
    Some(HEAD_START_WORDS + PAIR_WORDS * (qubits + bits))
}

// The length of the record of a gate that is not opened, if it is within the words available.
fn opaque_length(available: u64, parameters: u64, arguments: u64) -> Option<u64>
    ensures { result ≡ length_within available (4 + 4 * parameters + arguments) }
{
    if available < OPAQUE_START_WORDS {
        return None;
    }
    if (available - OPAQUE_START_WORDS) / ANGLE_WORDS < parameters {
        return None;
    }
    if available - OPAQUE_START_WORDS - ANGLE_WORDS * parameters < arguments {
        return None;
    }
    Some(OPAQUE_START_WORDS + ANGLE_WORDS * parameters + arguments)
}

// The length of a barrier record of some qubits, if it is within the words available.
fn barrier_length(available: u64, qubits: u64) -> Option<u64>
    ensures { result ≡ length_within available (2 + qubits) }
{
    if available < BARRIER_START_WORDS {
        return None;
    }
    if available - BARRIER_START_WORDS < qubits {
        return None;
    }
    Some(BARRIER_START_WORDS + qubits)
}

// The length of a record whose kind has a fixed length, if it is within the words available.
fn fixed_length(available: u64, n: usize) -> Option<u64>
    ensures { result ≡ length_within available n }
{
    if available < n as u64 {
        return None;
    }
    Some(n as u64)
}

// The length of the record that some words begin with, if they begin with a whole record of a known kind.
fn length_of(words: &[u64]) -> Option<u64>
    requires { 0 < length words.now }
    ensures { result ≡ whole_length words.now }
{
    let available = words.len() as u64;
    let kind = RecordKind::try_from(words[0]).ok()?;
    match kind {
        RecordKind::Head => head_length(available, record_word(words, 1), record_word(words, 2)),
        RecordKind::U => fixed_length(available, record_kind::U_WORDS),
        RecordKind::CX => fixed_length(available, record_kind::CX_WORDS),
        RecordKind::Opaque => opaque_length(
            available,
            record_word(words, 2),
            record_word(words, 3),
        ),
        RecordKind::Barrier => barrier_length(available, record_word(words, 1)),
        RecordKind::Measure => fixed_length(available, record_kind::MEASURE_WORDS),
        RecordKind::Reset => fixed_length(available, record_kind::RESET_WORDS),
        RecordKind::ConditionalStart => fixed_length(
            available,
            record_kind::CONDITIONAL_START_WORDS,
        ),
        RecordKind::ConditionalEnd => fixed_length(available, record_kind::CONDITIONAL_END_WORDS),
    }
}

// What stands at a position: a record of so many words, the end of the words, or no record.
pub fn next_at(words: &[u64], at: usize) -> Result<Option<usize>, NoRecord>
    ensures { result ≡ next_record_of (next_at words.now at) }
{
    if at < words.len() {
        let n = length_of(&words[at..]).ok_or(NoRecord)?;
        return Ok(Some(n as usize));
    }
    if at == words.len() {
        return Ok(None);
    }
    Err(NoRecord)
}

// The words of the record at a position, as a part of the slice, or no words if there is no record. It is no `Option`, since document 01 names the sub-slice as the reader's form.
pub fn next_record(words: &[u64], at: usize) -> &[u64]
    ensures { result.now ≡ next_words_of (next_at words.now at) }
{
    if let Ok(Some(n)) = next_at(words, at) {
        return &words[at..at + n];
    }
    &words[..0]
}
