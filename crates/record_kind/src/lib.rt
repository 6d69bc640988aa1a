// The kinds of records, by the number that is a record's first word, and how many words a record has.
#![tactic(auto)]

ghost use Rattle.record_kind.specs.Kind.{KindOf};

// The kinds of records, each with its number.
#[derive(Clone, Copy, PartialEq, Eq, Debug)]
pub enum RecordKind {
    Head = 0,
    U = 1,
    CX = 2,
    Opaque = 3,
    Barrier = 4,
    Measure = 5,
    Reset = 6,
    ConditionalStart = 7,
    ConditionalEnd = 8,
}

// The words of a record of a kind whose records all have as many.
pub const U_WORDS: usize = 14;

pub const CX_WORDS: usize = 3;

pub const MEASURE_WORDS: usize = 3;

pub const RESET_WORDS: usize = 2;

pub const CONDITIONAL_START_WORDS: usize = 4;

pub const CONDITIONAL_END_WORDS: usize = 1;

// The words that stand before the pairs of a head, before the angles of a U and of an opaque gate, and before the qubits of a barrier.
pub const HEAD_START_WORDS: usize = 3;

pub const U_START_WORDS: usize = 1;

pub const OPAQUE_START_WORDS: usize = 4;

pub const BARRIER_START_WORDS: usize = 2;

// The words of a pair in a head: a register's number and an offset.
pub const PAIR_WORDS: usize = 2;

// The words of an angle in a record.
pub const ANGLE_WORDS: usize = 4;

// A number that is no kind's.
#[derive(Clone, Copy, PartialEq, Eq, Debug)]
pub struct UnknownKind;

impl TryFrom<u64> for RecordKind {
    type Error = UnknownKind;

    ghost try_from_gives = { KindOf };

    fn try_from(number: u64) -> Result<RecordKind, UnknownKind> {
        match number {
            0 => Ok(RecordKind::Head),
            1 => Ok(RecordKind::U),
            2 => Ok(RecordKind::CX),
            3 => Ok(RecordKind::Opaque),
            4 => Ok(RecordKind::Barrier),
            5 => Ok(RecordKind::Measure),
            6 => Ok(RecordKind::Reset),
            7 => Ok(RecordKind::ConditionalStart),
            8 => Ok(RecordKind::ConditionalEnd),
            _ => Err(UnknownKind),
        }
    }
}
