// The text of a line of numbers: 14 numbers with single spaces between them, and a line feed.
ghost use Rattle.std.specs.Prelude.{◌≤◌, length};

use crate::line;
use crate::operation::Operation;
use rational::Rational64;
use value::Value;

// How many numbers a line has.
const NUMBERS: usize = 14;

// A case and the four numbers of an angle. A line writes every result so, a number as the numerator of an angle of zeros, and only its
// operation tells what the five numbers are: the case is no enum, and a result that is computed is compared with a line's as it stands.
#[derive(Clone, Copy, PartialEq, Eq)]
pub struct NumberResult {
    pub case: u64,
    pub value: Value,
}

// An operation with its operands and its result; none where no operation has the line's number, and then nothing agrees with the line.
// The angles are as written, in lowest terms or not.
#[derive(Clone, Copy)]
pub struct Vector {
    pub operation: Option<Operation>,
    pub x: Value,
    pub y: Value,
    pub expected: NumberResult,
}

#[derive(Clone, Copy)]
struct SignedNumber {
    negative: bool,
    magnitude: u64,
}

// Whether the k-th number is a numerator, which may have a sign. Numbers are counted from 0.
fn may_have_a_sign(k: usize) -> bool {
    matches!(k, 1 | 3 | 5 | 7 | 10 | 12)
}

// The k-th number, which is a part of a line. Only a numerator may have a sign.
fn signed_number(part: &[u8], k: usize) -> Option<SignedNumber> {
    let (negative, digits) = match part.strip_prefix(b"-") {
        Some(behind) if may_have_a_sign(k) => (true, behind),
        _ => (false, part),
    };
    let magnitude = line::number(digits)?;
    Some(SignedNumber {
        negative,
        magnitude,
    })
}

// The numbers, if the text is just these.
fn read_numbers(text: &[u8]) -> Option<[SignedNumber; NUMBERS]> {
    let zero = SignedNumber {
        negative: false,
        magnitude: 0,
    };
    let mut numbers = [zero; NUMBERS];
    let mut parts = text.strip_suffix(b"\n")?.split(|byte| *byte == b' ');
    for (k, place) in numbers.iter_mut().enumerate() {
        *place = signed_number(parts.next()?, k)?;
    }
    if parts.next().is_none() {
        Some(numbers)
    } else {
        None
    }
}

// The fraction of a numerator and a denominator.
fn fraction(numer: SignedNumber, denom: SignedNumber) -> Rational64 {
    Rational64 {
        negative: numer.negative,
        numer: numer.magnitude,
        denom: denom.magnitude,
    }
}

// The angle of four numbers.
fn angle(numbers: &[SignedNumber]) -> Value
    requires { 4 ≤ length numbers.now }
{
    Value {
        a: fraction(numbers[0], numbers[1]),
        b: fraction(numbers[2], numbers[3]),
    }
}

// The vector of a line.
pub fn parse(text: &[u8]) -> Option<Vector> {
    let numbers = read_numbers(text)?;
    Some(Vector {
        operation: Operation::try_from(numbers[0].magnitude).ok(),
        x: angle(&numbers[1..5]),
        y: angle(&numbers[5..9]),
        expected: NumberResult {
            case: numbers[9].magnitude,
            value: angle(&numbers[10..14]),
        },
    })
}
