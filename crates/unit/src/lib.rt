// The operations of the sequence unit: check, tally, run, next record.
#![tactic(auto)]

ghost use Rattle.std.specs.Prelude.{◌≡◌};
ghost use Rattle.model.specs.Check.{check};
ghost use Rattle.model.specs.Tally.{tally};
ghost use Rattle.model.specs.RecordReader.{next_at};
ghost use Rattle.image.specs.Answer.{answer_flaw};
ghost use Rattle.tally.specs.Weights.{tally_answer_of};
ghost use Rattle.record_reader.specs.Answer.{next_record_of as next_of, next_words_of};
ghost use Rattle.record_writer.specs.Promise.{position_of};
ghost use Rattle.linearize.specs.Linearizes.{Linearizes};
ghost use Rattle.unit.specs.AnswerNumbers.{RefusalNumbers, RunNumbers};

use image::{CheckRefusal, RefusalNumber};
use record_reader::NoRecord;
use record_writer::{LinearizeErrorKind, Linearized, Position};
use tally::{Figures, TallyError};

// Whether an image can be run: accepted, or what is wrong with it, and at which place. What holds of every refusal, a number from 1 to 8 among it, is `CheckClaims`.
pub fn check(image: &[u64]) -> Result<(), CheckRefusal>
    ensures { answer_flaw result ≡ check image.now }
{
    image_check::check(image)
}

// What a run at a depth will write: records of each kind, body entries, words at most.
pub fn tally(image: &[u64], depth: u64) -> Result<Figures, TallyError>
    ensures { tally_answer_of result ≡ tally image.now depth }
{
    tally::tally(image, depth)
}

// Writes the operations of an image at a depth into the output. A refusal's calls stand in the trace.
pub fn run(image: &[u64], depth: u64, out: &mut [u64], trace: &mut [u64]) -> Linearized
    ensures { Linearizes image.now depth out.old trace.old result out.new trace.new }
{
    linearize::run(image, depth, out, trace)
}

// What stands at a position of some words: a record of so many words, the end, or no record.
pub fn next_at(words: &[u64], at: usize) -> Result<Option<usize>, NoRecord>
    ensures { result ≡ next_of (next_at words.now at) }
{
    record_reader::next_at(words, at)
}

// The record at a position, as a part of the words; none of them where there is no record.
pub fn next_record(words: &[u64], at: usize) -> &[u64]
    ensures { result.now ≡ next_words_of (next_at words.now at) }
{
    record_reader::next_record(words, at)
}

// An answer's number and two places, as document 01 numbers them: 0 is finished.
#[derive(Clone, Copy)]
pub struct Numbers {
    pub number: u64,
    pub place: u64,
    pub second: u64,
}

impl Numbers {
    fn new(number: u64, place: u64, second: u64) -> Numbers
        ensures { result ≡ record { number = number; place = place; second = second } }
    {
        Numbers {
            number,
            place,
            second,
        }
    }
}

impl From<LinearizeErrorKind> for Numbers {
    ghost from_gives = { RefusalNumbers };

    fn from(kind: LinearizeErrorKind) -> Numbers {
        match kind {
            LinearizeErrorKind::DivideByZero(place) => {
                Numbers::new(RefusalNumber::DivideByZero as u64, place, 0)
            }
            LinearizeErrorKind::ApproximateFail(place, x) => Numbers::new(
                RefusalNumber::ApproximateFail as u64,
                place,
                float::f32_to_bits(x) as u64,
            ),
            LinearizeErrorKind::NumericalOverflow(place) => {
                Numbers::new(RefusalNumber::NumericalOverflow as u64, place, 0)
            }
            LinearizeErrorKind::OverlappingRegs(place, second) => {
                Numbers::new(RefusalNumber::OverlappingRegs as u64, place, second)
            }
            LinearizeErrorKind::FunctionOfFloats(place) => {
                Numbers::new(RefusalNumber::FunctionOfFloats as u64, place, 0)
            }
            LinearizeErrorKind::OutputFull => Numbers::new(RefusalNumber::OutputFull as u64, 0, 0),
            LinearizeErrorKind::Flawed(refusal) => {
                Numbers::new(refusal.number(), refusal.place(), 0)
            }
            LinearizeErrorKind::ShortTrace => Numbers::new(RefusalNumber::ShortTrace as u64, 0, 0),
        }
    }
}

// The number and the places of a run's answer.
pub fn numbers_of(r: Linearized) -> Numbers
    ensures { RunNumbers r result }
{
    match r {
        Ok(_) => Numbers::new(0, 0, 0),
        Err(e) => Numbers::from(e.kind),
    }
}

// How many records, output words and trace words are written when a run ends.
pub fn position_of(r: Linearized) -> Position
    ensures { result ≡ position_of r }
{
    r.unwrap_or_else(|e| e.at)
}
