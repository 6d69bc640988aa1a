// The operations of the sequence unit with answers as words, as callers in other languages get them.
#![tactic(auto)]

ghost use Rattle.std.specs.Prelude.{◌≡◌};
ghost use Rattle.model.specs.Check.{check};
ghost use Rattle.model.specs.Tally.{tally};
ghost use Rattle.model.specs.RecordReader.{next_at};
ghost use Rattle.image.specs.Answer.{answer_flaw};
ghost use Rattle.tally.specs.Weights.{tally_answer_of};
ghost use Rattle.record_reader.specs.Answer.{next_record_of as next_of};
ghost use Rattle.unit_words.specs.AnswerWords.{check_words, tally_words, next_words, RunExport};

use image::{CheckRefusal, RefusalNumber};
use record_reader::NoRecord;
use tally::{Figures, TallyError};

// The words of the check's answer: 0 0 of an accepted image, or a refusal's number and place.
fn check_words(checked: Result<(), CheckRefusal>) -> [u64; 2]
    ensures { result ≡ check_words (answer_flaw checked) }
{
    match checked {
        Ok(()) => [0, 0],
        Err(refusal) => [refusal.number(), refusal.place()],
    }
}

// The number and the place of what the check finds, 0 0 if the image is accepted.
pub fn cowhirame_check(image: &[u64], answer: &mut [u64; 2])
    ensures { answer.new ≡ check_words (check image.now) }
{
    *answer = check_words(unit::check(image));
}

// The words of a tally's answer: 0 0 and the nine figures, or a refusal's number and place and nine zeros. The figures are named one by one,
// in the order of the header, since an array has no names.
fn tally_words(tallied: Result<Figures, TallyError>) -> [u64; 11]
    ensures { result ≡ tally_words (tally_answer_of tallied) }
{
    match tallied {
        Ok(f) => [
            0,
            0,
            f.u,
            f.cx,
            f.opaque,
            f.barrier,
            f.measure,
            f.reset,
            f.conditional,
            f.entries,
            f.words,
        ],
        Err(TallyError::Refused(refusal)) => [
            refusal.number(),
            refusal.place(),
            0,
            0,
            0,
            0,
            0,
            0,
            0,
            0,
            0,
        ],
        Err(TallyError::TooLarge) => {
            [
                RefusalNumber::FigureTooLarge as u64,
                0,
                0,
                0,
                0,
                0,
                0,
                0,
                0,
                0,
                0,
            ]
        }
    }
}

// The tally's number and place, and the nine figures.
pub fn cowhirame_tally(image: &[u64], depth: u64, answer: &mut [u64; 11])
    ensures { answer.new ≡ tally_words (tally image.now depth) }
{
    *answer = tally_words(unit::tally(image, depth));
}

// The run's number, place and second place, then how many records, output words and trace words are written.
pub fn cowhirame_run(
    image: &[u64],
    depth: u64,
    out: &mut [u64],
    trace: &mut [u64],
    answer: &mut [u64; 6],
)
    ensures { RunExport image.now depth out.old trace.old out.new trace.new answer.new }
{
    let ended = unit::run(image, depth, out, trace);
    let numbers = unit::numbers_of(ended);
    let written = unit::position_of(ended);
    *answer = [
        numbers.number,
        numbers.place,
        numbers.second,
        written.records,
        written.words,
        written.trace,
    ];
}

// The words of the record reader's answer: 0 and the length of a record, 0 0 at the end, 17 0 where there is no record.
fn next_words(found: Result<Option<usize>, NoRecord>) -> [u64; 2]
    ensures { result ≡ next_words found }
{
    match found {
        Ok(Some(length)) => [0, length as u64],
        Ok(None) => [0, 0],
        Err(NoRecord) => [RefusalNumber::NoRecord as u64, 0],
    }
}

// What stands at a position of some words: a number, and the length of a record.
pub fn cowhirame_next(words: &[u64], at: usize, answer: &mut [u64; 2])
    ensures { answer.new ≡ next_words (next_of (next_at words.now at)) }
{
    *answer = next_words(unit::next_at(words, at));
}
