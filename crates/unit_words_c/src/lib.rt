// The C functions of include/cowhirame.h: those of unit_words by the same names, with the same contracts.
#![tactic(auto)]

ghost use Rattle.std.specs.Prelude.{◌≡◌};
ghost use Rattle.model.specs.Check.{check};
ghost use Rattle.model.specs.Tally.{tally};
ghost use Rattle.model.specs.RecordReader.{next_at};
ghost use Rattle.record_reader.specs.Answer.{next_record_of as next_of};
ghost use Rattle.unit_words.specs.AnswerWords.{check_words, tally_words, next_words, RunExport};

// The number and the place of what the check finds, 0 0 if the image is accepted.
#[unsafe(no_mangle)]
pub extern "C" fn cowhirame_check(image: &[u64], answer: &mut [u64; 2])
    ensures { answer.new ≡ check_words (check image.now) }
{
    unit_words::cowhirame_check(image, answer);
}

// The tally's number and place, and the nine figures.
#[unsafe(no_mangle)]
pub extern "C" fn cowhirame_tally(image: &[u64], depth: u64, answer: &mut [u64; 11])
    ensures { answer.new ≡ tally_words (tally image.now depth) }
{
    unit_words::cowhirame_tally(image, depth, answer);
}

// The run's number, place and second place, then how many records, output words and trace words are written.
#[unsafe(no_mangle)]
pub extern "C" fn cowhirame_run(
    image: &[u64],
    depth: u64,
    out: &mut [u64],
    trace: &mut [u64],
    answer: &mut [u64; 6],
)
    ensures { RunExport image.now depth out.old trace.old out.new trace.new answer.new }
{
    unit_words::cowhirame_run(image, depth, out, trace, answer);
}

// What stands at a position of some words: a number, and the length of a record.
#[unsafe(no_mangle)]
pub extern "C" fn cowhirame_next(words: &[u64], at: usize, answer: &mut [u64; 2])
    ensures { answer.new ≡ next_words (next_of (next_at words.now at)) }
{
    unit_words::cowhirame_next(words, at, answer);
}
