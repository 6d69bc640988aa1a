// A line of tallies: the depth, the number and the place of a refusal, 0 0 if there is none, the nine figures, 0 where refused, then
// the image.
use crate::line;

// Replays a line: whether the tally at its depth answers what it says; none where it is malformed.
pub fn replay_line(text: &[u8], words: &mut [u64]) -> Option<bool> {
    let mut numbers = [0; 12];
    let n = line::read_line(text, &mut numbers, words)?;
    let mut answer = [0; 11];
    unit_words::cowhirame_tally(&words[..n], numbers[0], &mut answer);
    Some(answer.as_slice() == &numbers[1..])
}
