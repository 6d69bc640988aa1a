// A line of images: the number and the place that the check is to answer, 0 0 for an accepted image, then the words.
use crate::line;

// Replays a line: whether the check answers what it says; none where it is malformed.
pub fn replay_line(text: &[u8], words: &mut [u64]) -> Option<bool> {
    let mut expected = [0; 2];
    let n = line::read_line(text, &mut expected, words)?;
    let mut answer = [0; 2];
    unit_words::cowhirame_check(&words[..n], &mut answer);
    Some(answer == expected)
}
