// Keeps where the records of a gate's body stand that was run to its end, so that a later call of the gate copies them.
#![tactic(auto)]

ghost use Rattle.std.specs.Prelude.{◌≡◌, List, ℕ, ◌+◌, ◌-◌, ◌*◌, ◌≤◌, ◌<◌, length, take, is_some};
ghost use mathlib.Core.List.{flat_map};
ghost use Rattle.std.proofs.lemmas.List.Edits.{sets};
ghost use Rattle.model.specs.Limits.{most_parameters};
ghost use Rattle.model.specs.Accepted.{Accepted};
ghost use Rattle.model.specs.Claims.{differ};
ghost use Rattle.record_writer.specs.Promise.{QubitsGiven};
ghost use Rattle.kept_body.specs.Slot.{angles_at, value_words, fraction_at, value_at, words_of_value, slot_need, slot_of, WideEnough, opened_alike, same_angles, same_body, may_be_copied, SlotFilled};
ghost use Rattle.kept_body.specs.KeptBodies.{BodiesKept, CalledGate, SlotGiven, CopyGiven, copies, BodyCopied, BodyPut, BodyRun};

use copy::Renaming;
use image::Image;
use rational::Rational64;
use record_writer::Position;
use statement::Call;
use value::Value;

// Where a slot holds the words of its angles, behind four numbers: the levels left, the first output word, the words and the records of the body. Its
// qubits stand behind the angles.
const ANGLES_AT: usize = 4;

// The words of an angle: sign, numerator and denominator of both parts. A slot has as many as its gate has parameters. A struct of sixteen angles
// and sixteen qubits for each gate takes six times as long to fill, and in a small program twice as long to clear (docs/MEASURES.md).
const VALUE_WORDS: usize = 6;

// The most words that a slot may have.
pub const MOST_SLOT_WORDS: usize = ANGLES_AT
    + VALUE_WORDS * image::FRAME_ANGLES
    + image::FRAME_QUBITS;

// What the body of a gate has at hand: an angle for each parameter and a qubit for each argument.
#[derive(Clone, Copy)]
pub struct Frame {
    pub angles: [Value; image::FRAME_ANGLES],
    pub qubits: [u64; image::FRAME_QUBITS],
}

// ---- the width of slots

// How many words a slot has: what the gate needs that needs most.
pub fn slot_width(image: &Image<'_>) -> u64
    requires { Accepted image.now.words.now }
    ensures { WideEnough image.now.words.now result }
{
    let mut width = 0;
    for g in 0..image.layout.gates {
        let at = image.gate_at(g);
        let angle_words = VALUE_WORDS as u64 * image.word(at);
        width = (ANGLES_AT as u64 + angle_words + image.word(at + 1)).max(width);
    }
    width
}

// ---- angles in words

// The fraction in three words: 1 for a negative one, the numerator, the denominator.
fn fraction_at(words: &[u64], at: usize) -> Rational64
    requires { at + 2 < length words.now }
    ensures { result ≡ fraction_at words.now at }
{
    Rational64 {
        negative: words[at] == 1,
        numer: words[at + 1],
        denom: words[at + 2],
    }
}

// The angle in six words.
fn value_at(words: &[u64], at: usize) -> Value
    requires { at + 5 < length words.now }
    ensures { result ≡ value_at words.now at }
{
    Value {
        a: fraction_at(words, at),
        b: fraction_at(words, at + 3),
    }
}

// Puts an angle into six words.
fn put_value(words: &mut [u64], at: usize, x: Value)
    requires { at + 5 < length words.old }
    ensures { words.new ≡ sets words.old at (words_of_value x) }
{
    words[at] = x.a.negative as u64;
    words[at + 1] = x.a.numer;
    words[at + 2] = x.a.denom;
    words[at + 3] = x.b.negative as u64;
    words[at + 4] = x.b.numer;
    words[at + 5] = x.b.denom;
}

// ---- whether a body is the one that is kept

// Whether a body that was opened with some levels left, and wrote some words, does the same with those of a call: there are as many, or every
// call in it is opened in both, since a gate calls gates of smaller number; one that wrote nothing does so with more levels, too.
fn is_opened_alike(levels: u64, body_words: u64, call: Call) -> bool
    ensures { result ≡ opened_alike call.gate levels call.site.levels_left body_words }
{
    let levels_left = call.site.levels_left;
    if levels == levels_left {
        return true;
    }
    if body_words == 0 {
        if levels <= levels_left {
            return true;
        }
    }
    if call.gate < levels {
        return call.gate < levels_left;
    }
    false
}

// Whether the first n of the kept angles are those of others.
fn same_angles(slot: &[u64], angles: &[Value; image::FRAME_ANGLES], n: usize) -> bool
    requires { (angles_at + value_words * n ≤ length slot.now) × (n ≤ most_parameters) }
    ensures { result ≡ same_angles slot.now angles.now n }
{
    for i in 0..n {
        let kept = value_at(slot, ANGLES_AT + VALUE_WORDS * i);
        if kept != angles[i] {
            return false;
        }
    }
    true
}

// Whether what is kept is the body of a call with these angles.
fn is_same_body(slot: &[u64], call: Call, angles: &[Value; image::FRAME_ANGLES]) -> bool
    requires { (angles_at + value_words * call.parameters ≤ length slot.now) × (call.parameters ≤ most_parameters) }
    ensures { result ≡ same_body slot.now call angles.now }
{
    let levels = slot[0];
    if levels == 0 {
        return false;
    }
    if !is_opened_alike(levels, slot[2], call) {
        return false;
    }
    same_angles(slot, angles, call.parameters as usize)
}

// Whether the first n of sixteen qubits are n different ones.
fn are_distinct(qubits: &[u64; image::FRAME_QUBITS], n: u64) -> bool
    requires { QubitsGiven qubits.now n }
    ensures { result ≡ differ (take n qubits.now) }
{
    statement::first_overlap(qubits, n).is_none()
}

// ---- copying

// Copies the records of the body that is kept of a call's gate, if it is the call's body, with the qubits of the call. A body that wrote nothing is
// the same whatever its qubits are. Records are copied if there is room for all of them, so that a refusal comes where it would come, and if the
// call has no qubit twice: with one qubit a body may do something else than with two different ones.
pub fn copy_body(
    kept_bodies: &[u64],
    call: Call,
    frame: &Frame,
    out: &mut [u64],
    at: Position,
) -> Option<Position>
    requires { CopyGiven kept_bodies.now out.old call frame.now.qubits at }
    ensures { (is_some result ≡ copies (slot_of kept_bodies.now call.gate) out.old call frame.now.angles frame.now.qubits at)
        × ((image : List ℕ) → CalledGate image call → BodiesKept image kept_bodies.now out.old at.words
        → BodyCopied image call frame.now.angles frame.now.qubits out.old at result out.new) }
{
    let width = kept_bodies[0] as usize;
    let first = 1 + width * call.gate as usize;
    let end = first + width;
    let slot = &kept_bodies[first..end];
    if !is_same_body(slot, call, &frame.angles) {
        return None;
    }
    let words = slot[2] as usize;
    if words == 0 {
        return Some(at);
    }
    if record_writer::is_full(out, at, words) {
        return None;
    }
    if !are_distinct(&frame.qubits, call.arguments) {
        return None;
    }
    let behind_angles = ANGLES_AT + VALUE_WORDS * call.parameters as usize;
    let behind_qubits = behind_angles + call.arguments as usize;
    let renaming = Renaming {
        old: &slot[behind_angles..behind_qubits],
        new: &frame.qubits[..call.arguments as usize],
    };
    let written = copy::copy_records(out, renaming, slot[1] as usize, words, at.words as usize);
    Some(Position {
        records: at.records + slot[3],
        words: at.words + written as u64,
        trace: at.trace,
    })
}

// ---- keeping

// Puts the first n of some angles into a slot.
fn put_angles(slot: &mut [u64], angles: &[Value; image::FRAME_ANGLES], n: usize)
    requires { (angles_at + value_words * n ≤ length slot.old) × (n ≤ most_parameters) }
    ensures { slot.new ≡ sets slot.old angles_at (flat_map words_of_value (take n angles.now)) }
{
    for i in 0..n {
        put_value(slot, ANGLES_AT + VALUE_WORDS * i, angles[i]);
    }
}

// Puts some qubits into a slot, from a place on, by a loop. `put_words` of `record_writer` does the same by the library's `copy_from_slice`, which would be built
// into a call of `memmove` here, while the header of the static library promises that memcpy and memset are all that it needs of a C library. A loop in
// `put_words` was tried: the rounds of a CX of one qubit and many took half as long again.
fn put_qubits(slot: &mut [u64], start: usize, qubits: &[u64])
    requires { start + length qubits.now ≤ length slot.old }
    ensures { slot.new ≡ sets slot.old start qubits.now }
{
    for (i, qubit) in qubits.iter().enumerate() {
        slot[start + i] = *qubit;
    }
}

// Fills a slot with the body of a call that was run between two positions.
fn put_body(slot: &mut [u64], call: Call, frame: &Frame, at: Position, next: Position)
    requires { (slot_need call.parameters call.arguments ≤ length slot.old)
        × (QubitsGiven frame.now.qubits call.arguments × (call.parameters ≤ most_parameters))
        × ((at.words ≤ next.words) × (at.records ≤ next.records)) }
    ensures { SlotFilled slot.new call.site.levels_left at.words (next.words - at.words) (next.records - at.records)
        call frame.now.angles frame.now.qubits }
{
    slot[0] = call.site.levels_left;
    slot[1] = at.words;
    slot[2] = next.words - at.words;
    slot[3] = next.records - at.records;
    let n = call.parameters as usize;
    put_angles(slot, &frame.angles, n);
    let behind_angles = ANGLES_AT + VALUE_WORDS * n;
    put_qubits(
        slot,
        behind_angles,
        &frame.qubits[..call.arguments as usize],
    );
}

// Whether a body that wrote so many words with these qubits may be copied for others: with a qubit twice it may do something else than with two
// different ones. One that wrote nothing does so with any qubits.
fn may_be_copied(written: u64, qubits: &[u64; image::FRAME_QUBITS], n: u64) -> bool
    requires { QubitsGiven qubits.now n }
    ensures { result ≡ may_be_copied written (take n qubits.now) }
{
    if written == 0 {
        return true;
    }
    are_distinct(qubits, n)
}

// Keeps the body of a call that was run to its end between two positions, if it may be copied.
pub fn keep_body(kept_bodies: &mut [u64], call: Call, frame: &Frame, at: Position, next: Position)
    requires { SlotGiven kept_bodies.old call frame.now.qubits × ((at.words ≤ next.words) × (at.records ≤ next.records)) }
    ensures { BodyPut kept_bodies.old call frame.now.angles frame.now.qubits at next kept_bodies.new
        × ((image out out' : List ℕ) → BodyRun image call frame.now.angles frame.now.qubits out at next out'
        → BodiesKept image kept_bodies.old out' next.words → BodiesKept image kept_bodies.new out' next.words) }
{
    if !may_be_copied(next.words - at.words, &frame.qubits, call.arguments) {
        return;
    }
    let width = kept_bodies[0] as usize;
    let first = 1 + width * call.gate as usize;
    let end = first + width;
    put_body(&mut kept_bodies[first..end], call, frame, at, next);
}
