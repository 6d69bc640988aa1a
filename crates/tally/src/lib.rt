// The tally of an image at a depth: nine figures, before the first record.
#![tactic(auto)]

ghost use Rattle.std.specs.Prelude.{◌≡◌, cond, eqb, suc, ◌+◌, ◌-◌, ◌*◌, ◌<◌, min, set};
ghost use Rattle.model.specs.Image.{gates, qubits, bits, main_statements};
ghost use Rattle.model.specs.Tally.{tally, weight_tally};
ghost use Rattle.tally.specs.Weights.{weight_of, entry_of, capped_figures, body, FigureTable, tally_answer_of};

mod figures;
mod scope;

use figures::FIGURE_LIMIT;
pub use figures::Figures;
use image::{CheckRefusal, MOST_GATES};
use image_check::AcceptedImage;
use scope::OpenedScope;

// Why there is no tally: the check refuses the image, or a figure is too large.
#[derive(Clone, Copy)]
pub enum TallyError {
    Refused(CheckRefusal),
    TooLarge,
}

impl From<CheckRefusal> for TallyError {
    ghost use Rattle.tally.specs.declared.TallyError.TheVariants.{Refused};

    ghost from_gives = { λ refusal e. e ≡ Refused refusal };

    fn from(refusal: CheckRefusal) -> TallyError {
        TallyError::Refused(refusal)
    }
}

// The table of the bodies' figures has a row for each gate that an image may have. No struct holds it with the image and the levels:
// while it is filled, its rows are opened to two depths, and what is known of it would have to be said beside the struct again.
const ROWS: usize = MOST_GATES as usize;

// The words of the head are these, and a pair for each qubit and each bit.
const HEAD_WORDS: u64 = record_kind::HEAD_START_WORDS as u64;

const PAIR_WORDS: u64 = record_kind::PAIR_WORDS as u64;

// ---- the bodies

// Puts the figures of gate g's body into its row. The body calls only gates before g, whose rows stay.
fn fill_row(accepted: &AcceptedImage<'_>, levels: u64, g: u64, table: &mut [Figures; ROWS])
    requires { FigureTable accepted.now.image.words.now levels g table.old × (g < gates accepted.now.image.words.now) }
    ensures { table.new ≡ set table.old g (capped_figures (body accepted.now.image.words.now levels g)) }
{
    let scope = OpenedScope {
        image: &accepted.image,
        scope: g + 1,
        levels,
        bodies: &table[..g as usize],
    };
    table[g as usize] = scope.body_figures();
}

// Opens bodies one level deeper, from the last gate down: each row is made of those that are not yet deeper.
fn deepen_table(accepted: &AcceptedImage<'_>, levels: u64, table: &mut [Figures; ROWS])
    requires { FigureTable accepted.now.image.words.now levels (gates accepted.now.image.words.now) table.old }
    ensures { FigureTable accepted.now.image.words.now (suc levels) (gates accepted.now.image.words.now) table.new }
{
    for g in (0..accepted.image.layout.gates).rev() {
        fill_row(accepted, levels, g, table);
    }
}

// The table with bodies opened some levels deep, level by level.
fn level_table(accepted: &AcceptedImage<'_>, levels: u64) -> [Figures; ROWS]
    ensures { FigureTable accepted.now.image.words.now levels (gates accepted.now.image.words.now) result }
{
    let mut table = [Figures::NONE; ROWS];
    for level in 0..levels {
        deepen_table(accepted, level, &mut table);
    }
    table
}

// The table with all bodies opened: one pass from the first gate on, since each row is made of those before it.
fn whole_table(accepted: &AcceptedImage<'_>) -> [Figures; ROWS]
    ensures { FigureTable accepted.now.image.words.now accepted.now.image.layout.gates (gates accepted.now.image.words.now) result }
{
    let gates = accepted.image.layout.gates;
    let mut table = [Figures::NONE; ROWS];
    for g in 0..gates {
        fill_row(accepted, gates, g, &mut table);
    }
    table
}

// The table with bodies opened some levels deep.
fn opened_table(accepted: &AcceptedImage<'_>, levels: u64) -> [Figures; ROWS]
    ensures { FigureTable accepted.now.image.words.now levels (gates accepted.now.image.words.now) result }
{
    if levels == accepted.image.layout.gates {
        return whole_table(accepted);
    }
    level_table(accepted, levels)
}

// ---- in all

// The words of the head.
fn head_words(accepted: &AcceptedImage<'_>) -> u64
    ensures { result ≡ 3 + 2 * (qubits accepted.now.image.words.now + bits accepted.now.image.words.now) }
{
    let image = &accepted.image;
    let layout = image.layout;
    let words = image.words;
    let quantum = image::size_in_all(
        words,
        image.quantum_register_at(0),
        layout.quantum_registers,
    );
    let classical = image::size_in_all(
        words,
        image.classical_register_at(0),
        layout.classical_registers,
    );
    HEAD_WORDS + PAIR_WORDS * (quantum + classical)
}

// What the head adds. It comes with the first main statement.
fn head_figures(accepted: &AcceptedImage<'_>) -> Figures
    ensures { let w = accepted.now.image.words.now in
        result ≡ capped_figures (λ j. cond (eqb (main_statements w) 0) 0 (weight_of j 0 (3 + 2 * (qubits w + bits w)))) }
{
    if accepted.image.layout.main_statements == 0 {
        return Figures::NONE;
    }
    Figures {
        words: head_words(accepted),
        ..Figures::NONE
    }
}

// The figures of the whole image.
fn total_figures(accepted: &AcceptedImage<'_>, levels: u64, table: &[Figures; ROWS]) -> Figures
    requires { FigureTable accepted.now.image.words.now levels (gates accepted.now.image.words.now) table.now }
    ensures { result ≡ capped_figures (λ j. weight_tally accepted.now.image.words.now (weight_of j) (entry_of j) (levels + 1)) }
{
    let image = &accepted.image;
    let main = OpenedScope {
        image,
        scope: 0,
        levels,
        bodies: &table[..image.layout.gates as usize],
    };
    main.body_figures().plus(head_figures(accepted))
}

// How deep bodies are opened: as many levels as there are gates open them all.
fn opened_levels(depth: u64, gates: u64) -> u64
    ensures { result ≡ min (depth - 1) gates }
{
    depth.saturating_sub(1).min(gates)
}

// The nine figures of an accepted image at a depth, or that one of them is too large.
fn accepted_tally(accepted: &AcceptedImage<'_>, depth: u64) -> Result<Figures, TallyError>
    ensures { tally_answer_of result ≡ tally accepted.now.image.words.now depth }
{
    let levels = opened_levels(depth, accepted.image.layout.gates);
    let table = opened_table(accepted, levels);
    let figures = total_figures(accepted, levels, &table);
    if figures.largest() < FIGURE_LIMIT {
        Ok(figures)
    } else {
        Err(TallyError::TooLarge)
    }
}

// The nine figures at a depth, or why there are none.
pub fn tally(words: &[u64], depth: u64) -> Result<Figures, TallyError>
    ensures { tally_answer_of result ≡ tally words.now depth }
{
    let accepted = image_check::accepted_image(words)?;
    accepted_tally(&accepted, depth)
}
