// Checks a program image: its statements, and what is wrong first of all that it holds.
#![tactic(auto)]

ghost use Rattle.std.specs.Prelude.{◌≡◌, ◌≤◌, MatchResult};
ghost use Rattle.model.specs.Check.{fine, bad, statement_entries, check};
ghost use Rattle.model.specs.Limits.{most_words};
ghost use Rattle.image.specs.Answer.{refusal_flaw, answer_flaw};
ghost use Rattle.image.specs.Layout.{GatesAccepted};
ghost use Rattle.image_check.specs.Answer.{entries_flaw, number_of};

mod statements;

use image::{CheckRefusal, Image};
use image_entries::{JudgedImage, Scope};
use statements::JudgedScope;

// What is wrong with a statement.
#[derive(Clone, Copy)]
pub enum StatementFlaw {
    Form,
    Upward,
    Expression,
    Argument,
    Sizes,
}

impl StatementFlaw {
    // The refusal for a statement at a place.
    fn at(self, place: u64) -> CheckRefusal
        ensures { refusal_flaw result ≡ bad (number_of self) place }
    {
        match self {
            StatementFlaw::Form => CheckRefusal::Form(place),
            StatementFlaw::Upward => CheckRefusal::Upward(place),
            StatementFlaw::Expression => CheckRefusal::Expression(place),
            StatementFlaw::Argument => CheckRefusal::Argument(place),
            StatementFlaw::Sizes => CheckRefusal::Sizes(place),
        }
    }
}

// ---- the statements of an image

// The first bad statement where the judgements of the expressions are at hand: main's in order, then the bodies' by gate number. That the gates
// are accepted is asked for by this and the next two functions and held by `JudgedScope`. It is no ghost field of an image: `statements_of`, which asks for it too, is called with
// accepted images, of which it is known, and a struct between the two kinds of images would be made anew at each call.
fn first_bad_judged(judged: &JudgedImage<'_>) -> Result<(), CheckRefusal>
    requires { GatesAccepted judged.now.image.words.now }
    ensures { answer_flaw result ≡ statement_entries judged.now.image.words.now }
{
    let image = judged.image;
    // One scope takes each number in its turn: one made anew for each would copy the image.
    let mut judged_scope = JudgedScope {
        scope: Scope { image, number: 0 },
        judgements: judged.judgements,
    };
    for number in 0..=image.layout.gates {
        judged_scope.scope.number = number;
        judged_scope.first_bad_statement()?;
    }
    Ok(())
}

// The first bad statement, with a table for N expressions.
fn first_bad_with_table<const N: usize>(image: &Image<'_>) -> Result<(), CheckRefusal>
    requires { GatesAccepted image.now.words.now × (image.now.layout.expressions ≤ N) × (N ≤ most_words) }
    ensures { answer_flaw result ≡ statement_entries image.now.words.now }
{
    let mut judgements = [None; N];
    image_entries::judge_expressions(image, &mut judgements);
    first_bad_judged(&JudgedImage {
        image: *image,
        judgements: &judgements,
    })
}

// The first bad statement of all scopes. The choice between the two lengths of the table is no function of its own: it would take what is done with the table as a
// closure, and no closure has a const parameter.
fn first_bad_statement(image: &Image<'_>) -> Result<(), CheckRefusal>
    requires { GatesAccepted image.now.words.now }
    ensures { answer_flaw result ≡ statement_entries image.now.words.now }
{
    if image.layout.expressions <= image::FEW_EXPRESSIONS as u64 {
        return first_bad_with_table::<{ image::FEW_EXPRESSIONS }>(image);
    }
    first_bad_with_table::<{ image::MOST_EXPRESSIONS }>(image)
}

// ---- the check

// What is wrong first of all that an image holds whose contents add up.
fn first_bad_entry(image: &Image<'_>) -> Result<(), CheckRefusal>
    ensures { answer_flaw result ≡ entries_flaw image.now.words.now }
{
    let layout = image.layout;
    image_entries::first_bad_register(
        image.words,
        image.quantum_register_at(0),
        layout.quantum_registers,
    )?;
    image_entries::first_bad_register(
        image.words,
        image.classical_register_at(0),
        layout.classical_registers,
    )?;
    image_entries::first_bad_gate(image)?;
    first_bad_statement(image)
}

// An image that the check accepts.
#[derive(Clone, Copy)]
pub struct AcceptedImage<'a> {
    pub image: Image<'a>,
    pub ghost accepted: { check image.words.now ≡ fine },
}

// Checks the words of an image and hands it on, or says what is wrong with it and where.
pub fn accepted_image(words: &[u64]) -> Result<AcceptedImage<'_>, CheckRefusal>
    ensures { MatchResult result (λ a. a.image.words.now ≡ words.now) (λ r. refusal_flaw r ≡ check words.now) }
{
    let Some(image) = image::read(words) else {
        return Err(CheckRefusal::Contents);
    };
    first_bad_entry(&image)?;
    Ok(AcceptedImage { image })
}

// Accepts the words of an image, or says what is wrong with it and where.
pub fn check(words: &[u64]) -> Result<(), CheckRefusal>
    ensures { answer_flaw result ≡ check words.now }
{
    accepted_image(words)?;
    Ok(())
}
