// Judges the entries of a program image: registers, gates, expressions and arguments.
#![tactic(auto)]

ghost use Rattle.std.specs.Prelude.{◌≡◌, [], ◌∷◌, map, leb, eqb, ◌+◌, ◌-◌, ◌<◌, ◌≤◌};
ghost use Rattle.model.specs.Lists.{range, all};
ghost use Rattle.model.specs.Image.{word, variables, argument_size};
ghost use Rattle.model.specs.Check.{first_bad, register_flaw, gate_ok, argument_ok, classical_argument_ok, unused, matching, gate_entries};
ghost use Rattle.model.specs.Limits.{most_words, statement_words};
ghost use Rattle.image.specs.Answer.{answer_flaw};
ghost use Rattle.image.specs.Layout.{SmallPlace};
ghost use Rattle.image_entries.specs.Gates.{body_words_ok};

mod expressions;
mod judgement;
mod scope;

pub use expressions::{JudgedImage, expression_ok, judge_expressions};
use image::{CheckRefusal, Image};
pub use judgement::Judgement;
pub use scope::Scope;

// Whether n entries from a on lie in a list of m. They are any two words of an entry, first number and count, whose sum may be too large for a range.
pub fn fits(a: u64, n: u64, m: u64) -> bool
    ensures { result ≡ leb (a + n) m }
{
    n <= m && a <= m - n
}

// ---- registers and gates

// The first bad register of a list: one of size 0, or one that passes the limit in all. It takes all words with a place, and not a part of them: a word
// past the end is 0, and a part would ask that it is there.
pub fn first_bad_register(words: &[u64], at: u64, n: u64) -> Result<(), CheckRefusal>
    requires { SmallPlace at × (n ≤ most_words) }
    ensures { answer_flaw result ≡ first_bad (register_flaw (λ i. word words.now (at + i))) (λ i. at + i) (range 0 n) }
{
    let mut total = 0;
    for i in 0..n {
        let size = image::word(words, at + i);
        if size == 0 || image::MOST_ELEMENTS - total < size {
            return Err(CheckRefusal::Register(at + i));
        }
        total += size;
    }
    Ok(())
}

// Whether a body is as a gate entry's last three words say, where the further statements are those from `main` to below `statements`.
#[tactic(auto, unfolding(model::specs::Lists::every))]
fn body_words_ok(body: u64, start: u64, length: u64, main: u64, statements: u64) -> bool
    ensures { result ≡ body_words_ok body start length main statements }
{
    let placed = if body == 0 {
        start == 0 && length == 0
    } else {
        length == 0 || main <= start
    };
    body <= 1 && fits(start, length, statements) && placed
}

// Whether gate entry g is well formed.
#[tactic(auto, unfolding(model::specs::Lists::every, model::specs::Check::gate_ok))]
fn gate_ok(image: &Image<'_>, g: u64) -> bool
    requires { g < image.now.layout.gates }
    ensures { result ≡ gate_ok image.now.words.now g }
{
    let at = image.gate_at(g);
    image.word(at) <= image::MOST_PARAMETERS
        && image.word(at + 1) <= image::MOST_ARGUMENTS
        && body_words_ok(
            image.word(at + 2),
            image.word(at + 3),
            image.word(at + 4),
            image.layout.main_statements,
            image.layout.statements,
        )
}

// The first bad gate entry.
pub fn first_bad_gate(image: &Image<'_>) -> Result<(), CheckRefusal>
    ensures { answer_flaw result ≡ gate_entries image.now.words.now }
{
    for g in 0..image.layout.gates {
        if !gate_ok(image, g) {
            return Err(CheckRefusal::GateEntry(image.gate_at(g)));
        }
    }
    Ok(())
}

// ---- arguments and sizes

// Whether argument a is a well formed classical one, which main alone has.
#[tactic(auto, unfolding(model::specs::Lists::every, model::specs::Check::classical_argument_ok))]
pub fn classical_argument_ok(image: &Image<'_>, a: u64) -> bool
    requires { a ≤ most_words }
    ensures { result ≡ classical_argument_ok image.now.words.now a }
{
    let at = image.argument_at(a);
    let register = image.word(at);
    register < image.layout.classical_registers
        && image.word(at + 1) <= image.word(image.classical_register_at(register))
}

// Whether the sizes of n arguments from a on, other than 1, are equal in a scope. The scope may be any number: sizes differ only between main and the bodies.
pub fn sizes_match(image: &Image<'_>, scope: u64, a: u64, n: u64) -> bool
    requires { a + n ≤ most_words }
    ensures { result ≡ matching (map (argument_size image.now.words.now scope) (range a n)) }
{
    let most = image.rounds_of(scope, a, n);
    for i in 0..n {
        let size = image.argument_size(scope, a + i);
        if size != 1 && size != most {
            return false;
        }
    }
    true
}

// Whether two sizes are equal, or one is 1; sizes of 0 are no sizes.
#[tactic(auto, unfolding(model::specs::Lists::all, model::specs::Lists::largest, model::specs::Check::matching))]
pub fn two_match(x: u64, y: u64) -> bool
    ensures { result ≡ matching (x ∷ y ∷ []) }
{
    let most = x.max(y);
    (x == 1 || x == most) && (y == 1 || y == most)
}

// ---- unused words

// Whether the words of statement s after its first n are 0.
pub fn unused_after(image: &Image<'_>, s: u64, n: u64) -> bool
    requires { (s ≤ most_words) × (n ≤ statement_words) }
    ensures { result ≡ unused image.now.words.now s n }
{
    let at = image.statement_at(s);
    for i in n..image::STATEMENT_WORDS {
        if image.word(at + i) != 0 {
            return false;
        }
    }
    true
}
