// Judges the expressions of an image: each one once, after its operands.
ghost use Rattle.std.specs.Prelude.{◌≡◌, List, cond, ◌&&◌, ltb, length, get_or, ℕ, ◌<◌, ◌≤◌, ◌+◌, suc, Some, None};
ghost use Rattle.model.specs.Lists.{range, all};
ghost use Rattle.model.specs.Image.{parameter};
ghost use Rattle.model.specs.Check.{expression_ok};
ghost use Rattle.model.specs.Limits.{most_levels, most_parameters, most_words};
ghost use Rattle.image.specs.Entries.{as_expr};
ghost use Rattle.image.specs.Layout.{LayoutOf};
ghost use Rattle.image_entries.specs.Judging.{accepts, words_ok, JudgementTable, JudgementIs};

use crate::Judgement;
use image::{Expr, Image, Layout};

// The bits of a real are below this number.
const REAL_LIMIT: u64 = 0x1_0000_0000;

impl Judgement {
    // The judgement of a leaf that needs some variables.
    fn leaf(variables: u8) -> Self
        ensures { (result.level ≡ 1) × (result.variables ≡ variables) }
    {
        Judgement {
            level: 1,
            variables,
        }
    }

    // The judgement of an operation over two operands, unless it has too many levels.
    fn over(self, other: Self) -> Option<Self>
        ensures { JudgementIs result (λ v k. accepts (Some self) v k && accepts (Some other) v k) }
    {
        let level = self.level.max(other.level) + 1;
        if image::MOST_LEVELS < u64::from(level) {
            return None;
        }
        Some(Judgement {
            level,
            variables: self.variables.max(other.variables),
        })
    }
}

// The judgement of operand a of expression e, from the table: it is not well formed unless it has a smaller number.
fn operand(judgements: &[Option<Judgement>], e: u64, a: u64) -> Option<Judgement>
    requires { e ≤ length judgements.now }
    ensures { result ≡ cond (ltb a e) (get_or judgements.now a None) None }
{
    if a < e { judgements[a as usize] } else { None }
}

// Judges an entry without operands, whose last two words are a and b. Each arm tests b for itself: by a test before them all the kinds would be told apart twice.
fn judge_leaf(leaf: Expr, a: u64, b: u64) -> Option<Judgement>
    ensures { JudgementIs result (λ v k. words_ok a b v (as_expr leaf)) }
{
    match leaf {
        Expr::Pi => (a == 0 && b == 0).then_some(Judgement::leaf(0)),
        Expr::Real(bits) => (bits < REAL_LIMIT && b == 0).then_some(Judgement::leaf(0)),
        Expr::Int(_) => (b == 0).then_some(Judgement::leaf(0)),
        Expr::Var(i) => {
            if i < image::MOST_PARAMETERS && b == 0 {
                Some(Judgement::leaf((i + 1) as u8))
            } else {
                None
            }
        }
        Expr::Binary(..) | Expr::Unary(..) => None,
    }
}

// Judges expression e from the table's entries of smaller numbers. Its words are read once, and by index: they stand in the image, so no test for its end is needed.
#[tactic(auto, using(crate::proofs::JudgementLaws::words_inside))]
fn judge_expression(
    image: &Image<'_>,
    judgements: &[Option<Judgement>],
    e: u64,
) -> Option<Judgement>
    requires { JudgementTable image.now.words.now e judgements.now × (e < image.now.layout.expressions) }
    ensures { JudgementIs result (λ v k. expression_ok image.now.words.now v (suc k) e) }
{
    let at = image.expression_at(e) as usize;
    let a = image.words[at + 1];
    let b = image.words[at + 2];
    match Expr::of_words(image.words[at], a, b)? {
        Expr::Binary(_, x, y) => operand(judgements, e, x)?.over(operand(judgements, e, y)?),
        Expr::Unary(_, x) => {
            let inner = operand(judgements, e, x)?;
            if b == 0 { inner.over(inner) } else { None }
        }
        leaf => judge_leaf(leaf, a, b),
    }
}

// Judges each expression once, in ascending order: an operand has a smaller number than its user.
pub fn judge_expressions(image: &Image<'_>, judgements: &mut [Option<Judgement>])
    requires { image.now.layout.expressions ≤ length judgements.old }
    ensures { JudgementTable image.now.words.now image.now.layout.expressions judgements.new }
{
    // Where the expressions begin is worked out once, since no write to the table can change a copy.
    let image = *image;
    for e in 0..image.layout.expressions {
        judgements[e as usize] = judge_expression(&image, judgements, e);
    }
}

// Whether expression e is well formed with v variables, by a table with an entry for each expression of a layout: in each image with this layout whose judgements they are.
pub fn expression_ok(layout: Layout, judgements: &[Option<Judgement>], v: u64, e: u64) -> bool
    requires { (layout.expressions ≤ length judgements.now) × (v ≤ most_parameters) }
    ensures { (image : List ℕ) → LayoutOf image layout → JudgementTable image layout.expressions judgements.now
        → result ≡ expression_ok image v most_levels e }
{
    e < layout.expressions && judgements[e as usize].is_some_and(|j| u64::from(j.variables) <= v)
}

// An image with the judgement of each of its expressions.
#[derive(Clone, Copy)]
pub struct JudgedImage<'a> {
    pub image: Image<'a>,
    pub judgements: &'a [Option<Judgement>],
    pub ghost judged: { JudgementTable image.words.now image.layout.expressions judgements.now },
}

impl JudgedImage<'_> {
    // Whether expression e is well formed with v variables.
    pub fn expression_ok(&self, v: u64, e: u64) -> bool
        requires { v ≤ most_parameters }
        ensures { result ≡ expression_ok self.now.image.words.now v most_levels e }
    {
        expression_ok(self.image.layout, self.judgements, v, e)
    }

    // Whether the expressions of n parameters from p on are well formed with v variables.
    #[tactic(auto, using(model::proofs::Ranges::all_start, model::proofs::Ranges::all_next))]
    pub fn parameters_ok(&self, v: u64, p: u64, n: u64) -> bool
        requires { (v ≤ most_parameters) × (p + n ≤ most_words) }
        ensures { result ≡ all (λ i. expression_ok self.now.image.words.now v most_levels (parameter self.now.image.words.now i)) (range p n) }
    {
        for i in 0..n {
            if !self.expression_ok(v, self.image.word(self.image.parameter_at(p + i))) {
                return false;
            }
        }
        true
    }
}
