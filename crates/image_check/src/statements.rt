// Checks the statements of a scope.
ghost use Rattle.std.specs.Prelude.{◌≡◌, [], ◌∷◌, ℕ, ◌≤◌};
ghost use Rattle.model.specs.Lists.{all};
ghost use Rattle.model.specs.Image.{U, CX, Gate, Barrier, Measure, Reset, variables, statement_at, scope_statements};
ghost use Rattle.model.specs.Check.{first_bad, expression_ok, downward, conditional_flaw, plain_flaw, flaw, in_conditional};
ghost use Rattle.model.specs.Limits.{most_levels, most_words};
ghost use Rattle.image.specs.Answer.{answer_flaw};
ghost use Rattle.image.specs.Layout.{GatesAccepted};
ghost use Rattle.image.specs.Entries.{as_statement};
ghost use Rattle.image_entries.specs.Judging.{JudgementTable};
ghost use Rattle.image_check.specs.Answer.{flaw_number};
ghost use Rattle.image_check.specs.Statements.{call_fits, no_if};

use crate::StatementFlaw;
use image::{CheckRefusal, Statement};
use image_entries::{JudgedImage, Judgement, Scope};

// Whether an if may hold a statement.
#[tactic(auto, unfolding(model::specs::Check::in_conditional))]
fn in_conditional(inner: Statement) -> bool
    ensures { result ≡ in_conditional (as_statement inner) }
{
    match inner {
        Statement::U { .. }
        | Statement::CX { .. }
        | Statement::Gate { .. }
        | Statement::Measure { .. }
        | Statement::Reset { .. } => true,
        Statement::Barrier { .. } | Statement::Conditional { .. } => false,
    }
}

// A scope of an image whose gate entries are well formed, with the judgement of each of the image's expressions.
#[derive(Clone, Copy)]
pub struct JudgedScope<'a> {
    pub scope: Scope<'a>,
    pub judgements: &'a [Option<Judgement>],
    pub ghost judged: { JudgementTable scope.image.words.now scope.image.layout.expressions judgements.now },
    pub ghost gated: { GatesAccepted scope.image.words.now },
}

// What is wrong with a statement of a kind. Those that tell a statement take its number and what its words name. That a number is no more than an
// image's words is one short clause; a type that held it would be made anew for each statement.
impl JudgedScope<'_> {
    // Whether a call of gate g is downward.
    fn calls_down(&self, g: u64) -> bool
        ensures { result ≡ downward self.now.scope.number g }
    {
        self.scope.number == 0 || g < self.scope.number - 1
    }

    // Whether the three angles of a U are well formed.
    #[tactic(auto, using(image::proofs::GatesAcceptedLaws::variables_few), unfolding(model::specs::Lists::all))]
    fn angles_ok(&self, theta: u64, phi: u64, lambda: u64) -> bool
        ensures { let image = self.now.scope.image.words.now in
            result ≡ all (expression_ok image (variables image self.now.scope.number) most_levels) (theta ∷ phi ∷ lambda ∷ []) }
    {
        let judged = JudgedImage {
            image: self.scope.image,
            judgements: self.judgements,
        };
        let v = self.scope.variables();
        judged.expression_ok(v, theta)
            && judged.expression_ok(v, phi)
            && judged.expression_ok(v, lambda)
    }

    // What is wrong with a U: form, expression or argument.
    #[tactic(auto, unfolding(model::specs::Check::plain_flaw, model::specs::Check::first_of, model::specs::Lists::every))]
    fn u_flaw(&self, theta: u64, phi: u64, lambda: u64, q: u64) -> Result<(), StatementFlaw>
        ensures { (s : ℕ) → flaw_number result ≡ plain_flaw self.now.scope.image.words.now no_if self.now.scope.number s (U theta phi lambda q) }
    {
        let layout = self.scope.image.layout;
        let n = layout.expressions;
        if n <= theta || n <= phi || n <= lambda || layout.arguments <= q {
            return Err(StatementFlaw::Form);
        }
        if !self.angles_ok(theta, phi, lambda) {
            return Err(StatementFlaw::Expression);
        }
        if !self.scope.argument_ok(q) {
            return Err(StatementFlaw::Argument);
        }
        Ok(())
    }

    // What is wrong with a CX: form, argument or sizes.
    #[tactic(auto, unfolding(model::specs::Check::plain_flaw, model::specs::Check::first_of, model::specs::Lists::every))]
    fn cx_flaw(&self, s: u64, a: u64, b: u64) -> Result<(), StatementFlaw>
        requires { s ≤ most_words }
        ensures { flaw_number result ≡ plain_flaw self.now.scope.image.words.now no_if self.now.scope.number s (CX a b) }
    {
        let image = &self.scope.image;
        let m = image.layout.arguments;
        if !image_entries::unused_after(image, s, 3) || m <= a || m <= b {
            return Err(StatementFlaw::Form);
        }
        if !self.scope.argument_ok(a) || !self.scope.argument_ok(b) {
            return Err(StatementFlaw::Argument);
        }
        let number = self.scope.number;
        let x = image.argument_size(number, a);
        if !image_entries::two_match(x, image.argument_size(number, b)) {
            return Err(StatementFlaw::Sizes);
        }
        Ok(())
    }

    // Whether a call of gate g has numbers and runs in range, and no unused word.
    #[tactic(auto, unfolding(model::specs::Lists::every))]
    fn call_fits(&self, s: u64, g: u64, p: u64, a: u64) -> bool
        requires { s ≤ most_words }
        ensures { result ≡ call_fits self.now.scope.image.words.now s g p a }
    {
        let image = &self.scope.image;
        if !image_entries::unused_after(image, s, 4) || image.layout.gates <= g {
            return false;
        }
        let at = image.gate_at(g);
        image_entries::fits(p, image.word(at), image.layout.parameters)
            && image_entries::fits(a, image.word(at + 1), image.layout.arguments)
    }

    // What is wrong with a call of gate g: form, upward, expression, argument or sizes.
    #[tactic(auto, unfolding(model::specs::Check::plain_flaw, model::specs::Check::first_of))]
    fn call_flaw(&self, s: u64, g: u64, p: u64, a: u64) -> Result<(), StatementFlaw>
        requires { s ≤ most_words }
        ensures { flaw_number result ≡ plain_flaw self.now.scope.image.words.now no_if self.now.scope.number s (Gate g p a) }
    {
        if !self.call_fits(s, g, p, a) {
            return Err(StatementFlaw::Form);
        }
        if !self.calls_down(g) {
            return Err(StatementFlaw::Upward);
        }
        let image = self.scope.image;
        let judgements = self.judgements;
        let judged = JudgedImage { image, judgements };
        let at = image.gate_at(g);
        if !judged.parameters_ok(self.scope.variables(), p, image.word(at)) {
            return Err(StatementFlaw::Expression);
        }
        let arguments = image.word(at + 1);
        if !self.scope.arguments_ok(a, arguments) {
            return Err(StatementFlaw::Argument);
        }
        if !image_entries::sizes_match(&image, self.scope.number, a, arguments) {
            return Err(StatementFlaw::Sizes);
        }
        Ok(())
    }

    // What is wrong with a barrier: form or argument.
    #[tactic(auto, unfolding(model::specs::Check::plain_flaw, model::specs::Check::first_of, model::specs::Lists::every))]
    fn barrier_flaw(&self, s: u64, a: u64, n: u64) -> Result<(), StatementFlaw>
        requires { s ≤ most_words }
        ensures { flaw_number result ≡ plain_flaw self.now.scope.image.words.now no_if self.now.scope.number s (Barrier a n) }
    {
        let image = &self.scope.image;
        if !image_entries::unused_after(image, s, 3)
            || !image_entries::fits(a, n, image.layout.arguments)
        {
            return Err(StatementFlaw::Form);
        }
        if !self.scope.arguments_ok(a, n) {
            return Err(StatementFlaw::Argument);
        }
        Ok(())
    }

    // What is wrong with a measurement: form, argument or sizes.
    #[tactic(auto, unfolding(model::specs::Check::plain_flaw, model::specs::Check::first_of, model::specs::Lists::every))]
    fn measure_flaw(&self, s: u64, q: u64, c: u64) -> Result<(), StatementFlaw>
        requires { s ≤ most_words }
        ensures { flaw_number result ≡ plain_flaw self.now.scope.image.words.now no_if self.now.scope.number s (Measure q c) }
    {
        let image = &self.scope.image;
        let m = image.layout.arguments;
        let unused = image_entries::unused_after(image, s, 3);
        if self.scope.number != 0 || !unused || m <= q || m <= c {
            return Err(StatementFlaw::Form);
        }
        if !self.scope.argument_ok(q) || !image_entries::classical_argument_ok(image, c) {
            return Err(StatementFlaw::Argument);
        }
        let x = image.argument_size(self.scope.number, q);
        if !image_entries::two_match(x, image.classical_argument_size(c)) {
            return Err(StatementFlaw::Sizes);
        }
        Ok(())
    }

    // What is wrong with a reset: form or argument.
    #[tactic(auto, unfolding(model::specs::Check::plain_flaw, model::specs::Check::first_of, model::specs::Lists::every))]
    fn reset_flaw(&self, s: u64, q: u64) -> Result<(), StatementFlaw>
        requires { s ≤ most_words }
        ensures { flaw_number result ≡ plain_flaw self.now.scope.image.words.now no_if self.now.scope.number s (Reset q) }
    {
        let image = &self.scope.image;
        let unused = image_entries::unused_after(image, s, 2);
        if self.scope.number != 0 || !unused || image.layout.arguments <= q {
            return Err(StatementFlaw::Form);
        }
        if !self.scope.argument_ok(q) {
            return Err(StatementFlaw::Argument);
        }
        Ok(())
    }

    // What is wrong with statement s, which an if may hold: an if itself is of no kind allowed there.
    #[tactic(auto, unfolding(model::specs::Check::plain_flaw))]
    fn plain_flaw(&self, s: u64, plain: Statement) -> Result<(), StatementFlaw>
        requires { s ≤ most_words }
        ensures { flaw_number result ≡ plain_flaw self.now.scope.image.words.now no_if self.now.scope.number s (as_statement plain) }
    {
        match plain {
            Statement::U {
                theta,
                phi,
                lambda,
                argument,
            } => self.u_flaw(theta, phi, lambda, argument),
            Statement::CX { control, target } => self.cx_flaw(s, control, target),
            Statement::Gate {
                gate,
                parameter,
                argument,
            } => self.call_flaw(s, gate, parameter, argument),
            Statement::Barrier { argument, count } => self.barrier_flaw(s, argument, count),
            Statement::Measure { from, to } => self.measure_flaw(s, from, to),
            Statement::Reset { argument } => self.reset_flaw(s, argument),
            Statement::Conditional { .. } => Err(StatementFlaw::Form),
        }
    }
}

impl JudgedScope<'_> {
    // What is wrong with an if over register r and statement t: form, or what is wrong with statement t.
    #[tactic(auto, unfolding(model::specs::Check::conditional_flaw, model::specs::Check::conditional_ok, model::specs::Lists::every))]
    fn conditional_flaw(&self, s: u64, r: u64, t: u64) -> Result<(), StatementFlaw>
        requires { s ≤ most_words }
        ensures { (v : ℕ) → flaw_number result ≡ conditional_flaw self.now.scope.image.words.now self.now.scope.number s r v t }
    {
        let image = &self.scope.image;
        if self.scope.number != 0 || !image_entries::unused_after(image, s, 4) {
            return Err(StatementFlaw::Form);
        }
        let layout = image.layout;
        if layout.classical_registers <= r || t < layout.main_statements || layout.statements <= t {
            return Err(StatementFlaw::Form);
        }
        let Some(inner) = image.statement(t) else {
            return Err(StatementFlaw::Form);
        };
        if !in_conditional(inner) {
            return Err(StatementFlaw::Form);
        }
        self.plain_flaw(t, inner)
    }

    // What is wrong with statement s.
    fn statement_flaw(&self, s: u64) -> Result<(), StatementFlaw>
        requires { s ≤ most_words }
        ensures { flaw_number result ≡ flaw self.now.scope.image.words.now self.now.scope.number s }
    {
        let Some(statement) = self.scope.image.statement(s) else {
            return Err(StatementFlaw::Form);
        };
        match statement {
            Statement::Conditional {
                register,
                statement: inner,
                ..
            } => self.conditional_flaw(s, register, inner),
            plain => self.plain_flaw(s, plain),
        }
    }

    // The first bad statement.
    pub fn first_bad_statement(&self) -> Result<(), CheckRefusal>
        ensures { let image = self.now.scope.image.words.now in
            answer_flaw result ≡ first_bad (λ s. flaw image self.now.scope.number s) (statement_at image) (scope_statements image self.now.scope.number) }
    {
        let span = self.scope.image.statements_of(self.scope.number);
        for s in span {
            if let Err(flaw) = self.statement_flaw(s) {
                return Err(flaw.at(self.scope.image.statement_at(s)));
            }
        }
        Ok(())
    }
}
