// What the statements of a scope come to, where the bodies that they may call are opened some levels deep.
ghost use Rattle.std.specs.Prelude.{◌≡◌, ◌≢◌, ◌+◌, ◌*◌, ◌^◌, ◌≤◌, ◌<◌, map, length};
ghost use Rattle.model.specs.Lists.{range, sum};
ghost use Rattle.model.specs.Image.{Unknown, statement, argument_size, rounds, gate_arguments};
ghost use Rattle.model.specs.Accepted.{PlainFacts, Facts};
ghost use Rattle.model.specs.Limits.{most_words};
ghost use Rattle.image.specs.Entries.{as_statement};
ghost use Rattle.tally.specs.Weights.{weight_of, capped, capped_figures, gate_figure, plain_figure, conditional_figure, statement_figure, body_figure, ScopeOpened};

use crate::Figures;
use crate::figures::capped_sum;
use image::{Image, Statement};

// What a record of each kind adds, if its words are not counted by its qubits. An if has two records: its start of four words, and its end of one.
const U_RECORD: Figures = Figures {
    u: 1,
    words: record_kind::U_WORDS as u64,
    ..Figures::NONE
};

const CX_RECORD: Figures = Figures {
    cx: 1,
    words: record_kind::CX_WORDS as u64,
    ..Figures::NONE
};

const MEASURE_RECORD: Figures = Figures {
    measure: 1,
    words: record_kind::MEASURE_WORDS as u64,
    ..Figures::NONE
};

const RESET_RECORD: Figures = Figures {
    reset: 1,
    words: record_kind::RESET_WORDS as u64,
    ..Figures::NONE
};

const CONDITIONAL_RECORDS: Figures = Figures {
    conditional: 1,
    words: (record_kind::CONDITIONAL_START_WORDS + record_kind::CONDITIONAL_END_WORDS) as u64,
    ..Figures::NONE
};

// What the entry of a body adds.
const ENTRY: Figures = Figures {
    entries: 1,
    ..Figures::NONE
};

// The words of a barrier and of an opaque gate's call are these and one for each qubit, those of an opaque gate's call also four for each angle.
const BARRIER_WORDS: u64 = record_kind::BARRIER_START_WORDS as u64;

const OPAQUE_WORDS: u64 = record_kind::OPAQUE_START_WORDS as u64;

const ANGLE_WORDS: u64 = record_kind::ANGLE_WORDS as u64;

// What an opaque gate's record of some words adds.
fn opaque_record(words: u64) -> Figures
    requires { words ≤ 2 ^ 32 }
    ensures { result ≡ capped_figures (λ j. weight_of j 3 words) }
{
    Figures {
        opaque: 1,
        words,
        ..Figures::NONE
    }
}

// A scope of an accepted image, and the figures of the bodies that it may call, in which bodies are opened some levels deep.
#[derive(Clone, Copy)]
pub(crate) struct OpenedScope<'a> {
    pub image: &'a Image<'a>,
    pub scope: u64,
    pub levels: u64,
    pub bodies: &'a [Figures],
    pub ghost opened: { ScopeOpened image.now.words.now scope levels bodies.now },
}

// ---- statements

impl OpenedScope<'_> {
    // The size of an argument.
    fn argument_size(&self, a: u64) -> u64
        requires { a ≤ most_words }
        ensures { result ≡ argument_size self.now.image.now.words.now self.now.scope a }
    {
        self.image.argument_size(self.scope, a)
    }

    // The words of a barrier: its argument sizes are added up, of which each is 1 in a body.
    fn barrier_words(&self, a: u64, n: u64) -> u64
        requires { a + n ≤ most_words }
        ensures { result ≡ capped (2 + sum (map (argument_size self.now.image.now.words.now self.now.scope) (range a n))) }
    {
        if self.scope != 0 {
            return capped_sum(BARRIER_WORDS, n);
        }
        let mut total = BARRIER_WORDS;
        for i in 0..n {
            total = capped_sum(total, self.argument_size(a + i));
        }
        total
    }

    // What a call of gate g adds in some rounds.
    fn gate_figures(&self, g: u64, rounds: u64) -> Figures
        requires { g < length self.now.bodies.now }
        ensures { result ≡ capped_figures (λ j. rounds * gate_figure self.now.image.now.words.now self.now.levels g j) }
    {
        let at = self.image.gate_at(g);
        let parameters = self.image.word(at);
        let arguments = self.image.word(at + 1);
        if self.image.word(at + 2) == 0 {
            let words = OPAQUE_WORDS + ANGLE_WORDS * parameters + arguments;
            return opaque_record(words).times(rounds);
        }
        if self.levels == 0 {
            return opaque_record(OPAQUE_WORDS + arguments).times(rounds);
        }
        ENTRY.plus(self.bodies[g as usize]).times(rounds)
    }

    // What a call of gate g with arguments from a on adds.
    fn call_figures(&self, g: u64, a: u64) -> Figures
        requires { (g < length self.now.bodies.now) × (a + gate_arguments self.now.image.now.words.now g ≤ most_words) }
        ensures { let w = self.now.image.now.words.now in
            result ≡ capped_figures (λ j. rounds w self.now.scope (range a (gate_arguments w g)) * gate_figure w self.now.levels g j) }
    {
        let arguments = self.image.word(self.image.gate_at(g) + 1);
        let rounds = self.image.rounds_of(self.scope, a, arguments);
        self.gate_figures(g, rounds)
    }

    // What a statement that is no if adds.
    fn plain_figures(&self, statement: Statement) -> Figures
        requires { PlainFacts self.now.image.now.words.now self.now.scope (as_statement statement) }
        ensures { result ≡ capped_figures (plain_figure self.now.image.now.words.now self.now.levels self.now.scope (as_statement statement)) }
    {
        match statement {
            Statement::U { argument, .. } => U_RECORD.times(self.argument_size(argument)),
            Statement::CX { control, target } => {
                CX_RECORD.times(self.argument_size(control).max(self.argument_size(target)))
            }
            Statement::Gate { gate, argument, .. } => self.call_figures(gate, argument),
            Statement::Barrier { argument, count } => Figures {
                barrier: 1,
                words: self.barrier_words(argument, count),
                ..Figures::NONE
            },
            Statement::Measure { from, to } => {
                MEASURE_RECORD.times(
                    self.argument_size(from)
                        .max(self.image.classical_argument_size(to)),
                )
            }
            Statement::Reset { argument } => RESET_RECORD.times(self.argument_size(argument)),
            Statement::Conditional { .. } => unreachable!(),
        }
    }

    // Statement s, which is of a known kind.
    fn statement(&self, s: u64) -> Statement
        requires { (s ≤ most_words) × (statement self.now.image.now.words.now s ≢ Unknown) }
        ensures { as_statement result ≡ statement self.now.image.now.words.now s }
    {
        self.image.statement(s).unwrap()
    }

    // What an if around statement t adds: its start, t, and its end.
    fn conditional_figures(&self, t: u64) -> Figures
        requires { PlainFacts self.now.image.now.words.now self.now.scope (statement self.now.image.now.words.now t) × (t ≤ most_words) }
        ensures { result ≡ capped_figures (conditional_figure self.now.image.now.words.now self.now.levels self.now.scope t) }
    {
        CONDITIONAL_RECORDS.plus(self.plain_figures(self.statement(t)))
    }

    // What statement s adds.
    fn statement_figures(&self, s: u64) -> Figures
        requires { Facts self.now.image.now.words.now self.now.scope (statement self.now.image.now.words.now s) × (s ≤ most_words) }
        ensures { result ≡ capped_figures (statement_figure self.now.image.now.words.now self.now.levels self.now.scope s) }
    {
        match self.statement(s) {
            Statement::Conditional { statement, .. } => self.conditional_figures(statement),
            plain => self.plain_figures(plain),
        }
    }

    // What the statements of the scope come to.
    pub(crate) fn body_figures(&self) -> Figures
        ensures { result ≡ capped_figures (body_figure self.now.image.now.words.now self.now.levels self.now.scope) }
    {
        let span = self.image.statements_of(self.scope);
        let mut total = Figures::NONE;
        for s in span {
            total = total.plus(self.statement_figures(s));
        }
        total
    }
}
