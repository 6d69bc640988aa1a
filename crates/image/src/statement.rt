// What the words of a statement say.
ghost use Rattle.std.specs.Prelude.{◌≡◌, ◌≤◌};
ghost use Rattle.model.specs.Image.{statement, statement_of};
ghost use Rattle.image.specs.Layout.{Small};
ghost use Rattle.image.specs.Entries.{statement_read};

use crate::Image;

// A statement of a known kind. What it names are numbers of entries; a barrier has a count of arguments, and a conditional the value that it tests.
#[derive(Clone, Copy)]
pub enum Statement {
    U {
        theta: u64,
        phi: u64,
        lambda: u64,
        argument: u64,
    },
    CX {
        control: u64,
        target: u64,
    },
    Gate {
        gate: u64,
        parameter: u64,
        argument: u64,
    },
    Barrier {
        argument: u64,
        count: u64,
    },
    Measure {
        from: u64,
        to: u64,
    },
    Reset {
        argument: u64,
    },
    Conditional {
        register: u64,
        value: u64,
        statement: u64,
    },
}

impl Statement {
    // The statement of a kind and the four words behind it, if the kind is known.
    #[tactic(auto, unfolding(model::specs::Image::statement_of))]
    fn of_words(kind: u64, a: u64, b: u64, c: u64, d: u64) -> Option<Statement>
        ensures { statement_read result ≡ statement_of kind a b c d }
    {
        match kind {
            1 => Some(Statement::U {
                theta: a,
                phi: b,
                lambda: c,
                argument: d,
            }),
            2 => Some(Statement::CX {
                control: a,
                target: b,
            }),
            3 => Some(Statement::Gate {
                gate: a,
                parameter: b,
                argument: c,
            }),
            4 => Some(Statement::Barrier {
                argument: a,
                count: b,
            }),
            5 => Some(Statement::Measure { from: a, to: b }),
            6 => Some(Statement::Reset { argument: a }),
            7 => Some(Statement::Conditional {
                register: a,
                value: b,
                statement: c,
            }),
            _ => None,
        }
    }
}

impl Image<'_> {
    // The statement of a number, if it is of a known kind.
    #[tactic(auto, unfolding(model::specs::Image::statement))]
    pub fn statement(&self, s: u64) -> Option<Statement>
        requires { Small s }
        ensures { statement_read result ≡ statement self.now.words.now s }
    {
        let at = self.statement_at(s);
        Statement::of_words(
            self.word(at),
            self.word(at + 1),
            self.word(at + 2),
            self.word(at + 3),
            self.word(at + 4),
        )
    }
}
