// The program image: the widths and limits of its format, its counts, where its entries stand, sizes, the statements of a scope, and what the check answers.
#![tactic(auto)]

ghost use Rattle.std.specs.Prelude.{◌≡◌, map, length, ◌+◌, ◌*◌, ◌≤◌, min, cond, eqb};
ghost use Rattle.model.specs.Lists.{range, sum};
ghost use Rattle.model.specs.Image.{word, quantum_register_at, classical_register_at, gate_at, statement_at, argument_at, argument_register, argument_index, parameter_at, expression_at, argument_size, classical_argument_size, rounds};
ghost use Rattle.model.specs.Limits.{most_elements, most_words};
ghost use Rattle.image.specs.Answer.{refusal_flaw, number_in, place_in};
ghost use Rattle.image.specs.Layout.{CappedCounts, FewEntries, contents_with, LayoutOf, Small, SmallPlace, WithinLimits, PlaceIn, PlaceIs, GatesAccepted};
ghost use Rattle.image.specs.RegisterStarts.{RegisterStarts, RegisterTable, RegistersFit};

mod expression;
mod reading;
mod refusal_number;
mod statement;

pub use expression::{Binop, Expr, Unop};
pub use reading::read;
pub use refusal_number::RefusalNumber;
pub use statement::Statement;

// ---- the format

// The words of the contents: the length and eight counts.
pub const CONTENTS_WORDS: u64 = 9;

// The words of an entry of each list.
pub const REGISTER_WORDS: u64 = 1;

pub const GATE_WORDS: u64 = 5;

pub const STATEMENT_WORDS: u64 = 5;

pub const ARGUMENT_WORDS: u64 = 2;

pub const PARAMETER_WORDS: u64 = 1;

pub const EXPRESSION_WORDS: u64 = 3;

// The most words of an image.
pub const MOST_WORDS: u64 = 8192;

// The most gates of an image.
pub const MOST_GATES: u64 = 128;

// The most parameters, and the most arguments, of a gate.
pub const MOST_PARAMETERS: u64 = 16;

pub const MOST_ARGUMENTS: u64 = 16;

// The entries of a frame: an angle for each parameter that a gate may have, and a qubit for each argument. They are arrays of sixteen with a count beside
// them, and no slice: document 01 names frames by value with one entry for each formal, and a call says how many of them it has.
pub const FRAME_ANGLES: usize = MOST_PARAMETERS as usize;

pub const FRAME_QUBITS: usize = MOST_ARGUMENTS as usize;

// The most levels of an expression.
pub const MOST_LEVELS: u64 = 32;

// The most qubits of all quantum registers, and the most bits of all classical ones.
pub const MOST_ELEMENTS: u64 = 4096;

// No image has room for more expressions.
pub const MOST_EXPRESSIONS: usize = ((MOST_WORDS - CONTENTS_WORDS) / EXPRESSION_WORDS) as usize;

// The most expressions of a program that has few. Tables of theirs have this length: a small program should not pay for clearing the long ones.
pub const FEW_EXPRESSIONS: usize = 128;

// ---- the counts

// The counts of an image; its statements are main's and the further ones.
#[derive(Clone, Copy)]
pub struct Layout {
    pub quantum_registers: u64,
    pub classical_registers: u64,
    pub gates: u64,
    pub main_statements: u64,
    pub statements: u64,
    pub arguments: u64,
    pub parameters: u64,
    pub expressions: u64,
}

impl Layout {
    // How many words an image with these counts has.
    fn words(self) -> u64
        requires { FewEntries self }
        ensures { result ≡ expression_at (contents_with self) self.expressions }
    {
        CONTENTS_WORDS
            + REGISTER_WORDS * self.quantum_registers
            + REGISTER_WORDS * self.classical_registers
            + GATE_WORDS * self.gates
            + STATEMENT_WORDS * self.statements
            + ARGUMENT_WORDS * self.arguments
            + PARAMETER_WORDS * self.parameters
            + EXPRESSION_WORDS * self.expressions
    }
}

// Where entries stand, by the counts alone. Each list follows the one before it. `WithinLimits` is no ghost field of a layout, since counts that are just read may be too large,
// and `Small` none of a number, since the words of an entry are numbers.
impl Layout {
    pub fn quantum_register_at(self, r: u64) -> u64
        requires { WithinLimits self × Small r }
        ensures { PlaceIn self quantum_register_at r result }
    {
        CONTENTS_WORDS + REGISTER_WORDS * r
    }

    pub fn classical_register_at(self, r: u64) -> u64
        requires { WithinLimits self × Small r }
        ensures { PlaceIn self classical_register_at r result }
    {
        self.quantum_register_at(self.quantum_registers) + REGISTER_WORDS * r
    }

    pub fn gate_at(self, g: u64) -> u64
        requires { WithinLimits self × Small g }
        ensures { PlaceIn self gate_at g result }
    {
        self.classical_register_at(self.classical_registers) + GATE_WORDS * g
    }

    pub fn statement_at(self, s: u64) -> u64
        requires { WithinLimits self × Small s }
        ensures { PlaceIn self statement_at s result }
    {
        self.gate_at(self.gates) + STATEMENT_WORDS * s
    }

    pub fn argument_at(self, a: u64) -> u64
        requires { WithinLimits self × Small a }
        ensures { PlaceIn self argument_at a result }
    {
        self.statement_at(self.statements) + ARGUMENT_WORDS * a
    }

    pub fn parameter_at(self, p: u64) -> u64
        requires { WithinLimits self × Small p }
        ensures { PlaceIn self parameter_at p result }
    {
        self.argument_at(self.arguments) + PARAMETER_WORDS * p
    }

    pub fn expression_at(self, e: u64) -> u64
        requires { WithinLimits self × Small e }
        ensures { PlaceIn self expression_at e result }
    {
        self.parameter_at(self.parameters) + EXPRESSION_WORDS * e
    }
}

// A count of the contents, capped where it passes any image's length.
fn capped_count(words: &[u64], place: u64) -> u64
    ensures { result ≡ min (word words.now place) 8193 }
{
    word(words, place).min(MOST_WORDS + 1)
}

// The counts as they stand in the contents, each capped.
fn capped_counts(words: &[u64]) -> Layout
    ensures { CappedCounts words.now result }
{
    let main = capped_count(words, 4);
    Layout {
        quantum_registers: capped_count(words, 1),
        classical_registers: capped_count(words, 2),
        gates: capped_count(words, 3),
        main_statements: main,
        statements: main + capped_count(words, 5),
        arguments: capped_count(words, 6),
        parameters: capped_count(words, 7),
        expressions: capped_count(words, 8),
    }
}

// ---- the image

// An image whose contents add up: its words, and the counts that they begin with.
#[derive(Clone, Copy)]
pub struct Image<'a> {
    pub words: &'a [u64],
    pub layout: Layout,
    pub ghost laid: { LayoutOf words.now layout },
}

// Where entries stand in the image, by their numbers.
impl Image<'_> {
    pub fn quantum_register_at(&self, r: u64) -> u64
        requires { Small r }
        ensures { PlaceIs (quantum_register_at self.now.words.now r) result }
    {
        self.layout.quantum_register_at(r)
    }

    pub fn classical_register_at(&self, r: u64) -> u64
        requires { Small r }
        ensures { PlaceIs (classical_register_at self.now.words.now r) result }
    {
        self.layout.classical_register_at(r)
    }

    pub fn gate_at(&self, g: u64) -> u64
        requires { Small g }
        ensures { PlaceIs (gate_at self.now.words.now g) result }
    {
        self.layout.gate_at(g)
    }

    pub fn statement_at(&self, s: u64) -> u64
        requires { Small s }
        ensures { PlaceIs (statement_at self.now.words.now s) result }
    {
        self.layout.statement_at(s)
    }

    pub fn argument_at(&self, a: u64) -> u64
        requires { Small a }
        ensures { PlaceIs (argument_at self.now.words.now a) result }
    {
        self.layout.argument_at(a)
    }

    pub fn parameter_at(&self, p: u64) -> u64
        requires { Small p }
        ensures { PlaceIs (parameter_at self.now.words.now p) result }
    {
        self.layout.parameter_at(p)
    }

    pub fn expression_at(&self, e: u64) -> u64
        requires { Small e }
        ensures { PlaceIs (expression_at self.now.words.now e) result }
    {
        self.layout.expression_at(e)
    }
}

// ---- words and registers

// The word at a place of some words, 0 past their end. It asks for no image: reading the contents, from which an image is made, calls it too.
pub fn word(words: &[u64], place: u64) -> u64
    ensures { result ≡ word words.now place }
{
    let i = place as usize;
    if i < words.len() { words[i] } else { 0 }
}

// The word i behind a place, for any i.
pub fn word_after(words: &[u64], place: u64, i: u64) -> u64
    ensures { result ≡ word words.now (place + i) }
{
    match place.checked_add(i) {
        Some(at) => word(words, at),
        None => 0,
    }
}

// The sizes of n registers added up, which stand from a place on. This and `first_of_each` take all words with a place, and not a part of them: a word past
// the end is 0, and a part would ask that it is there.
pub fn size_in_all(words: &[u64], at: u64, n: u64) -> u64
    requires { SmallPlace at × (n ≤ most_words) × (sum (map (λ i. word words.now (at + i)) (range 0 n)) ≤ most_elements) }
    ensures { result ≡ sum (map (λ i. word words.now (at + i)) (range 0 n)) }
{
    let mut total = 0;
    for r in 0..n {
        total += word(words, at + r);
    }
    total
}

// Where each of n registers starts whose sizes stand from a place on: the first qubit, or bit, of each in one pass.
pub fn first_of_each(words: &[u64], at: u64, n: u64, firsts: &mut [u64])
    requires { (at ≤ 2 * most_words)
        × (n ≤ length firsts.old)
        × (sum (map (λ i. word words.now (at + i)) (range 0 n)) ≤ most_elements) }
    ensures { RegisterStarts (λ i. word words.now (at + i)) n firsts.new }
{
    let mut total = 0;
    for r in 0..n {
        firsts[r as usize] = total;
        total += word(words, at + r);
    }
}

impl Image<'_> {
    // The word at a place, 0 past the end.
    pub fn word(&self, place: u64) -> u64
        ensures { result ≡ word self.now.words.now place }
    {
        word(self.words, place)
    }

    // Where each register starts, in one table: the first qubit of each quantum register, then the first bit of each classical one.
    pub fn put_register_starts(&self, starts: &mut [u64])
        requires { RegistersFit self.now.words.now starts.old }
        ensures { RegisterTable self.now.words.now starts.new }
    {
        let quantum = self.layout.quantum_registers;
        first_of_each(self.words, self.quantum_register_at(0), quantum, starts);
        first_of_each(
            self.words,
            self.classical_register_at(0),
            self.layout.classical_registers,
            &mut starts[quantum as usize..],
        );
    }
}

// ---- arguments and statements

impl Image<'_> {
    // The size of an argument in main: 1 for an index, else that of its register, of those whose sizes stand from a place on.
    fn size_in_main(&self, a: u64, registers: u64) -> u64
        requires { a ≤ most_words }
        ensures { result ≡ cond (eqb (argument_index self.now.words.now a) 0) (word self.now.words.now (registers + argument_register self.now.words.now a)) 1 }
    {
        let at = self.argument_at(a);
        if self.word(at + 1) != 0 {
            return 1;
        }
        word_after(self.words, registers, self.word(at))
    }

    // The size of an argument: 1 for an index, and for a formal argument in a body; else its register's.
    pub fn argument_size(&self, scope: u64, a: u64) -> u64
        requires { a ≤ most_words }
        ensures { result ≡ argument_size self.now.words.now scope a }
    {
        if scope != 0 {
            return 1;
        }
        self.size_in_main(a, self.quantum_register_at(0))
    }

    // The size of a classical argument, which main alone has.
    pub fn classical_argument_size(&self, a: u64) -> u64
        requires { a ≤ most_words }
        ensures { result ≡ classical_argument_size self.now.words.now a }
    {
        self.size_in_main(a, self.classical_register_at(0))
    }

    // The largest size of some arguments, 0 of none: the rounds of a statement. The first number and the count stand side by side, and in no range, as the
    // two words of an entry have them.
    pub fn rounds_of(&self, scope: u64, a: u64, n: u64) -> u64
        requires { a + n ≤ most_words }
        ensures { result ≡ rounds self.now.words.now scope (range a n) }
    {
        let mut most = 0;
        for i in 0..n {
            most = self.argument_size(scope, a + i).max(most);
        }
        most
    }
}

// ---- answers

// Why the check refuses an image, with the place of what is wrong.
#[derive(Clone, Copy)]
pub enum CheckRefusal {
    Contents,
    Register(u64),
    GateEntry(u64),
    Form(u64),
    Argument(u64),
    Expression(u64),
    Sizes(u64),
    Upward(u64),
}

impl CheckRefusal {
    // The number of a refusal.
    pub fn number(self) -> u64
        ensures { result ≡ number_in (refusal_flaw self) }
    {
        match self {
            CheckRefusal::Contents => RefusalNumber::Contents as u64,
            CheckRefusal::Register(_) => RefusalNumber::Register as u64,
            CheckRefusal::GateEntry(_) => RefusalNumber::GateEntry as u64,
            CheckRefusal::Form(_) => RefusalNumber::Form as u64,
            CheckRefusal::Argument(_) => RefusalNumber::Argument as u64,
            CheckRefusal::Expression(_) => RefusalNumber::Expression as u64,
            CheckRefusal::Sizes(_) => RefusalNumber::Sizes as u64,
            CheckRefusal::Upward(_) => RefusalNumber::Upward as u64,
        }
    }

    // The place of a refusal; 0 where the whole image is refused.
    pub fn place(self) -> u64
        ensures { result ≡ place_in (refusal_flaw self) }
    {
        match self {
            CheckRefusal::Contents => 0,
            CheckRefusal::Register(place)
            | CheckRefusal::GateEntry(place)
            | CheckRefusal::Form(place)
            | CheckRefusal::Argument(place)
            | CheckRefusal::Expression(place)
            | CheckRefusal::Sizes(place)
            | CheckRefusal::Upward(place) => place,
        }
    }
}
