// Judges the arguments of a scope's statements.
ghost use Rattle.std.specs.Prelude.{◌≡◌, ◌+◌, ◌≤◌};
ghost use Rattle.model.specs.Lists.{range, all};
ghost use Rattle.model.specs.Image.{variables};
ghost use Rattle.model.specs.Check.{argument_ok};
ghost use Rattle.model.specs.Limits.{most_words};

use image::Image;

// Where statements stand: scope 0 is main, and scope gate + 1 is that gate's body. The number is no enum of main and a gate, since document 01 numbers scopes
// so in a trace.
#[derive(Clone, Copy)]
pub struct Scope<'a> {
    pub image: Image<'a>,
    pub number: u64,
    pub ghost within: { number ≤ image.layout.gates },
}

impl Scope<'_> {
    // How many variables the scope has: its gate's parameters, none in main.
    #[tactic(auto, using(crate::proofs::ScopeLaws::variables_main, crate::proofs::ScopeLaws::variables_body))]
    pub fn variables(&self) -> u64
        ensures { result ≡ variables self.now.image.words.now self.now.number }
    {
        if self.number == 0 {
            return 0;
        }
        self.image.word(self.image.gate_at(self.number - 1))
    }

    // Whether argument a is well formed.
    #[tactic(auto, using(crate::proofs::ScopeLaws::argument_main, crate::proofs::ScopeLaws::argument_body))]
    pub fn argument_ok(&self, a: u64) -> bool
        requires { a ≤ most_words }
        ensures { result ≡ argument_ok self.now.image.words.now self.now.number a }
    {
        let image = &self.image;
        let at = image.argument_at(a);
        let register = image.word(at);
        let index = image.word(at + 1);
        if self.number == 0 {
            register < image.layout.quantum_registers
                && index <= image.word(image.quantum_register_at(register))
        } else {
            register < image.word(image.gate_at(self.number - 1) + 1) && index == 0
        }
    }

    // Whether n arguments from a on are well formed. First number and count stand side by side, as the two words of an entry have them.
    #[tactic(auto, using(model::proofs::Ranges::all_start, model::proofs::Ranges::all_next))]
    pub fn arguments_ok(&self, a: u64, n: u64) -> bool
        requires { a + n ≤ most_words }
        ensures { result ≡ all (argument_ok self.now.image.words.now self.now.number) (range a n) }
    {
        for i in 0..n {
            if !self.argument_ok(a + i) {
                return false;
            }
        }
        true
    }
}
