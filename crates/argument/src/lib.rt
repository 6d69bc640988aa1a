// Finds the qubits and bits of an argument: in main a part of a register or the whole, in a body a qubit of the frame.
#![tactic(auto)]

ghost use Rattle.std.specs.Prelude.{◌≡◌, ◌^◌, ◌<◌};
ghost use Rattle.image.specs.RegisterStarts.{RegisterTable};
ghost use Rattle.argument.specs.Frames.{AcceptedBits, number_in_round, RegisterEntry, register_argument, classical_argument};

mod program;
mod run_scope;

use image::Image;
pub use program::Program;
pub use run_scope::RunScope;

// An argument's first qubit or bit, and its size.
#[derive(Clone, Copy)]
pub struct Argument {
    pub first: u64,
    pub size: u64,
}

impl Argument {
    // The number of the qubit or bit that an argument has in a round. An argument of size 1 stays, any other advances.
    pub fn number_in_round(self, i: u64) -> u64
        requires { number_in_round self i < 2 ^ 64 }
        ensures { result ≡ number_in_round self i }
    {
        if self.size == 1 {
            self.first
        } else {
            self.first + i
        }
    }
}

// A part of a register or the whole of it, by the two words at a place. The sizes of the registers stand from another place on.
fn register_part(image: &Image<'_>, starts: &[u64], sizes: u64, at: u64) -> Argument
    requires { RegisterEntry image.now.words.now starts.now sizes at }
    ensures { result ≡ register_argument image.now.words.now sizes at }
{
    let register = image.word(at);
    let index = image.word(at + 1);
    let first = starts[register as usize];
    if index != 0 {
        return Argument {
            first: first + (index - 1),
            size: 1,
        };
    }
    Argument {
        first,
        size: image.word(sizes + register),
    }
}

impl Program<'_> {
    // A classical argument, which main alone has: a part of a register.
    pub fn resolve_creg(&self, c: u64) -> Argument
        requires { RegisterTable self.now.image.words.now self.now.register_starts.now
            × AcceptedBits self.now.image.words.now c }
        ensures { result ≡ classical_argument self.now.image.words.now c }
    {
        let image = &self.image;
        let at = image.argument_at(c);
        let n = image.layout.quantum_registers as usize;
        register_part(
            image,
            &self.register_starts[n..],
            image.classical_register_at(0),
            at,
        )
    }
}
