// A scope whose statements are run, beside the qubits that its frame has.
ghost use Rattle.std.specs.Prelude.{◌≡◌, ◌<◌};
ghost use Rattle.model.specs.Lists.{range};
ghost use Rattle.model.specs.Image.{rounds};
ghost use Rattle.argument.specs.Frames.{ScopeContext, AcceptedArgument, quantum_argument, CallArguments, RoundQubits};
ghost use Rattle.argument.specs.OneProof.{scope_context_prop};

use crate::{Argument, Program};

// A scope whose statements are run: the program, the scope's number, which is 0 for main and the gate's number and 1 for a body, and the qubits of
// the scope's frame, in front of sixteen. That these are declared qubits is known with them, so that no statement has to ask for it.
// The number is no enum of main and a gate, since a call's words in a trace begin with it.
#[derive(Clone, Copy)]
pub struct RunScope<'a> {
    pub program: &'a Program<'a>,
    pub number: u64,
    pub qubits: &'a [u64; image::FRAME_QUBITS],
    pub ghost in_scope: { ScopeContext program.now.image.words.now number qubits.now } by { scope_context_prop program.now.image.words.now number qubits.now },
}

impl RunScope<'_> {
    // A quantum argument: a part of a register in main, a qubit of the frame in a body.
    pub fn resolve_qreg(&self, a: u64) -> Argument
        requires { AcceptedArgument self.now.program.now.image.words.now self.now.number a }
        ensures { result ≡ quantum_argument self.now.program.now.image.words.now self.now.number self.now.qubits.now a }
    {
        let image = &self.program.image;
        let at = image.argument_at(a);
        if self.number == 0 {
            return crate::register_part(
                image,
                self.program.register_starts,
                image.quantum_register_at(0),
                at,
            );
        }
        let i = image.word(at) as usize;
        let first = self.qubits[i];
        Argument { first, size: 1 }
    }

    // The qubits that n arguments have in a round, in front of sixteen.
    pub fn qubits_in_round(&self, a: u64, n: u64, i: u64) -> [u64; image::FRAME_QUBITS]
        requires { CallArguments self.now.program.now.image.words.now self.now.number a n
            × (i < rounds self.now.program.now.image.words.now self.now.number (range a n)) }
        ensures { RoundQubits self.now.program.now.image.words.now self.now.number self.now.qubits.now a n i result }
    {
        let mut found = [0; image::FRAME_QUBITS];
        for j in 0..n {
            found[j as usize] = self.resolve_qreg(a + j).number_in_round(i);
        }
        found
    }
}
