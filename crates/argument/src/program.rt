// A program that is run: an image that the check accepted, beside the table of where its registers start.
ghost use Rattle.model.specs.Accepted.{Accepted};
ghost use Rattle.model.specs.Image.{quantum_size, quantum_registers};
ghost use Rattle.image.specs.RegisterStarts.{RegisterStarts};
ghost use Rattle.argument.specs.OneProof.{accepted_prop};

use image::Image;

// An accepted image, and where its registers start. Its ghost field says this of the quantum registers alone, since functions of qubits ask for no more: of all registers
// it is a clause, `RegisterTable`, where bits are found.
#[derive(Clone, Copy)]
pub struct Program<'a> {
    pub image: Image<'a>,
    pub register_starts: &'a [u64],
    pub ghost accepted: { Accepted image.words.now } by { accepted_prop image.words.now },
    pub ghost starts: { RegisterStarts (quantum_size image.words.now) (quantum_registers image.words.now) register_starts.now },
}
