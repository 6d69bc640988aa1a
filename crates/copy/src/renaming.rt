// A renaming of qubits, which the copy of a body is made with.

ghost use Rattle.std.specs.Prelude.{◌≡◌, ◌==◌, length, position};

// Each of some qubits is renamed to the one in its place among others.
#[derive(Clone, Copy)]
pub struct Renaming<'a> {
    pub old: &'a [u64],
    pub new: &'a [u64],
    ghost same_length: { length old.now ≡ length new.now },
}

// The first place of some qubits where one stands.
fn first_place(qubits: &[u64], q: u64) -> Option<usize>
    ensures { result ≡ position (λ x. q == x) qubits.now }
{
    qubits.iter().position(|x| q == *x)
}

impl Renaming<'_> {
    ghost use Rattle.copy.specs.Renamed.{renamed};

    // The qubit that stands in new where q stands first in old; q itself where it stands nowhere.
    pub fn renamed(self, q: u64) -> u64
        ensures { result ≡ renamed self.entry q }
    {
        match first_place(self.old, q) {
            Some(i) => self.new[i],
            None => q,
        }
    }
}
