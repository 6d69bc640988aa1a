// The nine figures of a tally, capped: their sums, their multiples and the largest of them.
ghost use Rattle.std.specs.Prelude.{◌≡◌, ◌+◌, ◌*◌};
ghost use Rattle.model.specs.Lists.{largest};
ghost use Rattle.tally.specs.Weights.{capped, capped_figures, figure, nine_of};

// The first figure that is refused: what passes it is capped to it.
pub(crate) const FIGURE_LIMIT: u64 = 0x1_0000_0000;

// The records of kinds 1 to 7, the body entries and the word bound. The figures have names, and no array holds them by number: what a record adds is said by its name.
#[derive(Clone, Copy)]
pub struct Figures {
    pub u: u64,
    pub cx: u64,
    pub opaque: u64,
    pub barrier: u64,
    pub measure: u64,
    pub reset: u64,
    pub conditional: u64,
    pub entries: u64,
    pub words: u64,
}

// The sum of two figures, capped.
pub(crate) fn capped_sum(a: u64, b: u64) -> u64
    ensures { result ≡ capped (a + b) }
{
    a.saturating_add(b).min(FIGURE_LIMIT)
}

// A figure times k, capped.
fn capped_product(k: u64, a: u64) -> u64
    ensures { result ≡ capped (k * a) }
{
    k.saturating_mul(a).min(FIGURE_LIMIT)
}

impl Figures {
    // The figures of nothing.
    pub(crate) const NONE: Figures = Figures {
        u: 0,
        cx: 0,
        opaque: 0,
        barrier: 0,
        measure: 0,
        reset: 0,
        conditional: 0,
        entries: 0,
        words: 0,
    };

    // The figures of both.
    pub(crate) fn plus(self, other: Figures) -> Figures
        ensures { result ≡ capped_figures (λ j. figure self j + figure other j) }
    {
        Figures {
            u: capped_sum(self.u, other.u),
            cx: capped_sum(self.cx, other.cx),
            opaque: capped_sum(self.opaque, other.opaque),
            barrier: capped_sum(self.barrier, other.barrier),
            measure: capped_sum(self.measure, other.measure),
            reset: capped_sum(self.reset, other.reset),
            conditional: capped_sum(self.conditional, other.conditional),
            entries: capped_sum(self.entries, other.entries),
            words: capped_sum(self.words, other.words),
        }
    }

    // The figures of some rounds.
    pub(crate) fn times(self, rounds: u64) -> Figures
        ensures { result ≡ capped_figures (λ j. rounds * figure self j) }
    {
        Figures {
            u: capped_product(rounds, self.u),
            cx: capped_product(rounds, self.cx),
            opaque: capped_product(rounds, self.opaque),
            barrier: capped_product(rounds, self.barrier),
            measure: capped_product(rounds, self.measure),
            reset: capped_product(rounds, self.reset),
            conditional: capped_product(rounds, self.conditional),
            entries: capped_product(rounds, self.entries),
            words: capped_product(rounds, self.words),
        }
    }

    // The largest of the nine.
    pub(crate) fn largest(self) -> u64
        ensures { result ≡ largest (nine_of self) }
    {
        self.u
            .max(self.cx)
            .max(self.opaque)
            .max(self.barrier)
            .max(self.measure)
            .max(self.reset)
            .max(self.conditional)
            .max(self.entries)
            .max(self.words)
    }
}
