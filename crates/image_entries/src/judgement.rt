// What the pass over the expressions of an image finds of a well formed one.
ghost use Rattle.std.specs.Prelude.{◌≤◌};
ghost use Rattle.model.specs.Limits.{most_levels};

// The levels of a well formed expression, and how many variables it needs: one more than its largest. Bytes, since each check clears a table of them.
#[derive(Clone, Copy)]
pub struct Judgement {
    pub level: u8,
    pub variables: u8,
    pub ghost few_levels: { (1 ≤ level) × (level ≤ most_levels) },
}
