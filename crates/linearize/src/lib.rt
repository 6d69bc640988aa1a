// Writes the finished operations of a program image: the head, then its main statements.
#![tactic(auto)]

ghost use Rattle.std.specs.Prelude.{◌≡◌, ◌+◌, ◌-◌, ◌*◌, ◌≤◌};
ghost use Rattle.model.specs.Image.{Conditional, expressions, statement};
ghost use Rattle.model.specs.Steps.{steps};
ghost use Rattle.expression.specs.KeptValues.{ConstantsKept};
ghost use Rattle.kept_body.specs.Slot.{WideEnough};
ghost use Rattle.kept_body.specs.KeptBodies.{BodiesKept};
ghost use Rattle.gate.specs.Running.{InFrame, Ran};
ghost use Rattle.gate.specs.PlainStatement.{PlainStatement};
ghost use Rattle.gate.specs.RanSteps.{RanSteps};
ghost use Rattle.linearize.specs.StartContext.{most_table_entries, StartContext, MainContext};
ghost use Rattle.linearize.specs.MainStatement.{MainStatement, main_statement_steps, inner_steps, main_steps};
ghost use Rattle.linearize.specs.Linearizes.{refused_with, Linearizes};

use argument::{Program, RunScope};
use expression::KeptValue;
use gate::Run;
use image::{Image, Statement};
use image_check::AcceptedImage;
use record_writer::{LinearizeError, LinearizeErrorKind, Linearized, Position};
use statement::Site;
use value::Value;

// The words of a trace that is long enough for any run: two for each call, and a call goes to a gate of smaller number.
pub const TRACE_WORDS: usize = 2 * (image::MOST_GATES as usize);

// The most registers of a program that has few.
const FEW_REGISTERS: usize = 128;

// The most registers of any program: each has a word of the image.
const MOST_REGISTERS: usize = image::MOST_WORDS as usize;

// The words that are kept of the bodies of a small program: the width of a slot, and a slot for each gate.
const FEW_BODY_WORDS: usize = 1024;

// The words that are kept of the bodies of any program.
const MOST_BODY_WORDS: usize = 1 + kept_body::MOST_SLOT_WORDS * (image::MOST_GATES as usize);

// The inner statement of a conditional, and the conditional's end.
fn visit_inner_statement(
    scope: &RunScope<'_>,
    run: &mut Run<'_>,
    angles: &[Value; image::FRAME_ANGLES],
    site: Site,
    at: Position,
) -> Linearized
    requires { InFrame scope.now.program.now run.old scope.now.number angles.now at
        × PlainStatement scope.now.program.now.image.words.now scope.now.number site }
    ensures { Ran (inner_steps scope.now.program.now.image.words.now scope.now.number angles.now scope.now.qubits.now site)
        scope.now.program.now.image.words.now run.old at result run.new }
{
    let next = gate::visit_statement(scope, run, angles, site, at)?;
    record_writer::write_conditional_end(run.out, next)
}

// A conditional over a register: its start, its inner statement, its end.
fn visit_conditional(
    scope: &RunScope<'_>,
    run: &mut Run<'_>,
    angles: &[Value; image::FRAME_ANGLES],
    site: Site,
    register: u64,
    value: u64,
    inner: u64,
    at: Position,
) -> Linearized
    requires { InFrame scope.now.program.now run.old scope.now.number angles.now at
        × MainStatement scope.now.program.now.image.words.now scope.now.number site
        × (statement scope.now.program.now.image.words.now site.statement ≡ Conditional register value inner) }
    ensures { Ran (main_statement_steps scope.now.program.now.image.words.now angles.now scope.now.qubits.now site)
        scope.now.program.now.image.words.now run.old at result run.new }
{
    let program = scope.program;
    let image = &program.image;
    let size = image.word(image.classical_register_at(register));
    let first = program.register_starts[(image.layout.quantum_registers + register) as usize];
    let next = record_writer::write_conditional_start(run.out, at, first, size, value)?;
    let inner_site = Site {
        statement: inner,
        ..site
    };
    visit_inner_statement(scope, run, angles, inner_site, next)
}

// A main statement, which may be a conditional.
fn visit_main(
    scope: &RunScope<'_>,
    run: &mut Run<'_>,
    angles: &[Value; image::FRAME_ANGLES],
    site: Site,
    at: Position,
) -> Linearized
    requires { InFrame scope.now.program.now run.old scope.now.number angles.now at
        × MainStatement scope.now.program.now.image.words.now scope.now.number site }
    ensures { Ran (main_statement_steps scope.now.program.now.image.words.now angles.now scope.now.qubits.now site)
        scope.now.program.now.image.words.now run.old at result run.new }
{
    let entry = scope.program.image.statement(site.statement).unwrap();
    match entry {
        Statement::Conditional {
            register,
            value,
            statement,
        } => visit_conditional(scope, run, angles, site, register, value, statement, at),
        _ => gate::visit_statement(scope, run, angles, site, at),
    }
}

// The main statements in turn, with bodies opened so many levels deep.
fn visit_program(
    program: &Program<'_>,
    run: &mut Run<'_>,
    levels_left: u64,
    at: Position,
) -> Linearized
    requires { MainContext program.now.image.words.now program.now.register_starts.now run.old.out.now run.old.trace.now at
        × ConstantsKept program.now.image.words.now run.old.kept_values.now
        × BodiesKept program.now.image.words.now run.old.kept_bodies.now run.old.out.now at.words }
    ensures { Ran (main_steps program.now.image.words.now levels_left) program.now.image.words.now run.old at result run.new }
{
    let angles = [expression::zero(); image::FRAME_ANGLES];
    let qubits = [0; image::FRAME_QUBITS];
    let scope = RunScope {
        program,
        number: 0,
        qubits: &qubits,
    };
    let mut position = at;
    for s in 0..program.image.layout.main_statements {
        let site = Site {
            statement: s,
            levels_left,
        };
        position = visit_main(&scope, run, &angles, site, position)?;
    }
    Ok(position)
}

// ---- the tables of a run. Each has one of two lengths: a small program should not pay for clearing the tables of a large one.
// The output and the trace are handed on as they are lent. A struct of both would be taken apart where a `Run` is made, and each function would have to promise
// that it lends the same two.
// Each table has its own choice of a length: one function for all would take what is done with the table as a closure, and no closure has a const parameter.

// The main statements, with a table of N words for what is kept of bodies: the width of a slot, and a slot for each gate.
fn visit_with_kept_bodies<const N: usize>(
    program: &Program<'_>,
    kept_values: &mut [KeptValue],
    slot_width: u64,
    levels_left: u64,
    out: &mut [u64],
    trace: &mut [u64],
    at: Position,
) -> Linearized
    requires { MainContext program.now.image.words.now program.now.register_starts.now out.old trace.old at
        × ConstantsKept program.now.image.words.now kept_values.old
        × WideEnough program.now.image.words.now slot_width
        × (1 + slot_width * program.now.image.layout.gates ≤ N)
        × (N ≤ most_table_entries) }
    ensures { RanSteps (main_steps program.now.image.words.now levels_left) out.old at trace.old result out.new trace.new }
{
    let mut kept_bodies = [0; N];
    kept_bodies[0] = slot_width;
    let mut run = Run {
        kept_values,
        kept_bodies: &mut kept_bodies,
        out,
        trace,
    };
    visit_program(program, &mut run, levels_left, at)
}

// The main statements, with a table for what is kept of bodies.
fn visit_keeping_bodies(
    program: &Program<'_>,
    kept_values: &mut [KeptValue],
    levels_left: u64,
    out: &mut [u64],
    trace: &mut [u64],
    at: Position,
) -> Linearized
    requires { MainContext program.now.image.words.now program.now.register_starts.now out.old trace.old at × ConstantsKept program.now.image.words.now kept_values.old }
    ensures { RanSteps (main_steps program.now.image.words.now levels_left) out.old at trace.old result out.new trace.new }
{
    let width = kept_body::slot_width(&program.image);
    if 1 + width * program.image.layout.gates <= FEW_BODY_WORDS as u64 {
        return visit_with_kept_bodies::<FEW_BODY_WORDS>(
            program,
            kept_values,
            width,
            levels_left,
            out,
            trace,
            at,
        );
    }
    visit_with_kept_bodies::<MOST_BODY_WORDS>(
        program,
        kept_values,
        width,
        levels_left,
        out,
        trace,
        at,
    )
}

// The main statements, with a table of N values that are kept of expressions.
fn visit_with_kept_values<const N: usize>(
    program: &Program<'_>,
    levels_left: u64,
    out: &mut [u64],
    trace: &mut [u64],
    at: Position,
) -> Linearized
    requires { MainContext program.now.image.words.now program.now.register_starts.now out.old trace.old at
        × (expressions program.now.image.words.now ≤ N)
        × (N ≤ most_table_entries) }
    ensures { RanSteps (main_steps program.now.image.words.now levels_left) out.old at trace.old result out.new trace.new }
{
    let mut kept_values = [KeptValue::Nothing; N];
    visit_keeping_bodies(program, &mut kept_values, levels_left, out, trace, at)
}

// The main statements, with a table for the values that are kept of expressions. It is not inlined, so that a run whose image the check refuses takes
// no stack for such a table.
#[inline(never)]
fn visit_keeping_values(
    program: &Program<'_>,
    levels_left: u64,
    out: &mut [u64],
    trace: &mut [u64],
    at: Position,
) -> Linearized
    requires { MainContext program.now.image.words.now program.now.register_starts.now out.old trace.old at }
    ensures { RanSteps (main_steps program.now.image.words.now levels_left) out.old at trace.old result out.new trace.new }
{
    if program.image.layout.expressions <= image::FEW_EXPRESSIONS as u64 {
        return visit_with_kept_values::<{ image::FEW_EXPRESSIONS }>(
            program,
            levels_left,
            out,
            trace,
            at,
        );
    }
    visit_with_kept_values::<{ image::MOST_EXPRESSIONS }>(program, levels_left, out, trace, at)
}

// The main statements, with a table of N entries for where registers start.
fn visit_with_register_starts<const N: usize>(
    accepted: &AcceptedImage<'_>,
    levels_left: u64,
    out: &mut [u64],
    trace: &mut [u64],
    at: Position,
) -> Linearized
    requires { StartContext out.old trace.old at
        × (accepted.now.image.layout.quantum_registers + accepted.now.image.layout.classical_registers ≤ N)
        × (N ≤ most_table_entries) }
    ensures { RanSteps (main_steps accepted.now.image.words.now levels_left) out.old at trace.old result out.new trace.new }
{
    let mut register_starts = [0; N];
    accepted.image.put_register_starts(&mut register_starts);
    let program = Program {
        image: accepted.image,
        register_starts: &register_starts,
    };
    visit_keeping_values(&program, levels_left, out, trace, at)
}

// The main statements, with a table for where registers start.
fn visit_all(
    accepted: &AcceptedImage<'_>,
    levels_left: u64,
    out: &mut [u64],
    trace: &mut [u64],
    at: Position,
) -> Linearized
    requires { StartContext out.old trace.old at }
    ensures { RanSteps (main_steps accepted.now.image.words.now levels_left) out.old at trace.old result out.new trace.new }
{
    let layout = accepted.image.layout;
    if layout.quantum_registers + layout.classical_registers <= FEW_REGISTERS as u64 {
        return visit_with_register_starts::<FEW_REGISTERS>(accepted, levels_left, out, trace, at);
    }
    visit_with_register_starts::<MOST_REGISTERS>(accepted, levels_left, out, trace, at)
}

// ---- the run

// The run of an accepted image: the head comes with the first main statement. Depths 0 and 1 open no level.
fn run_accepted(
    accepted: &AcceptedImage<'_>,
    depth: u64,
    out: &mut [u64],
    trace: &mut [u64],
    at: Position,
) -> Linearized
    requires { StartContext out.old trace.old at }
    ensures { RanSteps (steps accepted.now.image.words.now depth) out.old at trace.old result out.new trace.new }
{
    if accepted.image.layout.main_statements == 0 {
        return Ok(at);
    }
    let next = long_record::write_head(out, at, &accepted.image)?;
    visit_all(accepted, depth.saturating_sub(1), out, trace, next)
}

// The position where nothing is written yet.
fn start() -> Position
    ensures { result ≡ record { records = 0; words = 0; trace = 0 } }
{
    Position {
        records: 0,
        words: 0,
        trace: 0,
    }
}

// A refusal before the first record.
fn refused(kind: LinearizeErrorKind) -> LinearizeError
    ensures { result ≡ refused_with kind }
{
    LinearizeError { kind, at: start() }
}

// Writes the finished operations of an image at a depth into the output, or says why not; a refusal's calls stand in the trace.
pub fn run(image: &[u64], depth: u64, out: &mut [u64], trace: &mut [u64]) -> Linearized
    ensures { Linearizes image.now depth out.old trace.old result out.new trace.new }
{
    if trace.len() < TRACE_WORDS {
        return Err(refused(LinearizeErrorKind::ShortTrace));
    }
    match image_check::accepted_image(image) {
        Ok(accepted) => run_accepted(&accepted, depth, out, trace, start()),
        Err(refusal) => Err(refused(LinearizeErrorKind::Flawed(refusal))),
    }
}
