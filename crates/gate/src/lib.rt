// Opens gate calls: a statement runs a gate's body, and the body its statements, in turn.
#![tactic(auto)]

ghost use Rattle.std.specs.Prelude.{◌≡◌, [], ◌∷◌, suc, ◌+◌, ◌-◌, ◌≤◌, ◌<◌, length, take};
ghost use Rattle.std.proofs.lemmas.List.Edits.{sets};
ghost use Rattle.model.specs.Image.{gates, statement};
ghost use Rattle.model.specs.Steps.{in_rounds};
ghost use Rattle.model.specs.Limits.{most_words};
ghost use Rattle.image.specs.Entries.{as_statement};
ghost use Rattle.image.specs.Layout.{Small};
ghost use Rattle.record_writer.specs.Promise.{SoundAngles, AnglesGiven};
ghost use Rattle.argument.specs.Frames.{scope_frame, ScopeContext};
ghost use Rattle.statement.specs.Statements.{call_rounds};
ghost use Rattle.gate.specs.RunContext.{nested, TraceRoom};
ghost use Rattle.gate.specs.Running.{RunsPrimitive, Runs, InFrame, Wrote, Ran};
ghost use Rattle.gate.specs.PlainStatement.{PlainStatement, IsPrimitive};
ghost use Rattle.gate.specs.RanSteps.{statement_steps, opened_steps, Popped};
ghost use Rattle.gate.specs.CallStatement.{call_of, StatedCall, CallStatement, OpenedCall, call_steps, opened_round};

use argument::{Program, RunScope};
use expression::KeptValue;
use image::{Image, Statement};
use kept_body::Frame;
use record_writer::{Linearized, Position};
use statement::{Call, Site};
use value::Value;

// What a run writes: what is kept of values and bodies, and the output and the trace that the caller lends.
// What is known of the four slices is no ghost field, since they are written one by one and the position that it speaks of is none of them: `Runs` and `InFrame` say it.
#[derive(Drop)]
pub struct Run<'a> {
    pub kept_values: &'a mut [KeptValue],
    pub kept_bodies: &'a mut [u64],
    pub out: &'a mut [u64],
    pub trace: &'a mut [u64],
}

// A call's pair of trace words: the caller's scope and the place of the call.
fn write_trace_pair(trace: &mut [u64], at: u64, scope: u64, place: u64)
    requires { at + 1 < length trace.old }
    ensures { trace.new ≡ sets trace.old at (scope ∷ place ∷ []) }
{
    let i = at as usize;
    trace[i] = scope;
    trace[i + 1] = place;
}

// ---- statements that open no gate

// A U, CX, barrier, measurement or reset: a statement that opens no gate.
fn visit_primitive(
    scope: &RunScope<'_>,
    run: &mut Run<'_>,
    angles: &[Value; image::FRAME_ANGLES],
    site: Site,
    entry: Statement,
    at: Position,
) -> Linearized
    requires { RunsPrimitive scope.now.program.now run.old at
        × SoundAngles angles.now
        × PlainStatement scope.now.program.now.image.words.now scope.now.number site
        × (as_statement entry ≡ statement scope.now.program.now.image.words.now site.statement)
        × IsPrimitive (as_statement entry) }
    ensures { Wrote (statement_steps scope.now.program.now.image.words.now scope.now.number angles.now scope.now.qubits.now site)
        scope.now.program.now.image.words.now run.old at result run.new }
{
    match entry {
        Statement::U {
            theta,
            phi,
            lambda,
            argument,
        } => statement::visit_u(
            scope,
            run.kept_values,
            angles,
            theta,
            phi,
            lambda,
            argument,
            run.out,
            at,
        ),
        Statement::CX { control, target } => {
            statement::visit_cx(scope, control, target, run.out, at)
        }
        Statement::Barrier { argument, count } => {
            statement::visit_barrier(scope, argument, count, run.out, at)
        }
        Statement::Measure { from, to } => {
            statement::visit_measure(scope, from, to, run.out, at)
        }
        Statement::Reset { argument } => statement::visit_reset(scope, argument, run.out, at),
        Statement::Gate { .. } | Statement::Conditional { .. } => unreachable!(),
    }
}

// ---- calls

// The call of a gate at a site, by the numbers of the gate, of its first parameter and of its first argument.
fn call_at(image: &Image<'_>, site: Site, gate: u64, parameter: u64, argument: u64) -> Call
    requires { (gate < gates image.now.words.now) × (parameter ≤ most_words) }
    ensures { result ≡ call_of image.now.words.now site gate parameter argument }
{
    let place = image.gate_at(gate);
    Call {
        site,
        gate,
        expressions: image.parameter_at(parameter),
        parameters: image.word(place),
        argument,
        arguments: image.word(place + 1),
        has_body: image.word(place + 2) != 0,
    }
}

// The end of a call whose body, or whose gate, was run with the call on the stack. A refusal has the call in its trace.
fn pop_call(
    scope: &RunScope<'_>,
    call: Call,
    trace: &mut [u64],
    at: Position,
    answer: Linearized,
) -> Linearized
    requires { (at.trace + 1 < length trace.old) × Small call.site.statement }
    ensures { Popped scope.now.program.now.image.words.now scope.now.number call at answer trace.old result trace.new }
{
    match answer {
        Ok(next) => Ok(Position {
            trace: at.trace,
            ..next
        }),
        Err(e) => {
            let place = scope.program.image.statement_at(call.site.statement);
            write_trace_pair(trace, at.trace, scope.number, place);
            Err(e)
        }
    }
}

// A statement of the body of a called gate, which has a level less left.
fn body_site(call: Call, statement: u64) -> Site
    requires { 1 ≤ call.site.levels_left }
    ensures { result ≡ record { statement = statement; levels_left = call.site.levels_left - 1 } }
{
    Site {
        statement,
        levels_left: call.site.levels_left - 1,
    }
}

// ---- the cycle
// `TraceRoom`, `PlainStatement`, `CallStatement` and `OpenedCall` are no ghost fields, since each speaks of two values that go side by side: a position and how many calls may nest,
// or a site or a call and the image, some with the scope.
// A scope, a run and a position go through the cycle side by side: the run is written, and each function answers another position, so that a struct of them would be made anew at each call.

// A statement that is no conditional.
#[cycle(visit)]
pub fn visit_statement(
    scope: &RunScope<'_>,
    run: &mut Run<'_>,
    angles: &[Value; image::FRAME_ANGLES],
    site: Site,
    at: Position,
) -> Linearized
    requires { InFrame scope.now.program.now run.old scope.now.number angles.now at
        × PlainStatement scope.now.program.now.image.words.now scope.now.number site }
    ensures { Ran (statement_steps scope.now.program.now.image.words.now scope.now.number angles.now scope.now.qubits.now site)
        scope.now.program.now.image.words.now run.old at result run.new }
{
    let image = &scope.program.image;
    let entry = image.statement(site.statement).unwrap();
    match entry {
        Statement::Gate {
            gate,
            parameter,
            argument,
        } => {
            let call = call_at(image, site, gate, parameter, argument);
            visit_call(scope, run, angles, call, at)
        }
        _ => visit_primitive(scope, run, angles, site, entry, at),
    }
}

// A call: its parameters are worked out before anything else.
#[cycle(visit)]
fn visit_call(
    scope: &RunScope<'_>,
    run: &mut Run<'_>,
    angles: &[Value; image::FRAME_ANGLES],
    call: Call,
    at: Position,
) -> Linearized
    requires { InFrame scope.now.program.now run.old scope.now.number angles.now at
        × StatedCall scope.now.program.now.image.words.now scope.now.number call
        × CallStatement scope.now.program.now.image.words.now scope.now.number call }
    ensures { Ran (statement_steps scope.now.program.now.image.words.now scope.now.number angles.now scope.now.qubits.now call.site)
        scope.now.program.now.image.words.now run.old at result run.new }
{
    let values = expression::parameter_values(
        &scope.program.image,
        angles,
        run.kept_values,
        call.expressions,
        call.parameters,
        at,
    )?;
    visit_gate(scope, run, call, values, at)
}

// The gate of a call, with its angles: it is opaque, or no level is left for its body, or its body is opened.
#[cycle(visit)]
fn visit_gate(
    scope: &RunScope<'_>,
    run: &mut Run<'_>,
    call: Call,
    angles: [Value; image::FRAME_ANGLES],
    at: Position,
) -> Linearized
    requires { Runs scope.now.program.now run.old at
        × TraceRoom at (nested scope.now.number)
        × AnglesGiven angles call.parameters
        × CallStatement scope.now.program.now.image.words.now scope.now.number call }
    ensures { Ran (call_steps scope.now.program.now.image.words.now (scope_frame scope.now.program.now.image.words.now scope.now.number [] scope.now.qubits.now) call
        (take call.parameters angles))
        scope.now.program.now.image.words.now run.old at result run.new }
{
    if !call.has_body {
        return statement::visit_opaque(scope, call, angles, run.out, at);
    }
    let inside = Position {
        trace: at.trace + 2,
        ..at
    };
    if call.site.levels_left == 0 {
        let answer = statement::visit_cut(scope, call, run.out, inside);
        return pop_call(scope, call, run.trace, at, answer);
    }
    let answer = visit_rounds(scope, run, call, angles, inside);
    pop_call(scope, call, run.trace, at, answer)
}

// The rounds of a call whose body is opened.
#[cycle(visit)]
fn visit_rounds(
    scope: &RunScope<'_>,
    run: &mut Run<'_>,
    call: Call,
    angles: [Value; image::FRAME_ANGLES],
    at: Position,
) -> Linearized
    requires { Runs scope.now.program.now run.old at
        × TraceRoom at call.gate
        × AnglesGiven angles call.parameters
        × CallStatement scope.now.program.now.image.words.now scope.now.number call
        × OpenedCall scope.now.program.now.image.words.now call }
    ensures { Ran (in_rounds (call_rounds scope.now.program.now.image.words.now scope.now.number call)
        (opened_round scope.now.program.now.image.words.now scope.now.number scope.now.qubits.now call (take call.parameters angles)))
        scope.now.program.now.image.words.now run.old at result run.new }
{
    let n = statement::call_rounds(&scope.program.image, scope.number, call);
    let mut position = at;
    for i in 0..n {
        let frame = Frame {
            angles,
            qubits: statement::call_qubits(scope, call, i),
        };
        position = open_gate(scope.program, run, frame, call, position)?;
    }
    Ok(position)
}

// The body of a gate in the frame of a call: it is copied if it was run before, and run otherwise.
#[cycle(visit)]
fn open_gate(
    program: &Program<'_>,
    run: &mut Run<'_>,
    frame: Frame,
    call: Call,
    at: Position,
) -> Linearized
    requires { ScopeContext program.now.image.words.now (suc call.gate) frame.qubits
        × Runs program.now run.old at
        × TraceRoom at call.gate
        × AnglesGiven frame.angles call.parameters
        × OpenedCall program.now.image.words.now call }
    ensures { Ran (opened_steps program.now.image.words.now call frame.angles frame.qubits) program.now.image.words.now run.old at result run.new }
{
    // Both have names of their own, since no part of `run` can be read while another is lent.
    let kept_bodies = &mut *run.kept_bodies;
    let out = &mut *run.out;
    match kept_body::copy_body(kept_bodies, call, &frame, out, at) {
        Some(next) => Ok(next),
        None => visit_body(program, run, &frame, call, at),
    }
}

// The statements of a gate's body in turn. A body that is run to its end is kept.
#[cycle(visit)]
fn visit_body(
    program: &Program<'_>,
    run: &mut Run<'_>,
    frame: &Frame,
    call: Call,
    at: Position,
) -> Linearized
    requires { ScopeContext program.now.image.words.now (suc call.gate) frame.now.qubits
        × Runs program.now run.old at
        × TraceRoom at call.gate
        × SoundAngles frame.now.angles
        × OpenedCall program.now.image.words.now call }
    ensures { Ran (opened_steps program.now.image.words.now call frame.now.angles frame.now.qubits) program.now.image.words.now run.old at result run.new }
{
    // The program is lent again, since a scope has its program for as long as its qubits.
    let scope = RunScope {
        program: &*program,
        number: call.gate + 1,
        qubits: &frame.qubits,
    };
    let body = program.image.statements_of(scope.number);
    let mut position = at;
    for s in body {
        position = visit_statement(&scope, run, &frame.angles, body_site(call, s), position)?;
    }
    kept_body::keep_body(run.kept_bodies, call, frame, at, position);
    Ok(position)
}
