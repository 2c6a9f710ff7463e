ghost use Rattle.std.specs.Prelude.{◌≡◌, ◌≢◌, [], ◌∷◌, Option, None, Some, IfOk, IfSome};
ghost use Rattle.ir_types.specs.declared.names.Name.{Name};
ghost use Rattle.ir_machine.specs.Machine as machine;
ghost use Rattle.ir_machine.specs.State.{Over};
ghost use Rattle.ir_machine.specs.Places.{state_of};

use block_memory::{Choice, Shown};
use contents::Seq;
use ir_core::{
    Atom, BinOp, Binary, Bits, Block, Calm, Const, Expr, Extensions, Flags, Function, Instr,
    Linkage, Module, Name, NamedTypes, Operand, Param, Term, Ty,
};
use ir_machine::{
    Chooser, Input, InputPath, Item, Progress, RunState, StartEnd, StepEnd, start, step,
};
use std::alloc::{AllocError, Global};

/// Tells one choice, or none.
#[derive(Drop)]
struct Once {
    choice: Option<Choice>,
}

impl Chooser for Once {
    ghost script = { λ it. elim it.choice [ None ↦ [] | Some c ↦ c ∷ [] ] };

    fn take(&mut self) -> Option<Choice> {
        self.choice.take()
    }
}

fn one<T: Drop>(alloc: Global, item: T) -> Result<Seq<T>, AllocError>
    ensures { IfOk result (λ items. items ≡ item ∷ []) }
{
    let mut items = Seq::new(alloc);
    items.push(item)?;
    Ok(items)
}

/// What the sample returns.
#[derive(Drop, Clone, Copy)]
enum Returns {
    Sum,
    Undef,
}

fn returned(value: Returns) -> Atom<Name> {
    match value {
        Returns::Sum => Atom::Register(Name::Number(2)),
        Returns::Undef => Atom::Constant(Const::Undef),
    }
}

/// `%1: %2 = add FLAGS i8 %0, 200  ret i8 VALUE`, with numbers for names.
fn sample_block(alloc: Global, flags: Flags, value: Returns) -> Result<Block, AllocError> {
    let sum = Binary {
        op: BinOp::Add,
        flags,
        ty: Ty::Int(8),
        left: Atom::Register(Name::Number(0)),
        right: Atom::Constant(Const::Number(Bits::new(200))),
    };
    let line = Calm {
        name: Name::Number(2),
        right: Expr::Binary(sum),
    };
    let body = one(alloc, Instr::Calm(line))?;
    Ok(Block {
        name: Name::Number(1),
        phis: Seq::new(alloc),
        body,
        term: Term::Ret(Operand {
            ty: Ty::Int(8),
            atom: returned(value),
        }),
    })
}

/// `define i8 @0(i8 %0) { BLOCK }`.
fn sample(alloc: Global, flags: Flags, value: Returns) -> Result<Module, AllocError>
    ensures blocks { IfOk result
        (λ m. IfSome (machine.function_named (Name.Number 0) m.functions) (λ f. f.blocks ≢ [])) }
    ensures absent { IfOk result (λ m. machine.function_named (Name.Number 1) m.functions ≡ None) }
{
    let blocks = one(alloc, sample_block(alloc, flags, value)?)?;
    let params = one(
        alloc,
        Param {
            name: Name::Number(0),
            ty: Ty::Int(8),
            extensions: Extensions::none(),
        },
    )?;
    let functions = one(
        alloc,
        Function {
            linkage: Linkage::External,
            result_extensions: Extensions::none(),
            result: Ty::Int(8),
            name: Name::Number(0),
            params,
            blocks,
        },
    )?;
    Ok(Module {
        types: NamedTypes::none(alloc),
        globals: Seq::new(alloc),
        functions,
        declarations: Seq::new(alloc),
    })
}

fn input_of(alloc: Global, numbers: &[u64]) -> Result<Input, AllocError> {
    let mut args = Seq::new(alloc);
    for number in numbers {
        args.push(Shown::Num(*number))?;
    }
    Ok(Input {
        args,
        blocks: Seq::new(alloc),
        externals: Seq::new(alloc),
    })
}

/// What a run shows, or why it doesn't start or go on.
#[derive(Drop, Clone, Copy, PartialEq)]
enum Seen {
    Started,
    Number(u64),
    Wrong,
    NoChoice,
    NoFunction,
    Arguments,
    Argument(usize),
    Memory,
    Other,
}

fn start_end(end: StartEnd) -> Seen {
    match end {
        StartEnd::NoFunction => Seen::NoFunction,
        StartEnd::InputUnfit(InputPath::Arguments) => Seen::Arguments,
        StartEnd::InputUnfit(InputPath::Argument(at)) => Seen::Argument(at),
        StartEnd::InputUnfit(_) => Seen::Other,
        StartEnd::Memory => Seen::Memory,
    }
}

fn step_end(end: StepEnd) -> Seen {
    match end {
        StepEnd::NoChoice => Seen::NoChoice,
        StepEnd::Memory => Seen::Memory,
    }
}

/// How a run of that function starts on that input.
fn start_seen(alloc: Global, module: &Module, entry: &Name, input: &Input) -> Seen
    requires { IfSome (machine.function_named entry.now «module».now.functions) (λ f. f.blocks ≢ []) }
{
    match start(alloc, module, entry, input) {
        Ok(_) => Seen::Started,
        Err(end) => start_end(end),
    }
}

fn sample_starts(alloc: Global, numbers: &[u64]) -> Seen {
    match (
        sample(alloc, PLAIN, Returns::Undef),
        input_of(alloc, numbers),
    ) {
        (Ok(module), Ok(input)) => start_seen(alloc, &module, &Name::Number(0), &input),
        _ => Seen::Memory,
    }
}

fn absent_function_starts(alloc: Global, numbers: &[u64]) -> Seen {
    match (
        sample(alloc, PLAIN, Returns::Undef),
        input_of(alloc, numbers),
    ) {
        (Ok(module), Ok(input)) => start_seen(alloc, &module, &Name::Number(1), &input),
        _ => Seen::Memory,
    }
}

fn items_seen(items: &[Item]) -> Seen {
    match items {
        [Item::Turn, Item::Returned(Some(Shown::Num(n)))] => Seen::Number(*n),
        [Item::Turn, Item::Wrong] => Seen::Wrong,
        _ => Seen::Other,
    }
}

/// What the next step shows.
fn last_step(alloc: Global, module: &Module, state: &mut RunState, chooser: &mut Once) -> Seen
    requires { state_of «module».now state.old ≢ Over }
{
    match step(alloc, module, state, chooser) {
        Ok(stepped) => items_seen(stepped.items.as_slice()),
        Err(end) => step_end(end),
    }
}

/// What the step behind the next one shows, or the next one where it ends the run.
fn two_steps(alloc: Global, module: &Module, state: &mut RunState, chooser: &mut Once) -> Seen
    requires { state_of «module».now state.old ≢ Over }
{
    match step(alloc, module, state, chooser) {
        Ok(first) => match first.progress {
            Progress::Goes => last_step(alloc, module, state, chooser),
            Progress::Ended | Progress::IsWrong => items_seen(first.items.as_slice()),
        },
        Err(end) => step_end(end),
    }
}

fn pick(number: Option<u64>) -> Option<Choice> {
    match number {
        Some(n) => Some(Choice::Pick(Shown::Num(n))),
        None => None,
    }
}

/// What `@0` shows in two steps.
fn shown_by(alloc: Global, module: &Module, input: &Input, number: Option<u64>) -> Seen
    requires { IfSome (machine.function_named (Name.Number 0) «module».now.functions) (λ f. f.blocks ≢ []) }
{
    let mut chooser = Once {
        choice: pick(number),
    };
    match start(alloc, module, &Name::Number(0), input) {
        Ok(mut state) => two_steps(alloc, module, &mut state, &mut chooser),
        Err(end) => start_end(end),
    }
}

fn sample_shows(
    alloc: Global,
    flags: Flags,
    value: Returns,
    argument: u64,
    number: Option<u64>,
) -> Seen {
    match (sample(alloc, flags, value), input_of(alloc, &[argument])) {
        (Ok(module), Ok(input)) => shown_by(alloc, &module, &input, number),
        _ => Seen::Memory,
    }
}

const PLAIN: Flags = Flags {
    nuw: false,
    nsw: false,
    exact: false,
};

const NO_UNSIGNED_WRAP: Flags = Flags {
    nuw: true,
    nsw: false,
    exact: false,
};

/// A sum is returned; poison that is returned is undefined behaviour; undef is shown as what is picked for it.
#[test]
fn returns_are_shown(rt: HostRuntime) {
    let rows = [
        (PLAIN, Returns::Sum, 100, None, Seen::Number(44)),
        (PLAIN, Returns::Sum, 7, None, Seen::Number(207)),
        (NO_UNSIGNED_WRAP, Returns::Sum, 7, None, Seen::Number(207)),
        (NO_UNSIGNED_WRAP, Returns::Sum, 100, None, Seen::Wrong),
        (PLAIN, Returns::Undef, 0, Some(9), Seen::Number(9)),
        (PLAIN, Returns::Undef, 0, Some(300), Seen::NoChoice),
        (PLAIN, Returns::Undef, 0, None, Seen::NoChoice),
    ];
    for (flags, value, argument, number, wanted) in rows {
        assert!(rt; sample_shows(rt.alloc(), flags, value, argument, number) == wanted);
    }
}

#[test]
fn arguments_that_do_not_fit_are_told(rt: HostRuntime) {
    let alloc = rt.alloc();
    assert!(rt; sample_starts(alloc, [255].as_slice()) == Seen::Started);
    assert!(rt; sample_starts(alloc, [256].as_slice()) == Seen::Argument(0));
    assert!(rt; sample_starts(alloc, [].as_slice()) == Seen::Arguments);
    assert!(rt; sample_starts(alloc, [1, 2].as_slice()) == Seen::Arguments);
    assert!(rt; absent_function_starts(alloc, [255].as_slice()) == Seen::NoFunction);
}
