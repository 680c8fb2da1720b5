// A call under a convention: its sources, its plan and its steps.
ghost use Rattle.std.specs.Prelude.{◌≡◌, ◌++◌, IfOk, OnOk};
ghost use Rattle.conventions.specs.Lists.{listed};
ghost use Rattle.moves.specs.Lists.{moves_in};
ghost use Rattle.moves.specs.Plans.{Accepted};
ghost use Rattle.board_calls.specs.Calls.{ExchangeCall, Exchanged, argument_register, call_steps};

use conventions::arguments::{Place, Source};
use conventions::conventions::Convention;
use conventions::lists::ArgumentList;
use machine::places::{LocalSlot, Register, RegisterSet};
use machine::refusals::Refusal;
use machine::steps::Step;
use moves::lists::MoveList;
use moves::plans::{Plan, plan_call};
use std::alloc::{AllocError, Global};

// The register where argument i goes; refused where it goes to an outgoing slot.
fn argument_register<C: Convention>(convention: &C, i: u8) -> Result<Register, Refusal>
    ensures { result ≡ argument_register ((C.answers convention.now).place i) }
{
    match convention.place(i) {
        Place::Register(register) => Ok(register),
        Place::Outgoing(_) => Err(Refusal::NoSuchRegister),
    }
}

// Each of the first two arguments comes from the other's register.
pub(crate) fn exchange<C: Convention>(convention: &C) -> Result<[Source; 2], Refusal>
    ensures { IfOk result (Exchanged (C.answers convention.now)) }
{
    let first = argument_register(convention, 0)?;
    let second = argument_register(convention, 1)?;
    Ok([Source::Register(second), Source::Register(first)])
}

// Nine arguments: a ring of the first two, with one of its registers read again; numbers and a local slot, each read again
// or alone; the fifth in its place.
pub(crate) fn nine_mixed<C: Convention>(convention: &C) -> Result<[Source; 9], Refusal> {
    let first = argument_register(convention, 0)?;
    let second = argument_register(convention, 1)?;
    let fifth = argument_register(convention, 4)?;
    Ok([
        Source::Register(second),
        Source::Register(first),
        Source::Number(5),
        Source::Local(LocalSlot(3)),
        Source::Register(fifth),
        Source::Local(LocalSlot(3)),
        Source::Register(first),
        Source::Number(5),
        Source::Number(9),
    ])
}

// Adds the sources at the end of the list, in their order. The tests have a like function; this one has a contract, and a program's functions are not theirs to use.
fn add_all(list: &mut ArgumentList, sources: &[Source]) -> Result<(), Refusal>
    ensures { OnOk result (listed list.new ≡ listed list.old ++ sources.now) }
{
    for source in sources {
        list.add(*source)?;
    }
    Ok(())
}

// Plans a call with the sources given, and writes its moves.
pub(crate) fn plan<C: Convention>(
    convention: &C,
    sources: &[Source],
    moves: &mut MoveList,
) -> Result<Plan, Refusal>
    ensures { IfOk result (λ p. Accepted (C.answers convention.now) sources.now p moves.new) }
{
    let mut list = ArgumentList::new();
    add_all(&mut list, sources)?;
    plan_call(convention, &list, moves)
}

// The steps of a planned call: its moves and the call, between a reservation and its pop where it has bytes.
fn call_steps(
    heap: Global,
    plan: Plan,
    moves: &MoveList,
    routine: u32,
    lost: RegisterSet,
) -> Result<Vec<Step>, AllocError>
    ensures { IfOk result (λ v. v.items ≡ call_steps plan.bytes (moves_in moves.now) routine lost) }
{
    let bytes = plan.bytes;
    let mut steps = Vec::new(heap);
    if bytes != 0 {
        steps.push(Step::Reserve { bytes })?;
    }
    steps.extend_from_slice(moves.steps())?;
    steps.push(Step::Call { routine, lost })?;
    if bytes != 0 {
        steps.push(Step::Pop { bytes })?;
    }
    Ok(steps)
}

// The steps of a call of the routine with the first two arguments exchanged.
pub(crate) fn exchange_steps<C: Convention>(
    heap: Global,
    convention: &C,
    routine: u32,
) -> anyhow::Result<Vec<Step>>
    ensures { IfOk result (λ v. ExchangeCall (C.answers convention.now) routine v.items) }
{
    let sources = exchange(convention)?;
    let mut moves = MoveList::new();
    let plan = plan(convention, &sources, &mut moves)?;
    Ok(call_steps(heap, plan, &moves, routine, convention.lost())?)
}
