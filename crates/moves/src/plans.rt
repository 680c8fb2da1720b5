// The plan of a call: its moves, the bytes that it reserves, and its counts.
ghost use Rattle.std.specs.Prelude.{◌≡◌, ◌+◌, ◌≤◌, ◌++◌, true, length};
ghost use Rattle.std.specs.List.{AllByRecursion};
ghost use Rattle.machine.specs.Limits.{outgoing_slots};
ghost use Rattle.conventions.specs.Arguments.{place_in_range};
ghost use Rattle.conventions.specs.Lists.{listed};
ghost use Rattle.order.specs.Order.{loaded_registers, opened, order_of, settled, values_spread};
ghost use Rattle.order.specs.Wants.{wants};
ghost use Rattle.moves.specs.Limits.{move_limit};
ghost use Rattle.moves.specs.Lists.{Adds, HasRoom, moves_in};
ghost use Rattle.moves.specs.Wants.{wants_in};
ghost use Rattle.moves.specs.Plans.{Planned};

use crate::lists::MoveList;
use crate::pendings::PendingMoves;
use crate::wants::Wants;
use conventions::arguments::Argument;
use conventions::calls::bytes_for;
use conventions::calls::fills::arguments;
use conventions::conventions::Convention;
use conventions::lists::ArgumentList;
use least::counts::count_needed;
use machine::places::Register;
use machine::refusals::Refusal;

#[derive(Clone, Copy, PartialEq, Eq, Debug)]
pub struct Plan {
    // the bytes to reserve; 0 and no `Option` where a call has no outgoing slots: the rules answer a number, and a public field keeps its meaning
    pub bytes: u16,
    // N: the arguments whose source is not their own place
    pub needed: u8,
    // C: the closed rings
    pub rings: u8,
    // M: the numbers and local slots that go to outgoing slots and to no register
    pub values: u8,
}

// How often the scratch was loaded: for rings, and for values.
#[derive(Clone, Copy)]
struct ScratchLoads {
    rings: u8,
    values: u8,
}

// Fills the registers: first from one another, then with numbers and local slots. Tells how many rings were opened through the scratch.
fn fill_registers(wants: &Wants, moves: &mut MoveList) -> u8
    requires { HasRoom moves.old (settled (wants_in wants.now) wants.now.scratch.0 ++ loaded_registers (wants_in wants.now)) }
    ensures moves { Adds (settled (wants_in wants.now) wants.now.scratch.0 ++ loaded_registers (wants_in wants.now)) moves.old moves.new }
    ensures rings { result ≡ length (opened (wants_in wants.now) wants.now.scratch.0) }
{
    let rings = PendingMoves::of(wants).settle(wants, moves);
    wants.load_registers(moves);
    rings
}

// Writes the moves that bring the wants about, in their order.
fn write_moves(wants: &Wants, moves: &mut MoveList) -> ScratchLoads
    requires { length (order_of (wants_in wants.now) wants.now.scratch.0) ≤ move_limit }
    ensures moves { moves_in moves.new ≡ order_of (wants_in wants.now) wants.now.scratch.0 }
    ensures rings { result.rings ≡ length (opened (wants_in wants.now) wants.now.scratch.0) }
    ensures values { result.values ≡ length (values_spread (wants_in wants.now)) }
{
    moves.clear();
    wants.store_registers(moves);
    let values = wants.spread_values(moves);
    let rings = fill_registers(wants, moves);
    wants.store_values(moves);
    ScratchLoads { rings, values }
}

// Writes the moves of a call's arguments, in their order. Apart from `plan_call`, so that a refused call does not pay for the table of wants.
fn write_call(arguments: &[Argument], scratch: Register, moves: &mut MoveList) -> ScratchLoads
    requires places { AllByRecursion (λ a. place_in_range outgoing_slots a.place ≡ true) arguments.now }
    requires room { length (order_of (wants arguments.now) scratch.0) ≤ move_limit }
    ensures moves { moves_in moves.new ≡ order_of (wants arguments.now) scratch.0 }
    ensures rings { result.rings ≡ length (opened (wants arguments.now) scratch.0) }
    ensures values { result.values ≡ length (values_spread (wants arguments.now)) }
{
    write_moves(&Wants::of(arguments, scratch), moves)
}

// Plans a call with the listed sources given: writes its moves, or refuses and leaves the moves as they were.
pub fn plan_call<C: Convention>(
    convention: &C,
    list: &ArgumentList,
    moves: &mut MoveList,
) -> Result<Plan, Refusal>
    ensures { Planned (C.answers convention.now) (listed list.now) result moves.old moves.new }
{
    let arguments = arguments(convention, list)?;
    let ScratchLoads { rings, values } = write_call(
        arguments.entries(),
        convention.scratch(),
        moves,
    );
    Ok(Plan {
        bytes: bytes_for(convention.slots(list.len()) as u8),
        needed: count_needed(arguments.entries()) as u8,
        rings,
        values,
    })
}
