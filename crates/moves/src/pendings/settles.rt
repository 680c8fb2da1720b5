// Carrying out choices until nothing is pending.
ghost use Rattle.std.specs.Prelude.{◌≡◌, length, Some};
ghost use Rattle.order.specs.Order.{choices};
ghost use Rattle.order.specs.Tables.{fill, given, next_table, settle, spilled};
ghost use Rattle.moves.specs.Lists.{Adds, HasRoom, moves_in};
ghost use Rattle.moves.specs.Tables.{Settled, choice_in, table_in};
ghost use Rattle.moves.specs.Wants.{wants_in};

use crate::choices::Choice;
use crate::limits::CHOICES;
use crate::lists::MoveList;
use crate::pendings::PendingMoves;
use crate::wants::Wants;
use conventions::arguments::Place;
use machine::places::Register;
use machine::steps::Step;

// The step by which a register takes the word at a place.
fn fill(to: Register, place: Place) -> Step
    ensures { result ≡ fill to.0 place }
{
    match place {
        Place::Register(from) => Step::Copy { to, from },
        Place::Outgoing(from) => Step::Back { to, from },
    }
}

// How many rings a choice opens through the scratch. A choice is a value and no closure, since the definition of the order has it too, and the two are compared.
fn rings_spilled(choice: Choice) -> u8
    ensures { result ≡ length (spilled (choice_in (Some choice))) }
{
    match choice {
        Choice::Spill(_) => 1,
        Choice::Take(_) | Choice::Reload(_, _) => 0,
    }
}

impl PendingMoves {
    // Adds the move of a choice, and turns the readers that it concerns; a match, for the same reason.
    fn carry_out(&mut self, choice: Choice, scratch: Register, moves: &mut MoveList)
        requires { HasRoom moves.old (given scratch.0 (choice_in (Some choice)) (table_in self.old)) }
        ensures table { table_in self.new ≡ next_table scratch.0 (choice_in (Some choice)) (table_in self.old) }
        ensures moves { Adds (given scratch.0 (choice_in (Some choice)) (table_in self.old)) moves.old moves.new }
    {
        match choice {
            Choice::Take(register) => {
                let source = self.source(register);
                moves.push(fill(register, source));
                self.turn(source, Place::Register(register));
            }
            Choice::Reload(register, slot) => {
                self.turn(Place::Register(register), Place::Outgoing(slot));
            }
            Choice::Spill(register) => {
                moves.push(fill(scratch, Place::Register(register)));
                self.turn(Place::Register(register), Place::Register(scratch));
            }
        }
    }

    // Adds the moves that settle the table, and tells how many rings were opened through the scratch.
    pub(crate) fn settle(&mut self, wants: &Wants, moves: &mut MoveList) -> u8
        requires { HasRoom moves.old (settle (wants_in wants.now) wants.now.scratch.0 choices (table_in self.old)) }
        ensures { Settled (wants_in wants.now) wants.now.scratch.0 choices (table_in self.old) (moves_in moves.old) (moves_in moves.new) result }
    {
        let mut rings = 0;
        // so many choices, as the definition of the order has them; no index
        for _ in 0..CHOICES {
            let Some(choice) = self.choose(wants) else {
                break;
            };
            self.carry_out(choice, wants.scratch, moves);
            rings += rings_spilled(choice);
        }
        rings
    }
}
