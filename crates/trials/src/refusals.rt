// Tests of the refusals' numbers.
use machine::refusals::Refusal;

#[test]
fn numbers(rt: HostRuntime) {
    let numbers: &[(Refusal, u8)] = &[
        (Refusal::ListFull, 11),
        (Refusal::NoSuchRegister, 12),
        (Refusal::NoSuchLocalSlot, 13),
        (Refusal::NotUsable, 14),
        (Refusal::WrongCells, 21),
        (Refusal::NotBare, 22),
        (Refusal::TooManyArguments, 23),
        (Refusal::CallsAtLimit, 31),
        (Refusal::OwnStepsAtLimit, 32),
        (Refusal::NoRoom, 33),
        (Refusal::UnknownCommand, 41),
        (Refusal::CutShort, 42),
        (Refusal::OutOfRange, 43),
        (Refusal::OutOfTurn, 44),
        (Refusal::TooLong, 45),
    ];
    for (refusal, number) in numbers {
        assert_eq!(rt; refusal.number(), *number);
    }
}
