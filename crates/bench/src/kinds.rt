// Word kinds: what a cell may hold.
ghost use Rattle.std.specs.Prelude.{◌≡◌};
ghost use Rattle.machine.specs.Words.{Start};
ghost use Rattle.machine.specs.declared.words.Word.{Word};
ghost use Rattle.machine.specs.declared.words.Word.TheVariants.{Number, Unknown};

use machine::words::Word;

// A word kind says for every start which word each of its values stands for.
pub trait WordKind: Copy {
    ghost stands: { Self → Start → Word };

    // A value that stands for the number from every start.
    fn number(number: u64) -> Self
        ensures { (s : Start) → stands result s ≡ Number number };

    // A value that stands for unknown from every start.
    fn unknown() -> Self
        ensures { (s : Start) → stands result s ≡ Unknown };
}

// plain words: each stands for itself
impl WordKind for Word {
    ghost stands = { λ w s. w };

    fn number(number: u64) -> Word {
        Word::Number(number)
    }

    fn unknown() -> Word {
        Word::Unknown
    }
}
