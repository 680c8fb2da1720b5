// Sources and steps in short, for the tests. A crate that uses them depends on `machine`, and for sources on `conventions`, which
// the names in them are of.
#![tactic(auto)]

// A step as `copy 1 2`: what it writes comes first.
#[macro_export]
macro_rules! step {
    (copy $to:literal $from:literal) => {
        machine::steps::Step::Copy {
            to: machine::places::Register($to),
            from: machine::places::Register($from),
        }
    };
    (set $to:literal $number:literal) => {
        machine::steps::Step::Set {
            to: machine::places::Register($to),
            number: $number,
        }
    };
    (fetch $to:literal $from:literal) => {
        machine::steps::Step::Fetch {
            to: machine::places::Register($to),
            from: machine::places::LocalSlot($from),
        }
    };
    (back $to:literal $from:literal) => {
        machine::steps::Step::Back {
            to: machine::places::Register($to),
            from: machine::places::OutgoingSlot($from),
        }
    };
    (store $to:literal $from:literal) => {
        machine::steps::Step::Store {
            to: machine::places::OutgoingSlot($to),
            from: machine::places::Register($from),
        }
    };
    (keep $to:literal $from:literal) => {
        machine::steps::Step::Keep {
            to: machine::places::LocalSlot($to),
            from: machine::places::Register($from),
        }
    };
    (reserve $bytes:literal) => {
        machine::steps::Step::Reserve { bytes: $bytes }
    };
    (call $routine:literal $lost:literal) => {
        machine::steps::Step::Call {
            routine: $routine,
            lost: machine::places::RegisterSet($lost),
        }
    };
    (pop $bytes:literal) => {
        machine::steps::Step::Pop { bytes: $bytes }
    };
}

// A list of steps with two operands each.
#[macro_export]
macro_rules! steps {
    ($($name:ident $to:literal $from:literal),*) => {
        &[$($crate::step!($name $to $from)),*]
    };
}

// A source as `r 1`, `l 2` or `k 3`: a register, a local slot or a number.
#[macro_export]
macro_rules! source {
    (r $register:literal) => {
        conventions::arguments::Source::Register(machine::places::Register($register))
    };
    (l $slot:literal) => {
        conventions::arguments::Source::Local(machine::places::LocalSlot($slot))
    };
    (k $number:literal) => {
        conventions::arguments::Source::Number($number)
    };
}

// A list of sources.
#[macro_export]
macro_rules! sources {
    ($($kind:ident $number:literal),*) => {
        &[$($crate::source!($kind $number)),*]
    };
}
