// Cells of a bench, for the tests.
use bench::benches::opens::own_origins;
use bench::kinds::WordKind;
use bench::origins::Origin;
use machine::words::Word;
use std::array;
use std::fmt::Debug;
use std::process::Abort;
use std::test::Fail;

// The cells of a bench: 32 registers, 1,024 local slots and 32 outgoing slots, and then 32 registers and
// 32 outgoing slots as a call step found them.
pub type Cells<W> = [W; 1152];

pub const LOCALS: usize = 32;

pub const OUTGOING: usize = 1056;

pub const SEEN_REGISTERS: usize = 1088;

pub const SEEN_OUTGOING: usize = 1120;

// Words that are each the number of their cell.
pub(crate) fn numbered() -> Cells<Word> {
    array::from_fn(|i| Word::Number(i as u64))
}

// Registers and local slots that are their own origins.
pub(crate) fn own() -> Result<Cells<Origin>, Fail> {
    let mut cells = [Origin::Number(0); 1152];
    own_origins(&mut cells)?;
    Ok(cells)
}

// The cells as a bench opens on them.
pub(crate) fn opened<W: WordKind>(mut cells: Cells<W>) -> Cells<W> {
    for cell in cells.iter_mut().skip(OUTGOING) {
        *cell = W::unknown();
    }
    cells
}

pub(crate) fn same<W: WordKind + PartialEq + Debug>(
    rt: &impl Abort,
    cells: &Cells<W>,
    expected: &Cells<W>,
) {
    for (i, (cell, other)) in cells.iter().zip(expected).enumerate() {
        assert_eq!(rt; cell, other, "cell {i}");
    }
}
