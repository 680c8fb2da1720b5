// A list of steps as a tape, printed and read back.
use machine::steps::Step;
use tape::whole::{read_tape, write_tape};

// bytes enough for a short tape, with ten to spare
const BUFFER: usize = 64;

// Writes the steps to a tape, and prints it.
pub(crate) fn tape_of(rt: &(impl Print + AllocGlobal), steps: &[Step]) -> anyhow::Result<Vec<u8>> {
    let mut buffer = vec![in rt.alloc(); 0; BUFFER]?;
    let length = write_tape(steps, &mut buffer)?;
    buffer.truncate(length);
    print!(rt; "  tape     ")?;
    for byte in &buffer {
        print!(rt; " {byte:02X}")?;
    }
    println!(rt)?;
    Ok(buffer)
}

// Reads a tape back, and prints its steps.
pub(crate) fn read_back(rt: &(impl Print + AllocGlobal), tape: &[u8]) -> anyhow::Result<Vec<Step>> {
    let steps = read_tape(rt.alloc(), tape)?;
    print!(rt; "  read back")?;
    for step in &steps {
        print!(rt; " {step};")?;
    }
    println!(rt)?;
    Ok(steps)
}
