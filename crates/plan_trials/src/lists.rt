// Tests of adding to an argument list.
use conventions::arguments::Source;
use conventions::lists::ArgumentList;
use machine::refusals::Refusal;
use shorts::{source, sources};
use std::process::Abort;
use std::test::Fail;

pub(crate) fn listing(sources: &[Source]) -> Result<ArgumentList, Fail> {
    let mut list = ArgumentList::new();
    for source in sources {
        list.add(*source)?;
    }
    Ok(list)
}

// The numbers from 0 up, so many.
pub(crate) fn numbers(count: u64) -> Result<ArgumentList, Fail> {
    let mut list = ArgumentList::new();
    for number in 0..count {
        list.add(Source::Number(number))?;
    }
    Ok(list)
}

type Answer = Result<(), Refusal>;

const ADDED: Answer = Ok(());

const FULL: Answer = Err(Refusal::ListFull);

const REGISTER: Answer = Err(Refusal::NoSuchRegister);

const LOCAL_SLOT: Answer = Err(Refusal::NoSuchLocalSlot);

// Each source is answered so, and one that is refused leaves the list as it was.
fn answers(rt: &impl Abort, list: &mut ArgumentList, script: &[(Source, Answer)]) {
    for (source, answer) in script {
        let before = *list;
        assert_eq!(rt; list.add(*source), *answer, "{source:?}");
        if answer.is_err() {
            assert_eq!(rt; list.sources(), before.sources());
        }
    }
}

#[test]
fn sources_out_of_range(rt: HostRuntime) -> Result<(), Fail> {
    let mut list = ArgumentList::new();
    answers(
        &rt,
        &mut list,
        &[
            (source!(r 32), REGISTER),
            (source!(r 31), ADDED),
            (source!(r 255), REGISTER),
            (source!(l 1024), LOCAL_SLOT),
            (source!(l 1023), ADDED),
            (source!(l 0xFFFF), LOCAL_SLOT),
            (source!(k 0xFFFF_FFFF_FFFF_FFFF), ADDED),
        ],
    );
    let added: &[Source] = sources!(r 31, l 1023, k 0xFFFF_FFFF_FFFF_FFFF);
    assert_eq!(rt; list.sources(), added);
    Ok(())
}

// A full list is told before a source out of range.
#[test]
fn full_list(rt: HostRuntime) -> Result<(), Fail> {
    let mut list = numbers(31)?;
    answers(
        &rt,
        &mut list,
        &[
            (source!(r 40), REGISTER),
            (source!(k 31), ADDED),
            (source!(r 0), FULL),
            (source!(r 40), FULL),
            (source!(l 1024), FULL),
            (source!(k 0), FULL),
        ],
    );
    assert_eq!(rt; list.len(), 32);
    assert_eq!(rt; list.sources(), numbers(32)?.sources());
    Ok(())
}
