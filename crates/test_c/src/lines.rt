// Lines of the same words, and of others.
use c_handles::{OwnedLine, SplitFault};
use posted_words::Raised;
use std::alloc::Global;
use std::test::Fail;

/// Two lines of the same words, and one of others, each for two processors.
#[derive(Drop)]
struct Lines {
    first: OwnedLine,
    second: Box<OwnedLine>,
    apart: OwnedLine,
}

#[derive(Clone, Copy)]
enum Which {
    First,
    Second,
    Apart,
}

#[derive(Clone, Copy)]
enum Call {
    Raise { vp: u8, vector: u8 },
    Sweep { vp: u8, part: u8 },
    Split,
}

#[derive(Clone, Copy, PartialEq, Eq, Debug)]
enum Answer {
    Raised(Option<Raised>),
    Swept(Option<u64>),
    Split(Result<(), SplitFault>),
}

const RAISE: Call = Call::Raise {
    vp: 1,
    vector: 0x60,
};

const SWEEP: Call = Call::Sweep { vp: 1, part: 1 };

const FRESH: Answer = Answer::Raised(Some(Raised::Fresh));

const CALLS: [(Which, Call, Answer); 19] = [
    (Which::First, RAISE, FRESH),
    (Which::Second, RAISE, Answer::Raised(Some(Raised::Already))),
    (Which::Apart, RAISE, FRESH),
    (
        Which::Second,
        Call::Sweep { vp: 0, part: 1 },
        Answer::Swept(Some(0)),
    ),
    (Which::Second, SWEEP, Answer::Swept(Some(1 << 32))),
    (Which::First, SWEEP, Answer::Swept(Some(0))),
    (Which::First, RAISE, FRESH),
    (Which::Second, SWEEP, Answer::Swept(Some(1 << 32))),
    // The first line can split off others, and the second cannot.
    (Which::First, Call::Split, Answer::Split(Ok(()))),
    (
        Which::Second,
        Call::Split,
        Answer::Split(Err(SplitFault::NoMore)),
    ),
    (Which::Apart, Call::Raise { vp: 1, vector: 255 }, FRESH),
    (
        Which::Apart,
        Call::Sweep { vp: 1, part: 3 },
        Answer::Swept(Some(1 << 63)),
    ),
    // A processor or part out of range is neither raised nor swept.
    (
        Which::Apart,
        Call::Raise { vp: 2, vector: 16 },
        Answer::Raised(None),
    ),
    (
        Which::Apart,
        Call::Raise {
            vp: 255,
            vector: 255,
        },
        Answer::Raised(None),
    ),
    (
        Which::Apart,
        Call::Raise { vp: 0, vector: 15 },
        Answer::Raised(None),
    ),
    (
        Which::Apart,
        Call::Raise { vp: 1, vector: 0 },
        Answer::Raised(None),
    ),
    (
        Which::Apart,
        Call::Sweep { vp: 2, part: 0 },
        Answer::Swept(None),
    ),
    (
        Which::Apart,
        Call::Sweep { vp: 255, part: 3 },
        Answer::Swept(None),
    ),
    (
        Which::Apart,
        Call::Sweep { vp: 0, part: 4 },
        Answer::Swept(None),
    ),
];

impl Lines {
    /// `None` if an allocation fails.
    fn open(alloc: Global) -> Option<Lines> {
        // README c_handles: begin
        let mut first = OwnedLine::open(alloc, 2).ok()?;
        let second = first.split(alloc).ok()?;
        let apart = OwnedLine::open(alloc, 2).ok()?;
        // README c_handles: end
        Some(Lines {
            first,
            second,
            apart,
        })
    }

    fn answer(&mut self, alloc: Global, which: Which, call: Call) -> Answer {
        match which {
            Which::First => answer_of(&mut self.first, alloc, call),
            Which::Second => answer_of(&mut self.second, alloc, call),
            Which::Apart => answer_of(&mut self.apart, alloc, call),
        }
    }
}

fn answer_of(line: &mut OwnedLine, alloc: Global, call: Call) -> Answer {
    // README c_handles: begin
    match call {
        Call::Raise { vp, vector } => Answer::Raised(line.raise(vp, vector)),
        Call::Sweep { vp, part } => Answer::Swept(line.sweep(vp, part)),
        Call::Split => match line.split(alloc) {
            Ok(_) => Answer::Split(Ok(())),
            Err(fault) => Answer::Split(Err(fault)),
        },
    }
    // README c_handles: end
}

#[test]
fn lines_step_at_the_same_words(rt: HostRuntime) -> Result<(), Fail> {
    let mut lines = Lines::open(rt.alloc()).ok_or("memory")?;
    for (step, (which, call, expected)) in CALLS.iter().enumerate() {
        let answer = lines.answer(rt.alloc(), *which, *call);
        assert_eq!(rt; answer, *expected, "at {step}");
    }
    Ok(())
}

/// How many lines a new line splits off, and why it splits off no more.
fn splits(alloc: Global) -> Option<(u16, SplitFault)> {
    let mut line = OwnedLine::open(alloc, 2).ok()?;
    for count in 0..400 {
        if let Err(fault) = line.split(alloc) {
            return Some((count, fault));
        }
    }
    None
}

#[test]
fn a_first_line_splits_off_319_others(rt: HostRuntime) {
    assert_eq!(rt; splits(rt.alloc()), Some((319, SplitFault::NoMore)));
}
