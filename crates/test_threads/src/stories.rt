// Sequences of calls of one thread on a shared board, and the result of settling it.
use crate::ends::{End, NEW, end_of};
use crate::scenes::{ALL, Answer, Back, Call, Scene};
use board_terms::Refusal;
use board_threads::{CallFault, Origin, Raised, SettleFault};
use std::alloc::Global;
use std::test::Fail;

struct Story {
    name: &'static str,
    calls: &'static [(Call, Answer)],
    back: Back,
    end: Result<End, SettleFault>,
}

/// Vector 0x60 is bit 32 of part 1.
const BIT_60: u64 = 1 << 32;

const FRESH: Answer = Answer::Raised(Raised::Fresh);

const NO_PROCESSOR: Answer = Answer::Refused(Refusal::NoSuchProcessor);

const NO_PART: Answer = Answer::Refused(Refusal::BadTarget);

const FULL: Answer = Answer::Failed(CallFault::Full);

const STORIES: [Story; 12] = [
    Story {
        name: "nothing is done",
        calls: &[],
        back: ALL,
        end: Ok(NEW),
    },
    Story {
        name: "a raise is fresh until it is absorbed",
        calls: &[
            (Call::Raise(0x60), FRESH),
            (Call::Absorb { vp: 0, part: 1 }, Answer::Absorbed(BIT_60)),
            (Call::Raise(0x60), FRESH),
            (Call::Raise(0x60), Answer::Raised(Raised::Already)),
        ],
        back: ALL,
        // The absorbed vector is the next one, and the vector raised again is still set.
        end: Ok(End {
            entries: 1,
            calls: [1, 0, 0],
            absorbed: BIT_60,
            next: Some(0x60),
            standing: [0, BIT_60, 0, 0],
            ..NEW
        }),
    },
    Story {
        name: "what is absorbed is taken once, by whomever",
        calls: &[
            (Call::Raise(0x60), FRESH),
            (Call::AbsorbAsOther, Answer::Absorbed(BIT_60)),
            (Call::Absorb { vp: 0, part: 1 }, Answer::Absorbed(0)),
            (Call::Take { vp: 0 }, Answer::Taken(Some(0x60))),
            (Call::Take { vp: 0 }, Answer::Taken(None)),
        ],
        back: ALL,
        end: Ok(End {
            entries: 4,
            calls: [3, 1, 0],
            absorbed: BIT_60,
            ..NEW
        }),
    },
    Story {
        name: "an absorb that is refused takes nothing, and is entered",
        calls: &[
            (Call::Raise(0xc0), FRESH),
            (Call::Absorb { vp: 1, part: 3 }, NO_PROCESSOR),
            (Call::Absorb { vp: 8, part: 3 }, NO_PROCESSOR),
            (Call::Absorb { vp: 1, part: 4 }, NO_PROCESSOR),
            (Call::Absorb { vp: 0, part: 4 }, NO_PART),
            (Call::Absorb { vp: 0, part: 255 }, NO_PART),
        ],
        back: ALL,
        end: Ok(End {
            entries: 5,
            calls: [5, 0, 0],
            standing: [0, 0, 0, 1],
            ..NEW
        }),
    },
    Story {
        name: "an event that is refused is entered",
        calls: &[
            (Call::Take { vp: 1 }, NO_PROCESSOR),
            (Call::Take { vp: 255 }, NO_PROCESSOR),
        ],
        back: ALL,
        end: Ok(End {
            entries: 2,
            calls: [2, 0, 0],
            ..NEW
        }),
    },
    Story {
        name: "an absorb is no event",
        calls: &[
            (Call::Raise(0x60), FRESH),
            (Call::PerformAbsorb, Answer::Failed(CallFault::AbsorbEvent)),
        ],
        back: ALL,
        end: Ok(End {
            standing: [0, BIT_60, 0, 0],
            ..NEW
        }),
    },
    Story {
        name: "a full history takes no more",
        calls: &[
            (Call::Ticks(65_536), Answer::Ticked(65_536)),
            (Call::Raise(0x60), FRESH),
            (Call::Ticks(1), FULL),
            (Call::Absorb { vp: 0, part: 1 }, FULL),
            (Call::Absorb { vp: 1, part: 1 }, FULL),
            (Call::AbsorbAsOther, FULL),
            // An absorb performed as an event is reported first.
            (Call::PerformAbsorb, Answer::Failed(CallFault::AbsorbEvent)),
        ],
        back: ALL,
        end: Ok(End {
            entries: 65_536,
            calls: [65_536, 0, 0],
            standing: [0, BIT_60, 0, 0],
            ..NEW
        }),
    },
    Story {
        // The history of the one board lacks the call, and that of the other has one that none of
        // its actors made.
        name: "a call on another board is a mismatch of both",
        calls: &[(
            Call::TickElsewhere,
            Answer::Unsettled(SettleFault::Mismatch),
        )],
        back: ALL,
        end: Err(SettleFault::Mismatch),
    },
    Story {
        name: "an actor is missing that did nothing",
        calls: &[],
        back: Back {
            actors: 1,
            lines: 1,
        },
        end: Err(SettleFault::Mismatch),
    },
    Story {
        name: "all actors are missing",
        calls: &[],
        back: Back {
            actors: 0,
            lines: 1,
        },
        end: Err(SettleFault::Mismatch),
    },
    Story {
        name: "the line is missing",
        calls: &[],
        back: Back {
            actors: 2,
            lines: 0,
        },
        end: Err(SettleFault::Mismatch),
    },
    Story {
        name: "all are missing",
        calls: &[],
        back: Back {
            actors: 0,
            lines: 0,
        },
        end: Err(SettleFault::Mismatch),
    },
];

fn settled<S: Origin>(scene: Scene<S>, alloc: Global, back: Back) -> Result<End, SettleFault> {
    match scene.settle(alloc, back) {
        Ok(ended) => Ok(end_of(&ended)),
        Err(fault) => Err(fault),
    }
}

#[test]
fn one_thread_on_a_shared_board(rt: HostRuntime) -> Result<(), Fail> {
    for story in &STORIES {
        let name = story.name;
        let mut scene = Scene::open(rt.alloc()).ok_or("memory")?;
        for (step, (call, expected)) in story.calls.iter().enumerate() {
            let answer = scene.answer(&rt, rt.alloc(), *call);
            assert_eq!(rt; answer, *expected, "{name} at {step}");
        }
        let end = settled(scene, rt.alloc(), story.back);
        assert_eq!(rt; end, story.end, "{name}");
    }
    Ok(())
}
