// Crews, and the faults that prevent them from being started.
ghost use Rattle.std.specs.Prelude.{◌≡◌, IfOk, length};

use crate::ends::{End, NEW, end_of};
use crate::gates::Watch;
use crate::scripts::{posts_and_raises, raise_60, say, with_port};
use board_terms::{Vector, Vp};
use board_threads::{CrewEnd, CrewFault, Raised, Scripts, Setup, Step, Worker, run_crew};
use std::alloc::{AllocError, Global};
use std::sync::Wait;
use std::test::Fail;
use std::thread::Threads;
use synic_board::Event;

/// A step that no crew may have.
#[derive(Clone, Copy)]
enum Flaw {
    None,
    /// The setup ends with an absorb.
    InSetup,
    /// The script of an additional actor does.
    InActor,
    /// An additional line raises at this processor.
    InLine(u8),
}

/// The size of a crew. Each of its actors and lines has one step.
#[derive(Clone, Copy)]
struct Crew {
    processors: u8,
    pages: u8,
    /// The number of events in its setup.
    ticks: usize,
    actors: usize,
    lines: usize,
    flaw: Flaw,
}

const SMALL: Crew = Crew {
    processors: 2,
    pages: 1,
    ticks: 1,
    actors: 2,
    lines: 2,
    flaw: Flaw::None,
};

/// The greatest crew.
const LARGE: Crew = Crew {
    processors: 8,
    pages: 64,
    ticks: 65_489,
    actors: 15,
    lines: 16,
    flaw: Flaw::None,
};

const BAD_SIZE: Result<usize, CrewFault> = Err(CrewFault::BadSize);

const BAD_STEP: Result<usize, CrewFault> = Err(CrewFault::BadStep);

/// Crews, the number of entries of their histories, and the number of calls that pass the gate.
const CREWS: [(Crew, Result<usize, CrewFault>, u64); 25] = [
    // In addition to the ticks and the actors' steps, there are four absorbs for each processor.
    (SMALL, Ok(11), 4),
    (LARGE, Ok(65_536), 31),
    (
        Crew {
            processors: 0,
            ..SMALL
        },
        BAD_SIZE,
        0,
    ),
    (
        Crew {
            processors: 9,
            ..SMALL
        },
        BAD_SIZE,
        0,
    ),
    (Crew { pages: 0, ..SMALL }, BAD_SIZE, 0),
    (Crew { pages: 65, ..SMALL }, BAD_SIZE, 0),
    (
        Crew {
            actors: 16,
            ..SMALL
        },
        BAD_SIZE,
        0,
    ),
    (Crew { lines: 17, ..SMALL }, BAD_SIZE, 0),
    (
        Crew {
            processors: 1,
            ticks: 65_531,
            ..SMALL
        },
        BAD_SIZE,
        0,
    ),
    (
        Crew {
            ticks: 65_490,
            ..LARGE
        },
        BAD_SIZE,
        0,
    ),
    (
        Crew {
            ticks: 65_537,
            actors: 0,
            ..LARGE
        },
        BAD_SIZE,
        0,
    ),
    // An invalid step makes no difference then.
    (
        Crew {
            processors: 0,
            flaw: Flaw::InLine(0),
            ..SMALL
        },
        BAD_SIZE,
        0,
    ),
    (
        Crew {
            processors: 9,
            flaw: Flaw::InActor,
            ..SMALL
        },
        BAD_SIZE,
        0,
    ),
    (
        Crew {
            pages: 0,
            flaw: Flaw::InSetup,
            ..SMALL
        },
        BAD_SIZE,
        0,
    ),
    (
        Crew {
            pages: 65,
            flaw: Flaw::InActor,
            ..SMALL
        },
        BAD_SIZE,
        0,
    ),
    (
        Crew {
            actors: 16,
            flaw: Flaw::InSetup,
            ..SMALL
        },
        BAD_SIZE,
        0,
    ),
    (
        Crew {
            lines: 17,
            flaw: Flaw::InActor,
            ..SMALL
        },
        BAD_SIZE,
        0,
    ),
    (
        Crew {
            lines: 16,
            flaw: Flaw::InLine(7),
            ..SMALL
        },
        BAD_SIZE,
        0,
    ),
    (
        Crew {
            ticks: 65_489,
            flaw: Flaw::InSetup,
            ..LARGE
        },
        BAD_SIZE,
        0,
    ),
    (
        Crew {
            ticks: 65_537,
            flaw: Flaw::InSetup,
            ..LARGE
        },
        BAD_SIZE,
        0,
    ),
    (
        Crew {
            flaw: Flaw::InSetup,
            ..SMALL
        },
        BAD_STEP,
        0,
    ),
    (
        Crew {
            flaw: Flaw::InActor,
            ..SMALL
        },
        BAD_STEP,
        0,
    ),
    (
        Crew {
            flaw: Flaw::InLine(1),
            ..SMALL
        },
        Ok(11),
        6,
    ),
    (
        Crew {
            flaw: Flaw::InLine(2),
            ..SMALL
        },
        BAD_STEP,
        0,
    ),
    (
        Crew {
            flaw: Flaw::InLine(7),
            ..SMALL
        },
        BAD_STEP,
        0,
    ),
];

fn absorb() -> Event {
    Event::Absorb {
        vp: 0,
        part: 1,
        bits: 1,
    }
}

fn setup_of(alloc: Global, crew: &Crew) -> Result<Setup, AllocError> {
    let mut events = Vec::new(alloc);
    for _ in 0..crew.ticks {
        events.push(Event::Tick { moment: 0 })?;
    }
    if matches!(crew.flaw, Flaw::InSetup) {
        events.push(absorb())?;
    }
    Ok(Setup {
        processors: crew.processors,
        pages: crew.pages,
        first_ticket: 0,
        events,
    })
}

fn actors_of(alloc: Global, crew: &Crew) -> Result<Vec<Vec<Step>>, AllocError> {
    let mut actors = Vec::new(alloc);
    for _ in 0..crew.actors {
        actors.push(Vec::from_array(alloc, [say(0)])?)?;
    }
    if matches!(crew.flaw, Flaw::InActor) {
        actors.push(Vec::from_array(alloc, [say(0), Step::Act(absorb())])?)?;
    }
    Ok(actors)
}

fn lines_of(alloc: Global, crew: &Crew) -> Result<Vec<Vec<(Vp, Vector)>>, AllocError> {
    let here = Vp::new(0).unwrap();
    let mut lines = Vec::new(alloc);
    for _ in 0..crew.lines {
        lines.push(Vec::from_array(alloc, [raise_60(here)])?)?;
    }
    let there = match crew.flaw {
        Flaw::InLine(vp) => Vp::new(vp),
        _ => None,
    };
    if let Some(there) = there {
        lines.push(Vec::from_array(alloc, [raise_60(here), raise_60(there)])?)?;
    }
    Ok(lines)
}

/// The number of entries in the history of a crew.
fn ran<R: Threads + Wait + Sync>(
    rt: &R,
    alloc: Global,
    crew: &Crew,
    gate: &Watch,
) -> Result<usize, CrewFault> {
    let (Ok(setup), Ok(actors), Ok(lines)) = (
        setup_of(alloc, crew),
        actors_of(alloc, crew),
        lines_of(alloc, crew),
    ) else {
        return Err(CrewFault::Memory);
    };
    match run_crew(rt, alloc, &setup, &Scripts { actors, lines }, gate) {
        Ok(end) => Ok(end.ended.history.len()),
        Err(fault) => Err(fault),
    }
}

#[test]
fn crews_are_judged_before_a_thread_is_started(rt: HostRuntime) {
    for (at, (crew, expected, calls)) in CREWS.iter().enumerate() {
        let gate = Watch::new();
        let entries = ran(&rt, rt.alloc(), crew, &gate);
        assert_eq!(rt; entries, *expected, "at {at}");
        assert_eq!(rt; gate.count_all(&rt), *calls, "at {at}");
        assert!(rt; !gate.is_out_of_turn(&rt), "at {at}");
    }
}

/// Two actors that post, and two lines that raise.
fn worked<R: Threads + Wait + Sync>(rt: &R, alloc: Global, gate: &Watch) -> Result<CrewEnd, Fail>
    ensures { IfOk result (λ end. length end.ended.standing ≡ 4) }
{
    let setup = with_port(alloc)?;
    let scripts = posts_and_raises(alloc)?;
    match run_crew(rt, alloc, &setup, &scripts, gate) {
        Ok(end) => Ok(end),
        Err(fault) => Err(Fail::from(fault)),
    }
}

/// The results of the lines' raises.
fn answers_of(raised: &[Vec<Raised>]) -> Option<[Raised; 3]> {
    let [first, second] = raised else {
        return None;
    };
    match (first.as_slice(), second.as_slice()) {
        ([one, two], [three]) => Some([*one, *two, *three]),
        _ => None,
    }
}

#[test]
fn each_call_of_a_worker_passes_the_gate_once(rt: HostRuntime) -> Result<(), Fail> {
    let gate = Watch::new();
    let end = worked(&rt, rt.alloc(), &gate)?;
    let answers = answers_of(end.raised.as_slice());
    assert_eq!(rt;
        answers,
        Some([Raised::Fresh, Raised::Already, Raised::Fresh])
    );
    assert_eq!(rt;
        end_of(&end.ended),
        End {
            entries: 10,
            calls: [8, 1, 1],
            // After the last absorbs no bit is set, and the greatest vector is the next.
            absorbed: 0x3_0000_0000,
            next: Some(0x61),
            next_ticket: 2,
            ..NEW
        }
    );
    for (worker, calls) in [
        (Worker::Acts(0), 0),
        (Worker::Acts(1), 1),
        (Worker::Acts(2), 1),
        (Worker::Raises(0), 2),
        (Worker::Raises(1), 1),
    ] {
        assert_eq!(rt; gate.count(&rt, worker), calls);
    }
    assert!(rt; !gate.is_out_of_turn(&rt));
    Ok(())
}
