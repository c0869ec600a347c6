// Boards that are given: shared in the state that they are in.
ghost use Rattle.std.specs.Prelude.{◌≡◌, IfOk, length};
ghost use Rattle.synic_board.specs.State.{processors};

use crate::ends::{End, NEW, end_of};
use crate::scenes::{ALL, Answer, Back, Call, Scene};
use crate::scripts::{raise_60, say, with_port};
use board_terms::{Notices, Vp};
use board_threads::{
    CrewEnd, CrewFault, OpenGate, Origin, Raised, RecordedBoard, Scripts, SettleFault, Setup, Step,
    run_crew_on,
};
use std::alloc::{AllocError, Global};
use std::marker::Brand;
use std::sync::Wait;
use std::test::Fail;
use std::thread::Threads;
use synic_board::{Board, Event, OpenFault, Reply};
use test_steps::{are_done, post};

/// A board with one processor and first ticket 5.
#[derive(Clone, Copy)]
enum State {
    New,
    Sparse,
    /// With port 3, and a message in its slot. Vector 0x50 is the next one.
    WithMessage,
}

fn in_state(alloc: Global, state: State) -> Result<Board, Fail>
    ensures { IfOk result (λ b. processors b.state ≡ 1) }
{
    let board = match state {
        State::New => Board::open(alloc, 1, 4, 5)?,
        State::Sparse => Board::open_sparse(alloc, 1, 5)?,
        State::WithMessage => with_message(alloc)?,
    };
    if board.processors() != 1 {
        return Err(Fail::from("processors"));
    }
    Ok(board)
}

fn with_message(alloc: Global) -> Result<Board, Fail> {
    let mut board = Board::open(alloc, 1, 4, 5)?;
    let mut notices = Notices::open(alloc)?;
    let setup = with_port(alloc)?;
    let is_open = are_done(&mut board, &mut notices, setup.events.as_slice());
    if is_open && board.perform(&post(3, &[0x0a]), &mut notices) == Reply::Accepted(5) {
        Ok(board)
    } else {
        Err(Fail::from("setup"))
    }
}

/// Calls on a board in the state `given`, and the result of settling it.
struct Story {
    name: &'static str,
    given: State,
    calls: &'static [(Call, Answer)],
    back: Back,
    end: Result<End, SettleFault>,
}

/// Vector 0x60 is bit 32 of part 1.
const BIT_60: u64 = 1 << 32;

const STORIES: [Story; 4] = [
    Story {
        name: "a board goes on where it was",
        given: State::WithMessage,
        calls: &[
            (Call::Take { vp: 0 }, Answer::Taken(Some(0x50))),
            (Call::Raise(0x60), Answer::Raised(Raised::Fresh)),
            (Call::AbsorbAsOther, Answer::Absorbed(BIT_60)),
            (Call::Raise(0x60), Answer::Raised(Raised::Fresh)),
        ],
        back: ALL,
        end: Ok(End {
            entries: 2,
            calls: [1, 1, 0],
            absorbed: BIT_60,
            next: Some(0x60),
            next_ticket: 6,
            standing: [0, BIT_60, 0, 0],
        }),
    },
    Story {
        name: "no entry, and the board is as it was",
        given: State::WithMessage,
        calls: &[],
        back: ALL,
        end: Ok(End {
            next: Some(0x50),
            next_ticket: 6,
            ..NEW
        }),
    },
    Story {
        name: "a sparse board",
        given: State::Sparse,
        calls: &[(Call::Take { vp: 0 }, Answer::Taken(None))],
        back: ALL,
        end: Ok(End {
            entries: 1,
            calls: [1, 0, 0],
            next_ticket: 5,
            ..NEW
        }),
    },
    Story {
        name: "an actor is missing that did nothing",
        given: State::New,
        calls: &[],
        back: Back {
            actors: 1,
            lines: 1,
        },
        end: Err(SettleFault::Mismatch),
    },
];

/// The result of settling a board after the calls of a story.
fn settled<S: Origin, R: Wait>(
    rt: &R,
    alloc: Global,
    board: Board,
    story: &Story,
) -> Result<Result<End, SettleFault>, Fail>
    requires start { board.state ≡ S.start }
    requires processor { processors board.state ≡ 1 }
{
    let mut scene = Scene::<S>::share(alloc, board).ok_or("memory")?;
    for (call, expected) in story.calls {
        if scene.answer(rt, alloc, *call) != *expected {
            return Err(Fail::from(story.name));
        }
    }
    match scene.settle(alloc, story.back) {
        Ok(ended) => Ok(Ok(end_of(&ended))),
        Err(fault) => Ok(Err(fault)),
    }
}

#[test]
fn a_board_that_is_given_is_settled(rt: HostRuntime) -> Result<(), Fail> {
    for story in &STORIES {
        let board = in_state(rt.alloc(), story.given)?;
        let end = settled::<Brand, _>(&rt, rt.alloc(), board, story)?;
        assert_eq!(rt; end, story.end, "{}", story.name);
    }
    Ok(())
}

/// The fault of sharing a board with that many actors and lines.
fn share_fault<S: Origin>(alloc: Global, board: Board, actors: u8, lines: u8) -> Option<OpenFault>
    requires { board.state ≡ S.start }
{
    RecordedBoard::<S>::share(alloc, board, actors, lines).err()
}

#[test]
fn the_sizes_of_a_board_that_is_given_are_checked(rt: HostRuntime) -> Result<(), Fail> {
    for (actors, lines, fault) in [
        (1, 0, None),
        (16, 16, None),
        (0, 0, Some(OpenFault::BadSize)),
        (17, 0, Some(OpenFault::BadSize)),
        (1, 17, Some(OpenFault::BadSize)),
    ] {
        let board = in_state(rt.alloc(), State::New)?;
        let shared = share_fault::<Brand>(rt.alloc(), board, actors, lines);
        assert_eq!(rt; shared, fault, "{actors} {lines}");
    }
    Ok(())
}

/// A crew on a board: one event in its setup, an actor with one step, and a line that raises vector
/// 0x60.
#[derive(Clone, Copy)]
struct Crew {
    given: State,
    /// Whether the actor posts; else it ticks.
    posts: bool,
}

const POSTS: Crew = Crew {
    given: State::WithMessage,
    posts: true,
};

const SPARSE: Crew = Crew {
    given: State::Sparse,
    posts: false,
};

/// What each leaves. Actor 0 has the entry of the setup and four absorbs.
const RAISED: End = End {
    entries: 6,
    calls: [5, 1, 0],
    absorbed: BIT_60,
    next: Some(0x60),
    ..NEW
};

const CREWS: [(Crew, End); 2] = [
    (
        POSTS,
        End {
            next_ticket: 7,
            ..RAISED
        },
    ),
    (
        SPARSE,
        End {
            next_ticket: 5,
            ..RAISED
        },
    ),
];

fn tick() -> Event {
    Event::Tick { moment: 0 }
}

/// The pages and the first ticket are those of no board that is given.
fn setup_of(alloc: Global, processors: u8) -> Result<Setup, AllocError>
    ensures { IfOk result (λ s. s.processors ≡ processors) }
{
    Ok(Setup {
        processors,
        pages: 65,
        first_ticket: 9,
        events: Vec::from_array(alloc, [tick()])?,
    })
}

fn scripts_of(alloc: Global, posts: bool) -> Result<Scripts, AllocError> {
    let step = if posts { say(0x0b) } else { Step::Act(tick()) };
    let acts = Vec::from_array(alloc, [step])?;
    let raises = Vec::from_array(alloc, [raise_60(Vp::new(0).unwrap())])?;
    Ok(Scripts {
        actors: Vec::from_array(alloc, [acts])?,
        lines: Vec::from_array(alloc, [raises])?,
    })
}

fn ran<R: Threads + Wait + Sync>(
    rt: &R,
    alloc: Global,
    crew: &Crew,
    processors: u8,
) -> Result<Result<CrewEnd, CrewFault>, Fail>
    ensures { IfOk result (λ ran. processors ≡ 1 → IfOk ran (λ c. length c.ended.standing ≡ 4)) }
{
    let board = in_state(alloc, crew.given)?;
    let setup = setup_of(alloc, processors)?;
    let scripts = scripts_of(alloc, crew.posts)?;
    Ok(run_crew_on(rt, alloc, board, &setup, &scripts, &OpenGate))
}

fn end_of_crew<R: Threads + Wait + Sync>(
    rt: &R,
    alloc: Global,
    crew: &Crew,
) -> Result<Result<End, CrewFault>, Fail> {
    match ran(rt, alloc, crew, 1)? {
        Ok(end) => Ok(Ok(end_of(&end.ended))),
        Err(fault) => Ok(Err(fault)),
    }
}

#[test]
fn a_crew_runs_on_a_board_that_is_given(rt: HostRuntime) -> Result<(), Fail> {
    for (at, (crew, expected)) in CREWS.iter().enumerate() {
        let end = end_of_crew(&rt, rt.alloc(), crew)?;
        assert_eq!(rt; end, Ok(*expected), "at {at}");
    }
    Ok(())
}

#[test]
fn a_crew_has_the_processors_of_its_board(rt: HostRuntime) -> Result<(), Fail> {
    for crew in [POSTS, SPARSE] {
        for processors in [0, 2, 8, 255] {
            let fault = ran(&rt, rt.alloc(), &crew, processors)?.err();
            assert_eq!(rt; fault, Some(CrewFault::BadSize), "{processors}");
        }
    }
    Ok(())
}
