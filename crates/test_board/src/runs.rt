// Lists of events.
use board_terms::{Notice, Refusal, Vector, Vp};
use std::alloc::Global;
use std::test::Fail;
use synic_board::{Board, Event, Reply, run};

/// A board with one processor, and the notices of all its runs.
#[derive(Drop)]
struct Scene {
    board: Board,
    notices: Vec<Notice>,
}

#[derive(Clone, Copy)]
enum List {
    /// Asserts vector 0x50, takes the next vector, and then takes one at a processor that does not
    /// exist.
    AssertAndTake,
    /// Ticks to times 0, 1 and so on.
    Ticks(u64),
}

#[derive(Clone, Copy, PartialEq, Eq, Debug)]
enum Answer {
    /// The vector taken by an `AssertAndTake`, and how many Requested notices all runs emitted.
    Taken(Option<Vector>, usize),
    /// The number of replies, and the time of the board.
    Ticked(usize, u64),
    Otherwise,
}

fn vector_50() -> Vector {
    Vector::new(0x50).unwrap()
}

impl Scene {
    /// `None` if an allocation fails.
    fn open(alloc: Global) -> Option<Scene> {
        let board = Board::open(alloc, 1, 1, 0).ok()?;
        let notices = Vec::new(alloc);
        Some(Scene { board, notices })
    }

    fn answer(&mut self, alloc: Global, list: List) -> Answer {
        match list {
            List::AssertAndTake => self.assert_and_take(alloc),
            List::Ticks(count) => self.tick(alloc, count),
        }
    }

    fn assert_and_take(&mut self, alloc: Global) -> Answer {
        let vector = vector_50();
        let events = [
            Event::Assert { vp: 0, vector },
            Event::Take { vp: 0 },
            Event::Take { vp: 1 },
        ];
        let Ok(replies) = run(alloc, &mut self.board, &events, &mut self.notices) else {
            return Answer::Otherwise;
        };
        match replies.as_slice() {
            [
                Reply::Done,
                Reply::Taken(taken),
                Reply::Refused(Refusal::NoSuchProcessor),
            ] => Answer::Taken(*taken, count_requests(self.notices.as_slice())),
            _ => Answer::Otherwise,
        }
    }

    fn tick(&mut self, alloc: Global, count: u64) -> Answer {
        let mut events = Vec::new(alloc);
        for moment in 0..count {
            if events.push(Event::Tick { moment }).is_err() {
                return Answer::Otherwise;
            }
        }
        match run(alloc, &mut self.board, events.as_slice(), &mut self.notices) {
            Ok(replies) => Answer::Ticked(replies.len(), self.board.moment()),
            Err(_) => Answer::Otherwise,
        }
    }
}

/// The number of notices, if all of them are Requested for vector 0x50.
fn count_requests(notices: &[Notice]) -> usize {
    let (vp, vector) = (Vp::new(0).unwrap(), vector_50());
    let requested = Notice::Requested { vp, vector };
    let mut count = 0usize;
    for notice in notices {
        if *notice == requested {
            count = count.saturating_add(1);
        } else {
            return usize::MAX;
        }
    }
    count
}

#[test]
fn runs_answer_in_order_and_append_what_they_tell(rt: HostRuntime) -> Result<(), Fail> {
    let mut scene = Scene::open(rt.alloc()).ok_or("memory")?;
    // The first is taken and stays in service; the second stays requested, and the third merges
    // with it.
    for (list, expected) in [
        (List::AssertAndTake, Answer::Taken(Some(vector_50()), 1)),
        (List::AssertAndTake, Answer::Taken(None, 2)),
        (List::Ticks(0), Answer::Ticked(0, 0)),
        (List::Ticks(3000), Answer::Ticked(3000, 2999)),
        (List::AssertAndTake, Answer::Taken(None, 2)),
    ] {
        assert_eq!(rt; scene.answer(rt.alloc(), list), expected);
    }
    Ok(())
}
