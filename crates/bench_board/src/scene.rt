// The board of a workload, its setup, and the events that are repeated.
ghost use Rattle.std.specs.Prelude.{◌<◌, ◌≤◌};

use crate::events::{
    ENABLE, PAGE, assert_vector, clear_flags, empty_slot, open_port, post, store, write,
    write_source, write_timer_config, write_timer_count,
};
use crate::size::Size;
use crate::workload::Workload;
use bench_cli::Fault;
use board_terms::{Moment, Notices, PortShape};
use std::alloc::{AllocError, Global};
use synic_board::msr::{EOI, EOM, SCONTROL, SIEFP, SIMP};
use synic_board::{Board, Event};

/// How many timers a processor has.
const TIMERS: u8 = 4;

/// The number of guest pages for overlays that move, and on a sparse board.
const PAGES: u8 = 64;

const SPARSE_PAGES: u16 = 256;

/// The number of guest pages for one overlay that stays.
const FEW_PAGES: u8 = 4;

/// The page of an overlay that stays.
const OVERLAY_PAGE: u8 = 1;

const BUFFERS: u8 = 2;

/// How many flags the event port has.
const FLAGS: u16 = 64;

/// The source of event flags and of timers.
const SOURCE: u8 = 2;

/// The sources of posts and of event flags where timers have one of their own.
const POST_SOURCE: u8 = 3;

const FLAG_SOURCE: u8 = 4;

const SOURCE_VECTOR: u8 = 0x50;

/// The vector of the first source or timer, below those of the others.
const FIRST_VECTOR: u8 = 0x40;

/// The period of the first timer for each processor, so that as many timers expire in a time on each
/// board. The others are longer.
const SHORTEST_PERIOD: u64 = 125;

/// The difference between the periods of one processor's timers and the next processor's.
const PERIOD_STEP: u64 = 10;

/// The bits of a timer's configuration: enabled and periodic.
const PERIODIC: u64 = 0x3;

/// The bit of a timer's configuration for direct mode.
const DIRECT: u64 = 0x1000;

/// The positions of the vector and the source in a timer's configuration, as factors.
const VECTOR_PLACE: u64 = 1 << 4;

const SOURCE_PLACE: u64 = 1 << 16;

/// The number of ticks in a round of dense ticks, and their distance.
const DENSE_TICKS: u64 = 64;

const DENSE_STEP: Moment = 50;

/// The distance of ticks for timer messages: a round is the shortest period.
const MESSAGE_STEP: Moment = 125;

/// The bytes that a guest stores into moving pages.
const STORED: [u8; 8] = [1, 2, 3, 4, 5, 6, 7, 8];

/// How many of them it loads: all.
const LOADED: u8 = 8;

/// The pages of a guest.
#[derive(Clone, Copy)]
pub(crate) enum Memory {
    /// On the board, as many.
    Held(u8),
    /// In the caller's memory; the events use the first pages, as many.
    Elsewhere(u16),
}

impl Memory {
    /// Pages on the board, or as many in the caller's memory.
    fn of(size: Size, pages: u8) -> Memory {
        if size.is_sparse() {
            Memory::Elsewhere(u16::from(pages))
        } else {
            Memory::Held(pages)
        }
    }

    /// How many pages in the caller's memory the events use.
    pub(crate) fn elsewhere(self) -> u16 {
        match self {
            Memory::Held(_) => 0,
            Memory::Elsewhere(pages) => pages,
        }
    }
}

/// A board's sizes, the untimed events, and the timed ones.
#[derive(Drop)]
pub(crate) struct Scene {
    processors: u8,
    pub(crate) memory: Memory,
    setup: Vec<Event>,
    /// The events that are repeated.
    pub(crate) round: Vec<Event>,
    /// How much later the ticks are in each next round.
    pub(crate) span: Moment,
}

impl Scene {
    /// The scene of a workload.
    pub(crate) fn of(alloc: Global, workload: Workload, size: Size) -> Result<Scene, AllocError> {
        match workload {
            Workload::Interrupts => interrupts(alloc, size),
            Workload::Messages => messages(alloc, size),
            Workload::Pages => pages(alloc, size),
            Workload::Flags => flags(alloc, size),
            Workload::Timers => timers(alloc, size),
            Workload::TimerMessages => timer_messages(alloc, size),
            Workload::Mixed => mixed(alloc, size),
        }
    }

    /// A board after the untimed events.
    pub(crate) fn open(&self, alloc: Global, notices: &mut Notices) -> Result<Board, Fault> {
        let mut board = match self.memory {
            Memory::Held(pages) => Board::open(alloc, self.processors, pages, 0)?,
            Memory::Elsewhere(_) => Board::open_sparse(alloc, self.processors, 0)?,
        };
        for event in &self.setup {
            let _ = board.perform(event, notices);
        }
        Ok(board)
    }
}

fn interrupts(alloc: Global, size: Size) -> Result<Scene, AllocError> {
    let processors = size.processors();
    let mut round = Vec::new(alloc);
    for _ in 0..size.turns() {
        for vp in 0..processors {
            round.push(assert_vector(vp))?;
            round.push(Event::Take { vp })?;
            round.push(write(vp, EOI, 0))?;
        }
    }
    Ok(Scene {
        processors,
        memory: Memory::of(size, 1),
        setup: Vec::new(alloc),
        round,
        span: 0,
    })
}

fn messages(alloc: Global, size: Size) -> Result<Scene, AllocError> {
    let processors = size.targets();
    let mut setup = Vec::new(alloc);
    let mut round = Vec::new(alloc);
    let shape = PortShape::Messages { buffers: BUFFERS };
    let mut port: u8 = 0;
    for vp in 0..processors {
        let page = OVERLAY_PAGE + vp;
        setup.push(write(vp, SCONTROL, ENABLE))?;
        setup.push(write(vp, SIMP, overlay_at(page)))?;
        for sint in 0..size.ports_of_target() {
            setup.push(write_source(vp, sint, FIRST_VECTOR + sint))?;
            setup.push(open_port(port, vp, sint, shape))?;
            round.push(post(port))?;
            round.push(empty_slot(page, sint))?;
            round.push(write(vp, EOM, 0))?;
            port = port.wrapping_add(1);
        }
    }
    Ok(Scene {
        processors,
        memory: Memory::of(size, FEW_PAGES),
        setup,
        round,
        span: 0,
    })
}

fn pages(alloc: Global, size: Size) -> Result<Scene, AllocError> {
    let processors = size.processors();
    let mut round = Vec::new(alloc);
    let mut page: u8 = 0;
    for _ in 0..size.moves() {
        for vp in 0..processors {
            let address = page as u64 * PAGE;
            round.push(write(vp, SIMP, overlay_at(page)))?;
            round.push(store(address, &STORED))?;
            round.push(Event::Load {
                address,
                length: LOADED,
            })?;
            page = page.wrapping_add(1);
        }
    }
    let memory = if size.is_sparse() {
        Memory::Elsewhere(SPARSE_PAGES)
    } else {
        Memory::Held(PAGES)
    };
    Ok(Scene {
        processors,
        memory,
        setup: Vec::new(alloc),
        round,
        span: 0,
    })
}

fn flags(alloc: Global, size: Size) -> Result<Scene, AllocError> {
    let processors = size.targets();
    let mut setup = Vec::new(alloc);
    let mut round = Vec::new(alloc);
    let shape = PortShape::Flags {
        base: 0,
        count: FLAGS,
    };
    for vp in 0..processors {
        let page = OVERLAY_PAGE + vp;
        setup.push(write(vp, SCONTROL, ENABLE))?;
        setup.push(write(vp, SIEFP, overlay_at(page)))?;
        setup.push(write_source(vp, SOURCE, SOURCE_VECTOR))?;
        setup.push(open_port(vp, vp, SOURCE, shape))?;
        for flag in 0..FLAGS {
            round.push(Event::Signal { port: vp, flag })?;
        }
        round.push(clear_flags(page, SOURCE))?;
    }
    Ok(Scene {
        processors,
        memory: Memory::of(size, FEW_PAGES),
        setup,
        round,
        span: 0,
    })
}

fn timers(alloc: Global, size: Size) -> Result<Scene, AllocError> {
    let processors = size.processors();
    let mut setup = Vec::new(alloc);
    let mut round = Vec::new(alloc);
    for vp in 0..processors {
        for index in 0..TIMERS {
            let vector = (FIRST_VECTOR + index) as u64;
            let config = PERIODIC + DIRECT + VECTOR_PLACE * vector;
            setup.push(write_timer_count(vp, index, period(processors, vp, index)))?;
            setup.push(write_timer_config(vp, index, config))?;
        }
    }
    for number in 1..=DENSE_TICKS {
        let moment = DENSE_STEP * number;
        round.push(Event::Tick { moment })?;
    }
    Ok(Scene {
        processors,
        memory: Memory::of(size, 1),
        setup,
        round,
        span: DENSE_STEP * DENSE_TICKS,
    })
}

/// All timers of a processor send messages to one source, as guests configure them: three of four
/// messages wait.
fn timer_messages(alloc: Global, size: Size) -> Result<Scene, AllocError> {
    let processors = size.processors();
    let mut setup = Vec::new(alloc);
    let mut round = Vec::new(alloc);
    for vp in 0..processors {
        set_up_timer_messages(processors, vp, &mut setup)?;
    }
    let mut ticks: u8 = 0;
    for _ in 0..size.turns() {
        for vp in 0..processors {
            ticks = ticks.wrapping_add(1);
            let moment = MESSAGE_STEP * ticks as u64;
            round.push(Event::Tick { moment })?;
            for _ in 0..TIMERS {
                round.push(empty_slot(vp, SOURCE))?;
                round.push(write(vp, EOM, 0))?;
            }
        }
    }
    Ok(Scene {
        processors,
        memory: Memory::of(size, processors),
        setup,
        round,
        span: MESSAGE_STEP * ticks as u64,
    })
}

fn set_up_timer_messages(processors: u8, vp: u8, setup: &mut Vec<Event>) -> Result<(), AllocError> {
    setup.push(write(vp, SCONTROL, ENABLE))?;
    setup.push(write(vp, SIMP, overlay_at(vp)))?;
    setup.push(write_source(vp, SOURCE, SOURCE_VECTOR))?;
    for index in 0..TIMERS {
        let config = PERIODIC + SOURCE_PLACE * SOURCE as u64;
        setup.push(write_timer_count(vp, index, period(processors, vp, index)))?;
        setup.push(write_timer_config(vp, index, config))?;
    }
    Ok(())
}

/// Each processor has a message page, an event flags page that moves back and forth, a message
/// port, an event port, a timer in direct mode and one that sends messages.
fn mixed(alloc: Global, size: Size) -> Result<Scene, AllocError> {
    let processors = size.processors();
    let mut setup = Vec::new(alloc);
    let mut round = Vec::new(alloc);
    for vp in 0..processors {
        set_up_mixed(processors, vp, &mut setup)?;
    }
    let mut ticks: u8 = 0;
    for _ in 0..size.turns() {
        for vp in 0..processors {
            ticks = ticks.wrapping_add(1);
            let moment = MESSAGE_STEP * ticks as u64;
            interrupt_mixed(processors, vp, moment, &mut round)?;
            store_mixed(size, vp, &mut round)?;
        }
    }
    Ok(Scene {
        processors,
        memory: Memory::of(size, 3 * processors),
        setup,
        round,
        span: MESSAGE_STEP * ticks as u64,
    })
}

fn set_up_mixed(processors: u8, vp: u8, setup: &mut Vec<Event>) -> Result<(), AllocError>
    requires on_board { vp < 64 }
    requires bound { processors ≤ 64 }
{
    let messages = PortShape::Messages { buffers: BUFFERS };
    let flags = PortShape::Flags {
        base: 0,
        count: FLAGS,
    };
    setup.push(write(vp, SCONTROL, ENABLE))?;
    setup.push(write(vp, SIMP, overlay_at(vp)))?;
    setup.push(write(vp, SIEFP, overlay_at(processors + vp)))?;
    for source in [SOURCE, POST_SOURCE, FLAG_SOURCE] {
        setup.push(write_source(vp, source, SOURCE_VECTOR + source))?;
    }
    setup.push(open_port(vp, vp, POST_SOURCE, messages))?;
    setup.push(open_port(processors + vp, vp, FLAG_SOURCE, flags))?;
    let direct = PERIODIC + DIRECT + VECTOR_PLACE * FIRST_VECTOR as u64;
    let posted = PERIODIC + SOURCE_PLACE * SOURCE as u64;
    setup.push(write_timer_count(vp, 0, period(processors, vp, 0)))?;
    setup.push(write_timer_config(vp, 0, direct))?;
    setup.push(write_timer_count(vp, 1, period(processors, vp, 1)))?;
    setup.push(write_timer_config(vp, 1, posted))?;
    Ok(())
}

/// The clock moves, a device interrupts, a message is posted, and a flag is signalled; after each,
/// a vector is taken and ended.
fn interrupt_mixed(
    processors: u8,
    vp: u8,
    moment: Moment,
    round: &mut Vec<Event>,
) -> Result<(), AllocError>
    requires on_board { vp < 64 }
    requires bound { processors ≤ 64 }
{
    let port = processors + vp;
    let signal = Event::Signal { port, flag: 0 };
    for cause in [Event::Tick { moment }, assert_vector(vp), post(vp), signal] {
        round.push(cause)?;
        round.push(Event::Take { vp })?;
        round.push(write(vp, EOI, 0))?;
    }
    Ok(())
}

/// Consumes the messages, clears the flag, and moves the event flags page away and back. In between
/// the guest loads from the page that it left, or from the one that it reached if the board is sparse.
fn store_mixed(size: Size, vp: u8, round: &mut Vec<Event>) -> Result<(), AllocError>
    requires { vp < 64 }
{
    let page = size.processors() + vp;
    let other = size.processors() + page;
    for source in [SOURCE, POST_SOURCE] {
        round.push(empty_slot(vp, source))?;
        round.push(write(vp, EOM, 0))?;
    }
    round.push(clear_flags(page, FLAG_SOURCE))?;
    round.push(write(vp, SIEFP, overlay_at(other)))?;
    let loaded = if size.is_sparse() { other } else { page };
    round.push(Event::Load {
        address: loaded as u64 * PAGE,
        length: LOADED,
    })?;
    round.push(write(vp, SIEFP, overlay_at(page)))?;
    Ok(())
}

/// The value of SIMP or SIEFP that enables an overlay at a page.
fn overlay_at(page: u8) -> u64 {
    page as u64 * PAGE + ENABLE
}

/// The period of a timer, different for each.
fn period(processors: u8, vp: u8, index: u8) -> u64 {
    SHORTEST_PERIOD * processors as u64 + PERIOD_STEP * vp as u64 + index as u64
}
