// Calls of posted words with concrete values, in one thread and in several.
ghost use Rattle.std.specs.Prelude.{◌≡◌, ◌*◌, ◌<◌, ◌≤◌, All, IfSome, length};
ghost use Rattle.posted_words.specs.Words.{IsOf};

use board_terms::{Vector, Vp};
use posted_words::{GatherFault, Line, PostedFault, PostedWords, Raised, Standing, Sweeper};
use std::alloc::{AllocError, Global};
use std::test::Fail;
use std::thread::{Threads, join};

/// Words with their tokens.
fn opened(
    alloc: Global,
    processors: u8,
    sweepers: u8,
    lines: u8,
) -> Option<(PostedWords, Vec<Sweeper>, Vec<Line>)>
    ensures processors { IfSome result (λ r. r.0.processors ≡ processors) }
    ensures sweepers { IfSome result (λ r. All (IsOf r.0.name) r.1.items) }
    ensures lines { IfSome result (λ r. All (IsOf r.0.name) r.2.items) }
{
    match PostedWords::open(alloc, processors, sweepers, lines) {
        Ok(opened) => Some(opened),
        Err(_) => None,
    }
}

/// Takes a token of some words out of a list.
fn take(words: &PostedWords, tokens: &mut Vec<Line>) -> Option<Line>
    requires { All (IsOf words.now.name) tokens.old.items }
    ensures taken { IfSome result (IsOf words.now.name) }
    ensures others { All (IsOf words.now.name) tokens.new.items }
{
    tokens.pop()
}

/// Puts the token back into the list.
fn put(words: &PostedWords, tokens: &mut Vec<Line>, token: Line) -> Result<(), AllocError>
    requires others { All (IsOf words.now.name) tokens.old.items }
    requires token { IsOf words.now.name token }
    ensures { All (IsOf words.now.name) tokens.new.items }
{
    tokens.push(token)?;
    Ok(())
}

/// Raises each vector of each processor, and returns how many were fresh.
fn raise_all(words: &PostedWords, mut line: Line) -> (Line, u64)
    requires { IsOf words.now.name line }
    ensures { IsOf words.now.name result.0 }
{
    let mut fresh = 0u64;
    for vp in 0..words.processors() {
        for number in 16..256u16 {
            let vector = Vector::new(number as u8).unwrap();
            if words.raise(&mut line, Vp::new(vp).unwrap(), vector) == Raised::Fresh {
                fresh = fresh.saturating_add(1);
            }
        }
    }
    (line, fresh)
}

/// Sweeps each word of each processor `times` times, and returns how many bits it took.
fn sweep_all(words: &PostedWords, mut sweeper: Sweeper, times: u32) -> (Sweeper, u64)
    requires { IsOf words.now.name sweeper }
    ensures { IsOf words.now.name result.0 }
{
    let mut taken = 0u64;
    for _ in 0..times {
        for vp in 0..words.processors() {
            for part in 0..4 {
                let bits = words.sweep(&mut sweeper, Vp::new(vp).unwrap(), part);
                taken = taken.saturating_add(u64::from(bits.count_ones()));
            }
        }
    }
    (sweeper, taken)
}

/// How many bits are set.
fn count_standing(standing: &Standing, processors: u8) -> u64
    requires words { length standing.now ≡ 4 * processors }
    requires bound { processors ≤ 8 }
{
    let mut count = 0u64;
    for vp in 0..processors {
        for part in 0..4 {
            let bits = standing.word(Vp::new(vp).unwrap(), part);
            count = count.saturating_add(u64::from(bits.count_ones()));
        }
    }
    count
}

#[test]
fn a_vector_is_fresh_until_it_is_swept(rt: HostRuntime) -> Result<(), Fail> {
    let Some((words, mut sweepers, mut lines)) = opened(rt.alloc(), 1, 1, 2) else {
        panic!(rt; "memory")
    };
    let (Some(mut sweeper), Some(mut line), Some(mut other)) = (
        take(&words, &mut sweepers),
        take(&words, &mut lines),
        take(&words, &mut lines),
    ) else {
        panic!(rt; "no token")
    };
    // README posted_words: begin
    let (vp, vector) = (Vp::new(0).unwrap(), Vector::new(0x60).unwrap());
    assert_eq!(rt; words.raise(&mut line, vp, vector), Raised::Fresh);
    assert_eq!(rt; words.raise(&mut line, vp, vector), Raised::Already);
    assert_eq!(rt; words.raise(&mut other, vp, vector), Raised::Already);
    assert_eq!(rt; words.sweep(&mut sweeper, vp, 1), 1 << 32);
    assert_eq!(rt; words.sweep(&mut sweeper, vp, 1), 0);
    assert_eq!(rt; words.raise(&mut other, vp, vector), Raised::Fresh);
    // README posted_words: end
    Ok(())
}

/// Whether a raise of a vector of processor 1 is fresh, and sweeps of all words then take exactly
/// its bit.
fn lands_alone(words: &PostedWords, line: &mut Line, sweeper: &mut Sweeper, vector: Vector) -> bool
    requires line { IsOf words.now.name line.old }
    requires sweeper { IsOf words.now.name sweeper.old }
    requires two { words.now.processors ≡ 2 }
    ensures line { IsOf words.now.name line.new }
    ensures sweeper { IsOf words.now.name sweeper.new }
{
    let (vp, other) = (Vp::new(1).unwrap(), Vp::new(0).unwrap());
    let mut alone = words.raise(line, vp, vector) == Raised::Fresh;
    for part in 0..4 {
        let number = vector.number();
        let bit = if part == number / 64 {
            1 << (number % 64)
        } else {
            0
        };
        alone &= words.sweep(sweeper, vp, part) == bit;
        alone &= words.sweep(sweeper, other, part) == 0;
    }
    alone
}

/// The first vector for which this does not hold.
fn strays(words: &PostedWords, line: &mut Line, sweeper: &mut Sweeper) -> Option<Vector>
    requires line { IsOf words.now.name line.old }
    requires sweeper { IsOf words.now.name sweeper.old }
    requires two { words.now.processors ≡ 2 }
{
    for number in 16..256u16 {
        let vector = Vector::new(number as u8).unwrap();
        if !lands_alone(words, line, sweeper, vector) {
            return Some(vector);
        }
    }
    None
}

#[test]
fn each_vector_has_a_bit_of_its_own(rt: HostRuntime) -> Result<(), Fail> {
    let Some((words, mut sweepers, mut lines)) = opened(rt.alloc(), 2, 1, 1) else {
        panic!(rt; "memory")
    };
    let (Some(mut sweeper), Some(mut line)) = (
        take(&words, &mut sweepers),
        take(&words, &mut lines),
    ) else {
        panic!(rt; "no token")
    };
    assert_eq!(rt; strays(&words, &mut line, &mut sweeper), None);
    Ok(())
}

/// Two lines raise all vectors, each in a thread of its own.
fn raise_in_two<R: Threads + Sync>(
    rt: &R,
    words: &PostedWords,
    one: Line,
    other: Line,
) -> ((Line, u64), (Line, u64))
    requires one { IsOf words.now.name one }
    requires other { IsOf words.now.name other }
    ensures one { IsOf words.now.name result.0.0 }
    ensures other { IsOf words.now.name result.1.0 }
{
    join(
        rt,
        move || raise_all(words, one),
        move || raise_all(words, other),
    )
}

/// A line raises all vectors while a sweeper sweeps all words, each in a thread of its own.
fn raise_and_sweep<R: Threads + Sync>(
    rt: &R,
    words: &PostedWords,
    line: Line,
    sweeper: Sweeper,
) -> ((Line, u64), (Sweeper, u64))
    requires line { IsOf words.now.name line }
    requires sweeper { IsOf words.now.name sweeper }
    ensures line { IsOf words.now.name result.0.0 }
    ensures sweeper { IsOf words.now.name result.1.0 }
{
    join(
        rt,
        move || raise_all(words, line),
        move || sweep_all(words, sweeper, 20),
    )
}

#[test]
fn what_threads_raise_is_taken_or_stands(rt: HostRuntime) -> Result<(), Fail> {
    let Some((words, mut sweepers, mut lines)) = opened(rt.alloc(), 8, 1, 3) else {
        panic!(rt; "memory")
    };
    let (Some(sweeper), Some(one), Some(two), Some(three)) = (
        take(&words, &mut sweepers),
        take(&words, &mut lines),
        take(&words, &mut lines),
        take(&words, &mut lines),
    ) else {
        panic!(rt; "no token")
    };
    let (runtime, shared) = (&rt, &words);
    let ((first, second), (third, swept)) = join(
        &rt,
        move || raise_in_two(runtime, shared, one, two),
        move || raise_and_sweep(runtime, shared, three, sweeper),
    );
    put(&words, &mut lines, first.0)?;
    put(&words, &mut lines, second.0)?;
    put(&words, &mut lines, third.0)?;
    put(&words, &mut sweepers, swept.0)?;
    let fresh = first.1.saturating_add(second.1).saturating_add(third.1);
    // Each vector of each processor was fresh at least once.
    assert!(rt; fresh >= 8 * 240);
    match words.gather(sweepers, lines) {
        Ok(standing) => {
            let count = swept.1.saturating_add(count_standing(&standing, 8));
            assert_eq!(rt; fresh, count);
        }
        Err(fault) => panic!(rt; "{fault}"),
    }
    Ok(())
}

/// Raises one vector in each of 32 words: bit `32 + place` of part `place % 4` of processor
/// `place / 4`.
fn raise_at_each_place(words: &PostedWords, line: &mut Line)
    requires own { IsOf words.now.name line.old }
    requires eight { words.now.processors ≡ 8 }
    ensures { IsOf words.now.name line.new }
{
    for place in 0..32u8 {
        let vector = Vector::new(64 * (place % 4) + 32 + place).unwrap();
        words.raise(line, Vp::new(place / 4).unwrap(), vector);
    }
}

#[test]
fn each_word_that_stands_is_read(rt: HostRuntime) -> Result<(), Fail> {
    let Some((words, sweepers, mut lines)) = opened(rt.alloc(), 8, 1, 1) else {
        panic!(rt; "memory")
    };
    let Some(mut line) = take(&words, &mut lines) else {
        panic!(rt; "no token")
    };
    raise_at_each_place(&words, &mut line);
    put(&words, &mut lines, line)?;
    match words.gather(sweepers, lines) {
        Ok(standing) => {
            for place in 0..32u8 {
                let bits = standing.word(Vp::new(place / 4).unwrap(), place % 4);
                assert_eq!(rt; bits, 1 << (32 + place), "at {place}");
            }
        }
        Err(fault) => panic!(rt; "{fault}"),
    }
    Ok(())
}

/// Drops all but that many tokens.
fn keep(words: &PostedWords, tokens: &mut Vec<Line>, count: usize)
    requires { All (IsOf words.now.name) tokens.old.items }
    ensures { All (IsOf words.now.name) tokens.new.items }
{
    tokens.truncate(count);
}

#[test]
fn a_missing_token_is_told(rt: HostRuntime) {
    let missing = Some(GatherFault::Missing);
    for (there, expected) in [
        ((2, 2), None),
        ((1, 2), missing),
        ((2, 1), missing),
        ((0, 2), missing),
        ((2, 0), missing),
        ((0, 0), missing),
    ] {
        let Some((words, mut sweepers, mut lines)) = opened(rt.alloc(), 1, 2, 2) else {
            panic!(rt; "memory")
        };
        keep(&words, &mut sweepers, there.0);
        keep(&words, &mut lines, there.1);
        let fault = words.gather(sweepers, lines).err();
        assert_eq!(rt; fault, expected);
    }
}

/// Sizes, and whether words of these sizes can be opened.
const SIZES: [(u8, u8, u8, bool); 9] = [
    (0, 1, 1, false),
    (65, 1, 1, false),
    (1, 0, 1, false),
    (1, 17, 1, false),
    (1, 1, 17, false),
    (255, 255, 255, false),
    (1, 1, 0, true),
    (8, 16, 16, true),
    (64, 16, 16, true),
];

/// The processors of the words, and the numbers of sweepers and lines.
fn sizes(
    alloc: Global,
    processors: u8,
    sweepers: u8,
    lines: u8,
) -> Result<(u8, usize, usize), PostedFault> {
    match PostedWords::open(alloc, processors, sweepers, lines) {
        Ok((words, sweepers, lines)) => Ok((words.processors(), sweepers.len(), lines.len())),
        Err(fault) => Err(fault),
    }
}

#[test]
fn sizes_are_checked(rt: HostRuntime) {
    for (processors, sweepers, lines, opens) in SIZES {
        let expected = if opens {
            Ok((processors, sweepers as usize, lines as usize))
        } else {
            Err(PostedFault::BadSize)
        };
        assert_eq!(rt; sizes(rt.alloc(), processors, sweepers, lines), expected);
    }
}
