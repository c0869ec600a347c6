// One thread for each worker.
ghost use Rattle.std.specs.Prelude.{◌≡◌, ◌∷◌, ◌<◌, ◌≤◌, ◌+◌, ℕ, List, IfOk, Ok, All, map, length, vec_len, Vec};
ghost use Rattle.std.specs.Global.{Global};
ghost use Rattle.posted_words.specs.Words.{Token};
ghost use Rattle.posted_words.specs.declared.line.Raised.{Raised};
ghost use Rattle.board_threads.specs.declared.script.Step.{Step};
ghost use Rattle.std.specs.List.{AllZip};
ghost use Rattle.std.specs.Thread.{IsSync};
ghost use Rattle.atomic_table.specs.Seated.{TableId};
ghost use Rattle.board_threads.specs.inside.Work.{IsNewActor, IsNewLine, IsThere, HasActed, HasRaised, HaveRun};

use crate::actor::Actor;
use crate::fault::WorkFault;
use crate::gate::{Gate, Worker};
use crate::origin::Origin;
use crate::recorded_board::RecordedBoard;
use crate::script::{Scripts, Step};
use crate::workers::{act, raise};
use board_terms::{Vector, Vp};
use posted_words::{Line, Raised};
use std::alloc::Global;
use std::sync::Wait;
use std::thread;
use std::thread::{Promise, PromisedHandle, Scope, Threads};

/// The result of an actor's thread: the actor, after its script.
#[derive(Drop)]
pub(crate) struct Acts<'a, S: Origin> {
    board: &'a RecordedBoard<S>,
    number: u8,
    script: &'a [Step],
}

impl<'a, S: Origin> Promise<Result<Actor, WorkFault>> for Acts<'a, S> {
    ghost use Rattle.std.specs.Prelude.{IfOk};
    ghost use Rattle.board_threads.specs.inside.Work.{HasActed};

    ghost kept_by = { λ p r. IfOk r (HasActed p.board.now.name p.number p.script.now) };
}

/// The result of a line's thread: the line, after its raises, and their results.
#[derive(Drop)]
pub(crate) struct Raises<'a, S: Origin> {
    board: &'a RecordedBoard<S>,
    script: &'a [(Vp, Vector)],
}

impl<'a, S: Origin> Promise<Result<(Line, Vec<Raised>), WorkFault>> for Raises<'a, S> {
    ghost use Rattle.std.specs.Prelude.{IfOk};
    ghost use Rattle.board_threads.specs.inside.Work.{HasRaised};

    ghost kept_by = { λ p r. IfOk r (λ x. HasRaised p.board.now.name p.script.now x.0 x.1.items) };
}

/// The results of all threads, in the order in which they were started.
fn join_all<R: Threads, T: Drop, P: Promise<Result<T, WorkFault>>>(
    rt: &R,
    alloc: Global,
    handles: Vec<PromisedHandle<Result<T, WorkFault>, P>>,
) -> Result<Vec<T>, WorkFault>
    ensures { IfOk result (λ v. AllZip (λ h t. P.kept_by h.promise (Ok t)) handles.items v.items) }
{
    let mut all = Vec::new(alloc);
    for handle in handles {
        if all.reserve(1).is_err() {
            return Err(WorkFault::Memory);
        }
        all.push_reserved(handle.join(rt)?);
    }
    Ok(all)
}

/// A started thread of an actor.
type ActingThread<'s, S> = PromisedHandle<Result<Actor, WorkFault>, Acts<'s, S>>;

/// A started thread of a line.
type RaisingThread<'s, S> = PromisedHandle<Result<(Line, Vec<Raised>), WorkFault>, Raises<'s, S>>;

/// Starts the thread of an actor.
fn start_actor<'s, E, S: Origin, R: Threads + Wait + Sync, G: Gate + Sync>(
    rt: &'s R,
    scope: &Scope<'s, E>,
    board: &'s RecordedBoard<S>,
    gate: &'s G,
    actor: Actor,
    script: &'s [Step],
) -> Result<ActingThread<'s, S>, WorkFault>
    requires new { IsNewActor board.now.name actor }
    ensures { IfOk result (λ h. (h.promise.board.now ≡ board.now) × (h.promise.number ≡ actor.number)
        × (h.promise.script.now ≡ script.now)) }
{
    let promise = Acts {
        board,
        number: actor.number(),
        script,
    };
    let started = scope.spawn_with(
        promise,
        move || -> Result<Actor, WorkFault>
            requires { IsSync R.row × IsSync G.row × IsNewActor board.now.name actor }
            ensures { IfOk result (HasActed board.entry.now.name actor.number script.entry.now) }
        { act(rt, board, gate, actor, script) },
    );
    match started {
        Ok(thread) => Ok(thread),
        Err(_) => Err(WorkFault::NoThread),
    }
}

/// Starts the thread of a line.
fn start_line<'s, E, S: Origin, R: Threads + Wait + Sync, G: Gate + Sync>(
    rt: &'s R,
    alloc: Global,
    scope: &Scope<'s, E>,
    board: &'s RecordedBoard<S>,
    gate: &'s G,
    number: u8,
    line: Line,
    script: &'s [(Vp, Vector)],
) -> Result<RaisingThread<'s, S>, WorkFault>
    requires new { IsNewLine board.now.name line }
    requires there { IsThere board.now.processors script.now }
    ensures { IfOk result (λ h. (h.promise.board.now ≡ board.now) × (h.promise.script.now ≡ script.now)) }
{
    let who = Worker::Raises(number);
    let started = scope.spawn_with(
        Raises { board, script },
        move || -> Result<(Line, Vec<Raised>), WorkFault>
            requires { IsSync R.row × IsSync G.row × IsNewLine board.now.name line
                × IsThere board.now.processors script.now }
            ensures { IfOk result (λ x. HasRaised board.entry.now.name script.entry.now x.0 x.1.items) }
        { raise(rt, alloc, board, gate, who, line, script) },
    );
    match started {
        Ok(thread) => Ok(thread),
        Err(_) => Err(WorkFault::NoThread),
    }
}

/// Starts a thread for each actor, with the script at its index.
fn start_actors<'s, E, S: Origin, R: Threads + Wait + Sync, G: Gate + Sync>(
    rt: &'s R,
    alloc: Global,
    scope: &Scope<'s, E>,
    board: &'s RecordedBoard<S>,
    gate: &'s G,
    actors: Vec<Actor>,
    scripts: &'s [Vec<Step>],
) -> Result<Vec<ActingThread<'s, S>>, WorkFault>
    requires new { All (IsNewActor board.now.name) actors.items }
    requires each { vec_len actors ≡ length scripts.now }
    ensures numbers { IfOk result (λ v. map (λ h. h.promise.number) v.items ≡ map (λ a. a.number) actors.items) }
    ensures scripts { IfOk result
        (λ v. map {B = TableId × List Step} (λ h. (h.promise.board.now.name, h.promise.script.now)) v.items
        ≡ map {B = TableId × List Step} (λ s. (board.now.name, s.items)) scripts.now) }
{
    let mut threads = Vec::new(alloc);
    let mut index = 0;
    for actor in actors {
        if threads.reserve(1).is_err() {
            return Err(WorkFault::Memory);
        }
        let script = scripts[index].as_slice();
        threads.push_reserved(start_actor(rt, scope, board, gate, actor, script)?);
        index += 1;
    }
    Ok(threads)
}

/// Starts a thread for each line, with the script at its index. The gate sees the lines by their numbers,
/// from `first` on.
fn start_lines<'s, E, S: Origin, R: Threads + Wait + Sync, G: Gate + Sync>(
    rt: &'s R,
    alloc: Global,
    scope: &Scope<'s, E>,
    board: &'s RecordedBoard<S>,
    gate: &'s G,
    first: u8,
    lines: Vec<Line>,
    scripts: &'s [Vec<(Vp, Vector)>],
) -> Result<Vec<RaisingThread<'s, S>>, WorkFault>
    requires new { All (IsNewLine board.now.name) lines.items }
    requires each { vec_len lines ≡ length scripts.now }
    requires bound { first + length scripts.now ≤ 16 }
    requires there { All (λ (s : Vec (ℕ × ℕ) Global). IsThere board.now.processors s.items) scripts.now }
    ensures scripts { IfOk result
        (λ v. map {B = TableId × List (ℕ × ℕ)} (λ h. (h.promise.board.now.name, h.promise.script.now)) v.items
        ≡ map {B = TableId × List (ℕ × ℕ)} (λ s. (board.now.name, s.items)) scripts.now) }
{
    let mut threads = Vec::new(alloc);
    let mut index = 0u8;
    for line in lines {
        if threads.reserve(1).is_err() {
            return Err(WorkFault::Memory);
        }
        let script = scripts[usize::from(index)].as_slice();
        let number = first + index;
        threads.push_reserved(start_line(rt, alloc, scope, board, gate, number, line, script)?);
        index += 1;
    }
    Ok(threads)
}

/// The actors, and the lines with the answers to their raises.
type Ran = (Vec<Actor>, Vec<(Line, Vec<Raised>)>);

/// Runs each script of the actors and of the lines, concurrently, and waits for all of them: the first one in
/// the caller's thread, each other in a thread of its own. If a thread cannot be started, the threads that run
/// are joined first.
pub(crate) fn run_all<S: Origin, R: Threads + Wait + Sync, G: Gate + Sync>(
    rt: &R,
    alloc: Global,
    board: &RecordedBoard<S>,
    gate: &G,
    scripts: &Scripts,
    actors: Vec<Actor>,
    lines: Vec<Line>,
) -> Result<Ran, WorkFault>
    requires new_actors { All (IsNewActor board.now.name) actors.items }
    requires new_lines { All (IsNewLine board.now.name) lines.items }
    requires each_actor { vec_len actors ≡ vec_len scripts.now.actors }
    requires each_line { vec_len lines ≡ vec_len scripts.now.lines }
    requires bound { vec_len scripts.now.lines ≤ 16 }
    requires there { All (λ (s : Vec (ℕ × ℕ) Global). IsThere board.now.processors s.items) scripts.now.lines.items }
    ensures { IfOk result (λ r.
        HaveRun board.now.name scripts.now.actors.items scripts.now.lines.items actors.items r.0.items r.1.items) }
{
    let raises = scripts.lines.as_slice();
    match scripts.actors.as_slice() {
        [own, acts @ ..] => {
            run_with_actor(rt, alloc, board, gate, own, acts, raises, actors, lines)
        }
        [] => {
            let ran = run_lines(rt, alloc, board, gate, raises, lines)?;
            Ok((actors, ran))
        }
    }
}

/// Runs the scripts of the lines where there are no actors, that of line 0 in the caller's thread.
fn run_lines<S: Origin, R: Threads + Wait + Sync, G: Gate + Sync>(
    rt: &R,
    alloc: Global,
    board: &RecordedBoard<S>,
    gate: &G,
    scripts: &[Vec<(Vp, Vector)>],
    lines: Vec<Line>,
) -> Result<Vec<(Line, Vec<Raised>)>, WorkFault>
    requires new { All (IsNewLine board.now.name) lines.items }
    requires each { vec_len lines ≡ length scripts.now }
    requires bound { length scripts.now ≤ 16 }
    requires there { All (λ (s : Vec (ℕ × ℕ) Global). IsThere board.now.processors s.items) scripts.now }
    ensures { IfOk result (λ v.
        AllZip (λ (s : Vec (ℕ × ℕ) Global)
        (x : Token × Vec Raised Global). HasRaised board.now.name s.items x.0 x.1.items) scripts.now v.items) }
{
    match scripts {
        [own, raises @ ..] => run_with_line(rt, alloc, board, gate, own, raises, lines),
        [] => Ok(Vec::new(alloc)),
    }
}

/// Runs the script of the first actor in the caller's thread, while all others run in theirs.
fn run_with_actor<S: Origin, R: Threads + Wait + Sync, G: Gate + Sync>(
    rt: &R,
    alloc: Global,
    board: &RecordedBoard<S>,
    gate: &G,
    own: &Vec<Step>,
    acts: &[Vec<Step>],
    raises: &[Vec<(Vp, Vector)>],
    mut actors: Vec<Actor>,
    lines: Vec<Line>,
) -> Result<Ran, WorkFault>
    requires new_actors { All (IsNewActor board.now.name) actors.items }
    requires new_lines { All (IsNewLine board.now.name) lines.items }
    requires each_actor { vec_len actors ≡ length acts.now + 1 }
    requires each_line { vec_len lines ≡ length raises.now }
    requires bound { length raises.now ≤ 16 }
    requires there { All (λ (s : Vec (ℕ × ℕ) Global). IsThere board.now.processors s.items) raises.now }
    ensures { IfOk result (λ r.
        HaveRun board.now.name (own.now ∷ acts.now) raises.now actors.items r.0.items r.1.items) }
{
    let Ok(others) = actors.split_off(1) else {
        return Err(WorkFault::Memory);
    };
    let Some(first) = actors.pop() else {
        unreachable!()
    };
    let (first, mut others, ran) = act_beside(
        rt, alloc, board, gate, own, acts, raises, first, others, lines,
    )?;
    if actors.push(first).is_err() || actors.append(&mut others).is_err() {
        return Err(WorkFault::Memory);
    }
    Ok((actors, ran))
}

/// Starts a thread for each other actor and each line, runs the script of the first actor, and waits for them.
fn act_beside<S: Origin, R: Threads + Wait + Sync, G: Gate + Sync>(
    rt: &R,
    alloc: Global,
    board: &RecordedBoard<S>,
    gate: &G,
    own: &Vec<Step>,
    acts: &[Vec<Step>],
    raises: &[Vec<(Vp, Vector)>],
    first: Actor,
    others: Vec<Actor>,
    lines: Vec<Line>,
) -> Result<(Actor, Vec<Actor>, Vec<(Line, Vec<Raised>)>), WorkFault>
    requires new_first { IsNewActor board.now.name first }
    requires new_others { All (IsNewActor board.now.name) others.items }
    requires new_lines { All (IsNewLine board.now.name) lines.items }
    requires each_other { vec_len others ≡ length acts.now }
    requires each_line { vec_len lines ≡ length raises.now }
    requires bound { length raises.now ≤ 16 }
    requires there { All (λ (s : Vec (ℕ × ℕ) Global). IsThere board.now.processors s.items) raises.now }
    ensures { IfOk result (λ r. HasActed board.now.name first.number own.now.items r.0
        × HaveRun board.now.name acts.now raises.now others.items r.1.items r.2.items) }
{
    thread::scope(
        thread::scope_env(),
        rt,
        move |scope| -> Result<(Actor, Vec<Actor>, Vec<(Line, Vec<Raised>)>), WorkFault>
            requires { IsNewActor board.now.name first × All (IsNewActor board.now.name) others.items
                × All (IsNewLine board.now.name) lines.items
                × (vec_len others ≡ length acts.now) × (vec_len lines ≡ length raises.now) × (length raises.now ≤ 16)
                × All (λ (s : Vec (ℕ × ℕ) Global). IsThere board.now.processors s.items) raises.now }
            ensures { IfOk result (λ r. HasActed board.entry.now.name first.number own.entry.now.items r.0
                × HaveRun board.entry.now.name acts.entry.now raises.entry.now others.items r.1.items r.2.items) }
        {
            let acting = start_actors(rt, alloc, scope, board, gate, others, acts)?;
            let raising = start_lines(rt, alloc, scope, board, gate, 0, lines, raises)?;
            let first = act(rt, board, gate, first, own.as_slice())?;
            let others = join_all(rt, alloc, acting)?;
            let lines = join_all(rt, alloc, raising)?;
            Ok((first, others, lines))
        },
    )
}

/// Runs the script of line 0 in the caller's thread, while all other lines run in theirs.
fn run_with_line<S: Origin, R: Threads + Wait + Sync, G: Gate + Sync>(
    rt: &R,
    alloc: Global,
    board: &RecordedBoard<S>,
    gate: &G,
    own: &Vec<(Vp, Vector)>,
    raises: &[Vec<(Vp, Vector)>],
    mut lines: Vec<Line>,
) -> Result<Vec<(Line, Vec<Raised>)>, WorkFault>
    requires new { All (IsNewLine board.now.name) lines.items }
    requires each { vec_len lines ≡ length raises.now + 1 }
    requires bound { length raises.now ≤ 15 }
    requires own_there { IsThere board.now.processors own.now.items }
    requires there { All (λ (s : Vec (ℕ × ℕ) Global). IsThere board.now.processors s.items) raises.now }
    ensures { IfOk result (λ v.
        AllZip (λ (s : Vec (ℕ × ℕ) Global)
        (x : Token × Vec Raised Global). HasRaised board.now.name s.items x.0 x.1.items)
        (own.now ∷ raises.now) v.items) }
{
    let Ok(others) = lines.split_off(1) else {
        return Err(WorkFault::Memory);
    };
    let Some(first) = lines.pop() else {
        unreachable!()
    };
    let (first, mut others) = raise_beside(rt, alloc, board, gate, own, raises, first, others)?;
    let mut ran = Vec::new(alloc);
    if ran.push(first).is_err() || ran.append(&mut others).is_err() {
        return Err(WorkFault::Memory);
    }
    Ok(ran)
}

/// Starts a thread for each other line, runs the script of the first line, and waits for them.
fn raise_beside<S: Origin, R: Threads + Wait + Sync, G: Gate + Sync>(
    rt: &R,
    alloc: Global,
    board: &RecordedBoard<S>,
    gate: &G,
    own: &Vec<(Vp, Vector)>,
    raises: &[Vec<(Vp, Vector)>],
    first: Line,
    others: Vec<Line>,
) -> Result<((Line, Vec<Raised>), Vec<(Line, Vec<Raised>)>), WorkFault>
    requires new_first { IsNewLine board.now.name first }
    requires new_others { All (IsNewLine board.now.name) others.items }
    requires each { vec_len others ≡ length raises.now }
    requires bound { length raises.now ≤ 15 }
    requires own_there { IsThere board.now.processors own.now.items }
    requires there { All (λ (s : Vec (ℕ × ℕ) Global). IsThere board.now.processors s.items) raises.now }
    ensures { IfOk result (λ r. HasRaised board.now.name own.now.items r.0.0 r.0.1.items
        × AllZip (λ (s : Vec (ℕ × ℕ) Global)
        (x : Token × Vec Raised Global). HasRaised board.now.name s.items x.0 x.1.items) raises.now r.1.items) }
{
    thread::scope(
        thread::scope_env(),
        rt,
        move |scope| -> Result<((Line, Vec<Raised>), Vec<(Line, Vec<Raised>)>), WorkFault>
            requires { IsNewLine board.now.name first × All (IsNewLine board.now.name) others.items
                × (vec_len others ≡ length raises.now) × (length raises.now ≤ 15)
                × IsThere board.now.processors own.now.items
                × All (λ (s : Vec (ℕ × ℕ) Global). IsThere board.now.processors s.items) raises.now }
            ensures { IfOk result (λ r. HasRaised board.entry.now.name own.entry.now.items r.0.0 r.0.1.items
                × AllZip (λ (s : Vec (ℕ × ℕ) Global)
                (x : Token × Vec Raised Global). HasRaised board.entry.now.name s.items x.0
                x.1.items) raises.entry.now r.1.items) }
        {
            let raising = start_lines(rt, alloc, scope, board, gate, 1, others, raises)?;
            let who = Worker::Raises(0);
            let first = raise(rt, alloc, board, gate, who, first, own.as_slice())?;
            let others = join_all(rt, alloc, raising)?;
            Ok((first, others))
        },
    )
}
