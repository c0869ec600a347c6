// The words, and the four kinds of steps on them.
ghost use Rattle.std.specs.Prelude.{◌≡◌, ◌+◌, ◌*◌, ◌-◌, ◌<◌, ◌≤◌, ◌⊎◌, ◌↔◌, [], ◌∷◌, ◌++◌, map, replicate, All, IfOk, IsErrOf, vec_len, length, false, if◌then◌else◌, nat_lt, nat_le, ◌&&◌};
ghost use Rattle.std.specs.Mem.Slots.{slots_items, IsFull};
ghost use Rattle.posted_words.specs.inside.Posted.{view_of};
ghost use Rattle.posted_words.specs.Settled.{Settled};
ghost use Rattle.posted_words.specs.Words.{shared_words, AreWordSizes, AreManyWordSizes, token, IsOf, with_last_step, actions_of, word_of, raise_of, sweep_of};
ghost use Rattle.posted_words.specs.Answers.{is_fresh};

use crate::line::{Line, Raised, Sweeper};
use crate::rule::{Counted, Deals, Gathers, Raises, Sweeps, View};
use crate::standing::Standing;
use atomic_table::{Closed, Seat, Shared, Table};
use board_terms::{Vector, Vp};
use std::alloc::{AllocError, Global};
use std::marker::Model;
use thiserror::Error;

/// Why words could not be opened.
#[derive(Clone, Copy, PartialEq, Eq, Debug, Drop, Error)]
pub enum PostedFault {
    #[error("the sizes are outside the limits")]
    BadSize = 1,
    #[error("out of memory")]
    Memory = 2,
}

/// Why tokens could not be gathered.
#[derive(Clone, Copy, PartialEq, Eq, Debug, Drop, Error)]
pub enum GatherFault {
    #[error("a sweeper or a line is missing")]
    Missing = 1,
    #[error("out of memory")]
    Memory = 2,
}

/// Four words of 64 bits for each processor: a bit for each vector, set by a raise and cleared by a
/// sweep. Threads share the words by reference, and each uses a token of its own, which `open`
/// returned with these words.
#[derive(Drop)]
pub struct PostedWords {
    alloc: Global,
    table: Table<(), View, (u64, u64), Counted, Global>,
    processors: u8,
    sweepers: u8,
    lines: u16,
}

impl Model for PostedWords {
    ghost use Rattle.std.specs.Prelude.{◌≡◌, ◌+◌, ◌*◌};
    ghost use Rattle.posted_words.specs.Words.{Words, shared_words, AreManyWordSizes};

    ghost Value = { Words };

    ghost view = { λ p. shared_words p.table.shared.table_id p.processors p.sweepers p.lines };

    ghost invariant = { λ p. (p.table.shared.key ≡ (4 * p.processors, p.sweepers + p.lines))
        × (p.table.shared.table_id.words ≡ 4 * p.processors) × (p.table.shared.table_id.slots ≡ 0)
        × AreManyWordSizes p.processors p.sweepers p.lines };
}

type Places = Shared<(), View, (u64, u64), Counted>;

/// The index of the word for a processor's part, 0 to 3.
pub(crate) fn word_of(vp: Vp, part: u8) -> usize
    requires { part < 4 }
    ensures { result ≡ word_of vp part }
{
    4 * usize::from(vp.number()) + usize::from(part)
}

/// Splits that many tokens off the seat.
fn deal(
    alloc: Global,
    places: &Places,
    seat: &mut Seat<(), View>,
    count: usize,
) -> Result<Vec<Line>, AllocError>
    requires own { seat.old.table_id ≡ places.now.table_id }
    requires some_word { 0 < places.now.table_id.words }
    requires enough { count < seat.old.me.0.parts }
    requires new { seat.old.me ≡ (view_of seat.old.me.0.parts ([] ∷ []), []) }
    ensures own { IfOk result (λ _. seat.new.table_id ≡ seat.old.table_id) }
    ensures left { IfOk result (λ _. seat.new.me ≡ (view_of (seat.old.me.0.parts - count) ([] ∷ []), [])) }
    ensures dealt { IfOk result (λ v. v.items ≡ replicate count (token seat.old.table_id [])) }
{
    let mut tokens = Vec::with_capacity(alloc, count)?;
    for _ in 0..count {
        let token = Line::new(places.split_seat::<Deals>(seat));
        tokens.push(token)?;
    }
    Ok(tokens)
}

/// Joins all the tokens to the seat.
fn join_all(places: &Places, seat: &mut Seat<(), View>, mut tokens: Vec<Line>)
    requires own { seat.old.table_id ≡ places.now.table_id }
    requires some_word { 0 < places.now.table_id.words }
    requires some_part { 0 < seat.old.me.0.parts }
    requires no_slot { seat.old.me.1 ≡ [] }
    requires tokens { All (IsOf places.now.table_id) tokens.items }
    ensures own { seat.new.table_id ≡ seat.old.table_id }
    ensures joined { seat.new.me
        ≡ (view_of (seat.old.me.0.parts + vec_len tokens) (map actions_of tokens.items ++ seat.old.me.0.logs), []) }
{
    while let Some(token) = tokens.pop() {
        places.join_seat::<Gathers>(seat, token.into_seat());
    }
}

/// The words of a closed table.
fn read(alloc: Global, closed: &Closed<(), Global>) -> Result<Vec<u64>, AllocError>
    requires { IsFull closed.now.words }
    ensures { IfOk result (λ v. v.items ≡ slots_items closed.now.words) }
{
    let mut words = Vec::with_capacity(alloc, closed.words.len())?;
    for i in 0..closed.words.len() {
        words.push(closed.word(i))?;
    }
    Ok(words)
}

impl PostedWords {
    /// Words of that many processors, all zero, with a sweeper for each actor and a line for each
    /// device, all without steps. `BadSize` unless there are 1 to 64 processors, 1 to 16 sweepers
    /// and at most 16 lines, which is checked first; `Memory` if an allocation fails.
    pub fn open(
        alloc: Global,
        processors: u8,
        sweepers: u8,
        lines: u8,
    ) -> Result<(PostedWords, Vec<Sweeper>, Vec<Line>), PostedFault>
        ensures size { IsErrOf result PostedFault.BadSize ↔ (¬ AreWordSizes processors sweepers lines) }
        ensures sizes { IfOk result (λ _. AreWordSizes processors sweepers lines) }
        ensures words { IfOk result (λ r. r.0 ≡ shared_words r.0.name processors sweepers lines) }
        ensures sweepers { IfOk result (λ r. r.1.items ≡ replicate sweepers (token r.0.name [])) }
        ensures lines { IfOk result (λ r. r.2.items ≡ replicate lines (token r.0.name [])) }
    {
        if processors < 1 || processors > 64 || sweepers < 1 || sweepers > 16 || lines > 16 {
            return Err(PostedFault::BadSize);
        }
        match PostedWords::open_sized(alloc, processors, sweepers, u16::from(lines)) {
            Ok(opened) => Ok(opened),
            Err(_) => Err(PostedFault::Memory),
        }
    }

    /// The same with up to 64 sweepers and 256 lines, for the threads and the devices of a large machine.
    pub fn open_many(
        alloc: Global,
        processors: u8,
        sweepers: u8,
        lines: u16,
    ) -> Result<(PostedWords, Vec<Sweeper>, Vec<Line>), PostedFault>
        ensures size { IsErrOf result PostedFault.BadSize ↔ (¬ AreManyWordSizes processors sweepers lines) }
        ensures sizes { IfOk result (λ _. AreManyWordSizes processors sweepers lines) }
        ensures words { IfOk result (λ r. r.0 ≡ shared_words r.0.name processors sweepers lines) }
        ensures sweepers { IfOk result (λ r. r.1.items ≡ replicate sweepers (token r.0.name [])) }
        ensures lines { IfOk result (λ r. r.2.items ≡ replicate lines (token r.0.name [])) }
    {
        if processors < 1 || processors > 64 || sweepers < 1 || sweepers > 64 || lines > 256 {
            return Err(PostedFault::BadSize);
        }
        match PostedWords::open_sized(alloc, processors, sweepers, lines) {
            Ok(opened) => Ok(opened),
            Err(_) => Err(PostedFault::Memory),
        }
    }

    fn open_sized(
        alloc: Global,
        processors: u8,
        sweepers: u8,
        lines: u16,
    ) -> Result<(PostedWords, Vec<Sweeper>, Vec<Line>), AllocError>
        requires { AreManyWordSizes processors sweepers lines }
        ensures words { IfOk result (λ r. r.0 ≡ shared_words r.0.name processors sweepers lines) }
        ensures sweepers { IfOk result (λ r. r.1.items ≡ replicate sweepers (token r.0.name [])) }
        ensures lines { IfOk result (λ r. r.2.items ≡ replicate lines (token r.0.name [])) }
    {
        let zeros = Vec::from_elem(alloc, 0, 4 * usize::from(processors))?;
        let key = (
            4 * u64::from(processors),
            u64::from(sweepers) + u64::from(lines),
        );
        let (table, mut seat) = Table::of_words(alloc, zeros.as_slice(), &key)?;
        let given_lines = deal(alloc, &table.shared, &mut seat, usize::from(lines))?;
        let mut given_sweepers = deal(alloc, &table.shared, &mut seat, usize::from(sweepers) - 1)?;
        given_sweepers.push(Line::new(seat))?;
        let words = PostedWords {
            alloc,
            table,
            processors,
            sweepers,
            lines,
        };
        Ok((words, given_sweepers, given_lines))
    }

    /// The number of processors of the words, at most 64.
    pub fn processors(&self) -> u8
        ensures count { result ≡ self.now.processors }
        ensures bound { result ≤ 64 }
    {
        self.processors
    }

    /// Raises a vector of a processor. Never blocks: one atomic step, the `fetch_or` of the
    /// vector's bit, sets it and returns its old value. `Fresh` if the bit was clear, so that the
    /// device has to kick an actor; `Already` if it was set, so that the next sweep takes both
    /// raises. Requires a line of these words, and a processor of the words.
    ///
    /// The clause records the step and its result in the line; `gather` says how the results of all
    /// tokens are related. That `Already` is returned only if the bit was set, while other tokens
    /// raise and sweep, is shown only by tests.
    pub fn raise(&self, line: &mut Line, vp: Vp, vector: Vector) -> Raised
        requires own { line.old.of ≡ self.now.name }
        requires there { vp < self.now.processors }
        ensures { line.new ≡ with_last_step line.old (raise_of vp vector (is_fresh result)) }
    {
        let number = vector.number();
        let bit = number % 64;
        let found = self
            .table
            .shared
            .fetch_or::<Raises>(&mut line.seat, word_of(vp, number / 64), 1 << bit);
        if (found >> bit) & 1 == 0 {
            Raised::Fresh
        } else {
            Raised::Already
        }
    }

    /// Takes the bits of a part, 0 to 3, of a processor. Never blocks. Bit `n` of part `p` is
    /// vector `64 * p + n`. One atomic step, the `swap` with zero, reads and clears the word: it
    /// takes the bit of a raise before it, and a raise after it is `Fresh` again. Requires a
    /// sweeper of these words, and a processor of the words.
    ///
    /// The clause records the step and its bits in the sweeper; `gather` says how the results of
    /// all tokens are related. That a sweep takes every bit that is set, while other tokens raise
    /// and sweep, is shown only by tests.
    pub fn sweep(&self, sweeper: &mut Sweeper, vp: Vp, part: u8) -> u64
        requires own { sweeper.old.of ≡ self.now.name }
        requires there { vp < self.now.processors }
        requires part { part < 4 }
        ensures { sweeper.new ≡ with_last_step sweeper.old (sweep_of vp part result) }
    {
        self.table
            .shared
            .swap::<Sweeps>(&mut sweeper.seat, word_of(vp, part), 0)
    }

    /// Sweeps a part of a processor, if the words have both, and returns its bits; otherwise does
    /// nothing, and returns 0. Requires a sweeper of these words.
    pub fn sweep_if_there(&self, sweeper: &mut Sweeper, vp: u8, part: u8) -> u64
        requires { sweeper.old.of ≡ self.now.name }
        ensures swept { sweeper.new
            ≡ token sweeper.old.of (if nat_lt vp self.now.processors && nat_le part 3
            then sweep_of vp part result ∷ sweeper.old.actions else sweeper.old.actions) }
        ensures none { (nat_lt vp self.now.processors && nat_le part 3) ≡ false → result ≡ 0 }
    {
        match Vp::new(vp) {
            Some(vp) if vp.number() < self.processors && part <= 3 => self.sweep(sweeper, vp, part),
            _ => 0,
        }
    }

    /// The bits that are set when all tokens are gathered: each `Fresh` raise was taken by one
    /// sweep, or its bit is set. `Missing` if there are fewer sweepers or lines than were opened,
    /// which is checked first; `Memory` if an allocation fails. Both faults drop the words and the
    /// tokens. Requires tokens of these words.
    pub fn gather(
        self,
        mut sweepers: Vec<Sweeper>,
        lines: Vec<Line>,
    ) -> Result<Standing, GatherFault>
        requires sweepers { All (IsOf self.name) sweepers.items }
        requires lines { All (IsOf self.name) lines.items }
        ensures missing { IsErrOf result GatherFault.Missing ↔ (vec_len sweepers < self.sweepers)
            ⊎ (vec_len lines < self.lines) }
        ensures width { IfOk result (λ s. length s ≡ 4 * self.processors) }
        ensures settled { IfOk result
            (λ s. Settled (4 * self.processors) (map actions_of (sweepers.items ++ lines.items)) s) }
    {
        if sweepers.len() < usize::from(self.sweepers) || lines.len() < usize::from(self.lines) {
            return Err(GatherFault::Missing);
        }
        let Some(last) = sweepers.pop() else {
            unreachable!()
        };
        let PostedWords { alloc, table, .. } = self;
        let mut seat = last.into_seat();
        join_all(&table.shared, &mut seat, sweepers);
        join_all(&table.shared, &mut seat, lines);
        let closed = table.close_with(seat);
        let words = read(alloc, &closed);
        closed.free();
        match words {
            Ok(words) => Ok(Standing { words }),
            Err(_) => Err(GatherFault::Memory),
        }
    }
}
