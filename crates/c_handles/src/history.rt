// The history of a board.
ghost use Rattle.std.specs.Prelude.{◌≡◌, ◌≤◌, [], length, IfOk, OnErr};
ghost use Rattle.synic_board.specs.declared.event.Event.TheVariants.{Absorb};
ghost use Rattle.synic_board.specs.History.{IsLegal};
ghost use Rattle.synic_board.specs.Performing.{Performs};
ghost use Rattle.synic_board.specs.State.{AreSizes, opened, processors};
ghost use Rattle.c_handles.specs.Lines.{IsSwept};
ghost use Rattle.c_handles.specs.Histories.{history_model, start_of, end_of, with_entry};

use crate::{BoardWithNotices, OwnedLine};
use board_terms::Ticket;
use entry_log::EntryLog;
use std::alloc::{AllocError, Global};
use std::marker::Model;
use synic_board::{Entry, Event, Reply};

/// The history of a board: how it was opened, and an entry for each event since. Its contract shows
/// both. Invariant: it is legal.
#[derive(Drop)]
pub struct History {
    processors: u8,
    pages: u8,
    first_ticket: Ticket,
    log: EntryLog,
}

impl Model for History {
    ghost use Rattle.synic_board.specs.History.{IsLegal};
    ghost use Rattle.synic_board.specs.State.{AreSizes, opened};
    ghost use Rattle.c_handles.specs.Histories.{HistoryModel, history_model};

    ghost Value = { HistoryModel };

    ghost view = { λ h. history_model h.processors h.pages h.first_ticket h.log.entries };

    ghost invariant = { λ h. AreSizes h.processors h.pages
        × IsLegal (opened h.processors h.pages h.first_ticket) h.log.entries };
}

impl History {
    /// The history of a board that is opened with these arguments, without entries. Does not
    /// allocate.
    pub fn new(alloc: Global, processors: u8, pages: u8, first_ticket: Ticket) -> History
        requires { AreSizes processors pages }
        ensures history { result ≡ history_model processors pages first_ticket [] }
        ensures leads { end_of result ≡ opened processors pages first_ticket }
    {
        History {
            processors,
            pages,
            first_ticket,
            log: EntryLog::new(alloc),
        }
    }

    /// The number of processors of the board.
    pub fn processors(&self) -> u8
        ensures { result ≡ self.now.processors }
    {
        self.processors
    }

    /// The number of guest pages of the board.
    pub fn pages(&self) -> u8
        ensures { result ≡ self.now.pages }
    {
        self.pages
    }

    /// The ticket of the first message that the board accepts.
    pub fn first_ticket(&self) -> Ticket
        ensures { result ≡ self.now.first_ticket }
    {
        self.first_ticket
    }

    /// The number of entries.
    pub fn len(&self) -> usize
        ensures { result ≡ length self.now.entries }
    {
        self.log.len()
    }

    /// A copy of the entries, which are legal.
    pub fn to_entries(&self, alloc: Global) -> Result<Vec<Entry>, AllocError>
        ensures entries { IfOk result (λ v. v.items ≡ self.now.entries) }
        ensures sizes { AreSizes self.now.processors self.now.pages }
        ensures legal { IsLegal (start_of self.now) self.now.entries }
    {
        self.log.to_entries(alloc)
    }

    /// Performs an event for an actor, on the board to which the history leads, and appends it with its
    /// reply. Ensures capacity for the entry first: if that fails, nothing changes.
    pub fn act(
        &mut self,
        board: &mut BoardWithNotices,
        actor: u8,
        event: &Event,
    ) -> Result<Reply, AllocError>
        requires { board.old.board.state ≡ end_of self.old }
        ensures performed { IfOk result
            (λ reply. Performs board.old.board event.now board.new.board reply board.new.notices) }
        ensures most { IfOk result (λ _. length board.new.notices ≤ 276) }
        ensures entered { IfOk result (λ reply. self.new ≡ with_entry self.old actor event.now reply) }
        ensures leads { board.new.board.state ≡ end_of self.new }
        ensures unchanged { OnErr result (self.new ≡ self.old) }
        ensures board { OnErr result (board.new ≡ board.old) }
    {
        self.log.reserve()?;
        let reply = board.perform(event);
        self.log.push(actor, event, &reply);
        Ok(reply)
    }

    /// Takes the bits of a part of a processor from the line's words, if the board and the words have
    /// it, and has the board absorb them: `act` of that event. The result has these bits, 0 if none
    /// were taken. If memory fails, nothing changes.
    pub fn absorb(
        &mut self,
        board: &mut BoardWithNotices,
        actor: u8,
        line: &mut OwnedLine,
        vp: u8,
        part: u8,
    ) -> Result<(u64, Reply), AllocError>
        requires { board.old.board.state ≡ end_of self.old }
        ensures swept { IfOk result (λ r. IsSwept (processors board.old.board.state) line.old vp part r.0 line.new) }
        ensures performed { IfOk result
            (λ r. Performs board.old.board (Absorb vp part r.0) board.new.board r.1 board.new.notices) }
        ensures most { IfOk result (λ _. length board.new.notices ≤ 276) }
        ensures entered { IfOk result (λ r. self.new ≡ with_entry self.old actor (Absorb vp part r.0) r.1) }
        ensures leads { board.new.board.state ≡ end_of self.new }
        ensures unchanged { OnErr result (self.new ≡ self.old) }
        ensures board { OnErr result (board.new ≡ board.old) }
        ensures line { OnErr result (line.new ≡ line.old) }
    {
        self.log.reserve()?;
        let bits = line.sweep_for(board.board.processors(), vp, part);
        let event = Event::Absorb { vp, part, bits };
        let reply = board.perform(&event);
        self.log.push(actor, &event, &reply);
        Ok((bits, reply))
    }
}
