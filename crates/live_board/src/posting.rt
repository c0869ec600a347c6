// A post to a port whose target is a source of a live page.
ghost use Rattle.std.specs.Prelude.{◌≡◌, ◌≢◌, ℕ, ◌<◌, ◌≤◌, ◌+◌, ◌*◌, ◌==◌, ◌++◌, [], length, Some};
ghost use Rattle.board_terms.specs.declared.pages.Kind.TheVariants.{Sim};
ghost use Rattle.event_ports.specs.Ports.{port_at};
ghost use Rattle.synic_board.specs.declared.event.Event.TheVariants.{Post};
ghost use Rattle.synic_board.specs.State.{processors, ports_of};
ghost use Rattle.live_pages.specs.Words.{known, type_of, is_pending};
ghost use Rattle.live_board.specs.Words.{word_of};
ghost use Rattle.live_board.specs.Live.{IsShown, HasLooked, HasPlaced, slot_word};
ghost use Rattle.live_board.specs.inside.Parts.{IsShadow, IsFound, IsStep, IsInto, IsPart};

use crate::attempt::is_attempted;
use crate::filling::{fill, slot_words};
use crate::passing::{is_shown, look, mark, own_word};
use crate::performing::append;
use board_terms::{Kind, Notices};
use event_ports::Port;
use live_pages::LivePage;
use synic_board::{Board, Reply};

/// MessagePending, in the header of a slot.
pub(crate) const PENDING: u64 = 1 << 40;

/// Whether the type in a header is 0.
pub(crate) fn is_empty(header: u64) -> bool
    ensures { result ≡ (type_of header == 0) }
{
    header & 0xffff_ffff == 0
}

/// Whether MessagePending is set in a header.
pub(crate) fn is_pending(header: u64) -> bool
    ensures { result ≡ is_pending header }
{
    (header >> 40) & 1 == 1
}

/// Looks at the header of a port's slot, and marks it if a post would find it occupied and not
/// marked. Returns the header that the last access found, and the one that the host left.
fn find_header(
    board: &mut Board,
    page: &mut LivePage,
    port: &Port,
    number: u8,
    kind: u32,
    scratch: &mut Notices,
    notices: &mut Notices,
) -> (u64, u64)
    requires open { port_at (ports_of board.old.state) number ≡ Some port.now }
    requires on { port.now.vp < processors board.old.state }
    requires shown { IsShown board.old.state port.now.vp Sim }
    requires shadow { IsShadow board.old.state (2 * port.now.vp) page.old.log }
    requires capacity { length notices.old < 319 }
    ensures found { IsFound board.old.state number kind port.now page.old.log board.new.state page.new.log result.0
        result.1
        notices.old notices.new }
    ensures name { page.new.name ≡ page.old.name }
{
    let slot = 32 * usize::from(port.sint.number());
    let found = look(board, page, port.vp, Kind::Sim, slot, scratch, notices);
    if is_empty(found) || is_pending(found) || !is_attempted(board, number, kind, port) {
        return (found, found);
    }
    let header = mark(
        board,
        page,
        port.vp,
        Kind::Sim,
        slot,
        PENDING,
        scratch,
        notices,
    );
    (header, header | PENDING)
}

/// Performs a post, and appends its notices to those that are there, at most two.
fn perform_post(
    board: &mut Board,
    number: u8,
    kind: u32,
    payload: &[u8],
    scratch: &mut Notices,
    notices: &mut Notices,
) -> Reply
    requires fits { length payload.now ≤ 240 }
    requires capacity { length notices.old ≤ 2 }
    ensures { IsStep board.old.state
        (Post number kind (record { items = payload.now })) board.new.state result notices.old notices.new }
{
    if notices.as_slice().is_empty() {
        return board.post(number, kind, payload, notices);
    }
    let reply = board.post(number, kind, payload, scratch);
    append(scratch, notices);
    reply
}

/// Performs a post, and stores what it changed in the slot of the port. `left` is the header as the
/// host left it.
fn post_into(
    board: &mut Board,
    page: &mut LivePage,
    port: &Port,
    number: u8,
    kind: u32,
    payload: &[u8],
    left: u64,
    scratch: &mut Notices,
    notices: &mut Notices,
) -> Reply
    requires open { port_at (ports_of board.old.state) number ≡ Some port.now }
    requires on { port.now.vp < processors board.old.state }
    requires source { port.now.sint < 16 }
    requires fits { length payload.now ≤ 240 }
    requires left { known page.old.log (32 * port.now.sint) ≡ left }
    requires like { type_of left ≡ type_of (word_of board.old.state (2 * port.now.vp) (32 * port.now.sint)) }
    requires others { (x : ℕ) → x < 512 → x ≢ 32 * port.now.sint
        → known page.old.log x ≡ word_of board.old.state (2 * port.now.vp) x }
    requires capacity { length notices.old ≤ 2 }
    ensures into { IsInto port.now left board.old.state page.old.log
        (Post number kind (record { items = payload.now })) board.new.state page.new.log result notices.old
        notices.new }
    ensures name { page.new.name ≡ page.old.name }
{
    board.facts();
    let reply = perform_post(board, number, kind, payload, scratch, notices);
    board.facts();
    let after = slot_words(board, port.vp, port.sint);
    fill(page, port.sint, left, &after);
    reply
}

/// Performs a post to a port whose slot the guest sees.
fn post_shown(
    board: &mut Board,
    page: &mut LivePage,
    port: &Port,
    number: u8,
    kind: u32,
    payload: &[u8],
    scratch: &mut Notices,
    notices: &mut Notices,
) -> Reply
    requires open { port_at (ports_of board.old.state) number ≡ Some port.now }
    requires on { port.now.vp < processors board.old.state }
    requires fits { length payload.now ≤ 240 }
    requires shown { IsShown board.old.state port.now.vp Sim }
    requires shadow { IsShadow board.old.state (2 * port.now.vp) page.old.log }
    requires empty { notices.old ≡ [] }
    ensures part { IsPart board.old.state port.now.vp Sim page.old.log
        (Post number kind (record { items = payload.now })) board.new.state page.new.log result notices.new }
    ensures looked { HasLooked (32 * port.now.sint) page.old.log page.new.log }
    ensures placed { HasPlaced port.now.sint (slot_word board.new.state port.now.vp port.now.sint) page.old.log
        page.new.log }
    ensures name { page.new.name ≡ page.old.name }
{
    let (header, left) = find_header(board, page, port, number, kind, scratch, notices);
    board.facts();
    if is_empty(header) {
        return post_into(
            board, page, port, number, kind, payload, left, scratch, notices,
        );
    }
    perform_post(board, number, kind, payload, scratch, notices)
}

/// Performs a post to a port whose slot the guest does not see.
fn post_hidden(
    board: &mut Board,
    page: &mut LivePage,
    port: &Port,
    number: u8,
    kind: u32,
    payload: &[u8],
    scratch: &mut Notices,
    notices: &mut Notices,
) -> Reply
    requires open { port_at (ports_of board.old.state) number ≡ Some port.now }
    requires on { port.now.vp < processors board.old.state }
    requires fits { length payload.now ≤ 240 }
    requires hidden { IsShown board.old.state port.now.vp Sim → ⊥ }
    requires shadow { IsShadow board.old.state (2 * port.now.vp) page.old.log }
    requires empty { notices.old ≡ [] }
    ensures part { IsPart board.old.state port.now.vp Sim page.old.log
        (Post number kind (record { items = payload.now })) board.new.state page.new.log result notices.new }
    ensures placed { HasPlaced port.now.sint (slot_word board.new.state port.now.vp port.now.sint) page.old.log
        page.new.log }
    ensures name { page.new.name ≡ page.old.name }
{
    board.facts();
    let header = own_word(
        board,
        port.vp,
        Kind::Sim,
        32 * usize::from(port.sint.number()),
    );
    post_into(
        board, page, port, number, kind, payload, header, scratch, notices,
    )
}

/// Performs a post to a port, and brings the message page of its processor up to date.
pub(crate) fn post_to(
    board: &mut Board,
    page: &mut LivePage,
    port: &Port,
    number: u8,
    kind: u32,
    payload: &[u8],
    scratch: &mut Notices,
    notices: &mut Notices,
) -> Reply
    requires open { port_at (ports_of board.old.state) number ≡ Some port.now }
    requires on { port.now.vp < processors board.old.state }
    requires fits { length payload.now ≤ 240 }
    requires shadow { IsShadow board.old.state (2 * port.now.vp) page.old.log }
    requires empty { notices.old ≡ [] }
    ensures part { IsPart board.old.state port.now.vp Sim page.old.log
        (Post number kind (record { items = payload.now })) board.new.state page.new.log result notices.new }
    ensures looked { IsShown board.old.state port.now.vp Sim → HasLooked (32 * port.now.sint) page.old.log
        page.new.log }
    ensures placed { HasPlaced port.now.sint (slot_word board.new.state port.now.vp port.now.sint) page.old.log
        page.new.log }
    ensures name { page.new.name ≡ page.old.name }
{
    if is_shown(board, port.vp, Kind::Sim) {
        post_shown(board, page, port, number, kind, payload, scratch, notices)
    } else {
        post_hidden(board, page, port, number, kind, payload, scratch, notices)
    }
}
