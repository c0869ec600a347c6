// Brings all words of live pages up to date, before an image of the board is saved.
ghost use Rattle.std.specs.Prelude.{◌≡◌, ◌<◌, ◌≤◌, ◌+◌, List, [], ◌++◌, length};
ghost use Rattle.board_terms.specs.declared.notices.Notice.{Notice};
ghost use Rattle.gpa_space.specs.Space.{overlay_of};
ghost use Rattle.synic_board.specs.State.{processors};
ghost use Rattle.live_board.specs.Live.{IsShown, LiveModel};
ghost use Rattle.live_board.specs.Refreshing.{IsRefreshed, AreAllRefreshed};
ghost use Rattle.live_board.specs.inside.Parts.{IsShadow, IsLoads, IsLoaded};

use crate::live::LiveBoard;
use crate::notices::{Journal, LiveNotices, move_all};
use crate::passing::{is_shown, look};
use board_terms::{Kind, Notices, Vp};
use live_pages::{LivePage, WORDS};
use synic_board::Board;

/// Loads each word of a live page that the guest sees.
fn load_words(
    board: &mut Board,
    page: &mut LivePage,
    vp: Vp,
    kind: Kind,
    scratch: &mut Notices,
    notices: &mut Notices,
)
    requires on { vp < processors board.old.state }
    requires shown { IsShown board.old.state vp kind }
    requires shadow { IsShadow board.old.state (overlay_of vp kind) page.old.log }
    requires capacity { length notices.old + 16 < 320 }
    ensures loads { IsLoads board.old.state vp kind page.old.log board.new.state page.new.log notices.old notices.new
        512 }
    ensures name { page.new.name ≡ page.old.name }
{
    for word in 0..WORDS {
        board.facts();
        look(board, page, vp, kind, word, scratch, notices);
    }
}

/// Loads each word of a live page, if the guest sees it, and appends the notices to those that are
/// there.
pub(crate) fn refresh_page(
    board: &mut Board,
    page: &mut LivePage,
    vp: Vp,
    kind: Kind,
    scratch: &mut Notices,
    notices: &mut Notices,
)
    requires on { vp < processors board.old.state }
    requires shadow { IsShadow board.old.state (overlay_of vp kind) page.old.log }
    requires capacity { length notices.old + 16 < 320 }
    ensures loaded { IsLoaded board.old.state vp kind page.old.log board.new.state page.new.log notices.old
        notices.new }
    ensures name { page.new.name ≡ page.old.name }
{
    if is_shown(board, vp, kind) {
        load_words(board, page, vp, kind, scratch, notices);
    }
}

impl LiveBoard {
    /// `refresh` of each processor, lowest first, so that an image of the board has what the guests stored
    /// before. Replaces `notices` by those of the guests' stores that were found.
    pub fn refresh_all(&mut self, notices: &mut LiveNotices)
        ensures { AreAllRefreshed self.old self.new notices.new }
    {
        let LiveNotices { few, many } = notices;
        few.clear();
        many.clear();
        self.refresh_each(few, many);
    }

    /// Appends the notices. `part` is empty before and after.
    fn refresh_each(&mut self, part: &mut Notices, notices: &mut Journal)
        requires empty { part.old ≡ [] }
        requires none { notices.old ≡ [] }
        ensures refreshed { AreAllRefreshed self.old self.new notices.new }
        ensures empty { part.new ≡ [] }
    {
        self.facts();
        for number in 0..self.board().processors() {
            let Some(vp) = Vp::new(number) else {
                unreachable!()
            };
            self.refresh_next(vp, part, notices);
        }
    }

    /// `refresh`, which appends the notices. `part` is empty after it.
    fn refresh_next(&mut self, vp: Vp, part: &mut Notices, notices: &mut Journal)
        requires on { vp < processors self.old.board.state }
        requires capacity { length notices.old + 320 ≤ 22720 }
        ensures refreshed { (last : List Notice) × IsRefreshed vp self.old self.new last
            × (notices.new ≡ notices.old ++ last) × (length last ≤ 320) }
        ensures processors { processors self.new.board.state ≡ processors self.old.board.state }
        ensures empty { part.new ≡ [] }
    {
        self.refresh_own(vp, part);
        move_all(part, notices);
    }

    /// The board, without its live pages. Its own pages have what the guests stored before, as after
    /// `refresh_all`.
    pub fn into_board(mut self, notices: &mut LiveNotices) -> Board
        ensures { (now : LiveModel) × AreAllRefreshed self now notices.new × (result ≡ now.board) }
    {
        self.refresh_all(notices);
        self.alone()
    }
}
