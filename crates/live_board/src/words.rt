// The words of a page.
ghost use Rattle.std.specs.Prelude.{◌≡◌, ◌≤◌, ◌+◌, length};
ghost use Rattle.live_board.specs.Words.{word_at};

/// Eight bytes of a page as a word.
#[inline(always)]
pub(crate) fn word_at(page: &[u8], at: usize) -> u64
    requires { at + 8 ≤ length page.now }
    ensures { result ≡ word_at page.now at }
{
    let Some(bytes) = page[at..at + 8].as_array::<8>() else {
        unreachable!()
    };
    u64::from_le_bytes(*bytes)
}
