// A live page that no one else writes.
use live_pages::{LivePage, WORDS};
use std::test::Fail;

const PENDING: u64 = 1 << 40;

#[test]
fn each_access_finds_what_was_left(rt: HostRuntime) -> Result<(), Fail> {
    // README live_pages: begin
    let (mut page, _) = LivePage::open(rt.alloc())?;
    page.store(95, 7);
    page.store(64, 1); // the header of slot 2, last
    assert_eq!(rt; page.fetch_or(64, PENDING), 1);
    assert_eq!(rt; page.load(64), PENDING | 1);
    assert_eq!(rt; page.fetch_or(65, 1 << 36), 0); // flag 100 of source 2
    assert_eq!(rt; page.fetch_or(65, 1 << 36), 1 << 36);
    page.put(64, 0);
    assert_eq!(rt; page.load(64), 0);
    // README live_pages: end
    Ok(())
}

#[test]
fn words_are_apart(rt: HostRuntime) -> Result<(), Fail> {
    let (mut page, _) = LivePage::open(rt.alloc())?;
    for word in 0..WORDS {
        assert_eq!(rt; page.load(word), 0);
        page.store(word, word as u64 + 1);
    }
    for word in 0..WORDS {
        assert_eq!(rt; page.fetch_or(word, 1 << 63), word as u64 + 1);
        page.update(word, 5);
        page.update(word, 5);
    }
    for word in 0..WORDS {
        assert_eq!(rt; page.load(word), 5);
    }
    Ok(())
}
