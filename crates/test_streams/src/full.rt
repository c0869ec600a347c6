// A crew whose history is full.
use board_script::{CrewRun, crew};
use board_threads::OpenGate;
use std::alloc::{AllocError, Global};
use std::io;
use text_trace::{CheckEnd, check_trace};

/// An actor that takes 65,532 times; then there are four absorbs.
fn script(alloc: Global) -> Result<Vec<u8>, AllocError> {
    let mut script = Vec::new(alloc);
    script.extend_from_slice(b"board 1 1 0\nactor\n")?;
    for _ in 0..65_532 {
        script.extend_from_slice(b"take 0\n")?;
    }
    Ok(script)
}

#[test]
fn the_trace_of_a_full_history_is_legal(rt: HostRuntime) -> Result<(), AllocError> {
    let alloc = rt.alloc();
    let script = script(alloc)?;
    let mut written = Vec::new(alloc);
    let end = crew(&rt, alloc, &mut script.as_slice(), &mut written, &OpenGate);
    assert_eq!(rt; end, CrewRun::Done);
    let end = check_trace(alloc, &mut written.as_slice(), &mut io::sink());
    assert_eq!(rt; end, CheckEnd::Legal(65_536));
    Ok(())
}
