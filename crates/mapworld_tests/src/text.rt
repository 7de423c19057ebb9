//! The report: its text, a writer that fails, and want of memory.

use linked_list_allocator::LocalHeap;
use mapworld_report::{ReportFault, report};
use std::io;
use std::sync::Wait;
use std::test::Fail;
use std::thread::Threads;

/// A writer that takes nothing.
#[derive(Drop)]
struct Closed;

impl io::Write for Closed {
    fn write(&mut self, _bytes: &[u8]) -> io::Result<usize> {
        Err(io::Error::from(io::ErrorKind::BrokenPipe))
    }

    fn flush(&mut self) -> io::Result<()> {
        Ok(())
    }
}

const TEXT: &str =
    "thread 0 call 0: value 20\nthread 0 call 1: held\nthread 0 call 2: value 10\nthread 0 call 3: done\nthread 1 call 0: none\nthread 1 call 1: none\npair 1: 10\ngathered: 8 entries\n";

#[test]
fn a_report_tells_replies_and_contents(rt: HostRuntime) -> Result<(), Fail> {
    let mut out = Vec::new(rt.alloc());
    assert!(rt; report(rt, rt.alloc(), rt.alloc(), &mut out).is_ok());
    assert!(rt; out.as_slice() == TEXT.as_bytes());
    Ok(())
}

#[test]
fn a_writer_that_fails_ends_the_report(rt: HostRuntime) {
    assert!(rt;
        matches!(
            report(rt, rt.alloc(), rt.alloc(), &mut Closed),
            Err(ReportFault::Write)
        )
    );
}

/// Whether a report is told in so many bytes; if not, memory is short and nothing is written. None where it is neither.
fn is_told<R: AllocGlobal + Threads + Wait + Sync + Copy>(
    rt: R,
    size: usize,
) -> Result<Option<bool>, Fail> {
    let heap = LocalHeap::new(rt.alloc(), size)?;
    let mut out = Vec::new(rt.alloc());
    Ok(match report(rt, &heap, rt.alloc(), &mut out) {
        Ok(()) if out.as_slice() == TEXT.as_bytes() => Some(true),
        Err(ReportFault::Fault { code, name }) if code == 99 && name == "NoMemory" => {
            if out.is_empty() { Some(false) } else { None }
        }
        _ => None,
    })
}

#[test]
fn a_report_without_memory_writes_nothing(rt: HostRuntime) -> Result<(), Fail> {
    let mut has_told = false;
    let mut has_refused = false;
    for size in 0..600 {
        match is_told(rt, size * 16)? {
            Some(true) => has_told = true,
            Some(false) => has_refused = true,
            None => assert!(rt; false, "in {size} times 16 bytes"),
        }
    }
    assert!(rt; has_told && has_refused);
    Ok(())
}
