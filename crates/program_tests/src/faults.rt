//! The top call over sources and sinks in memory, which take small pieces, or fail.

use annex_base::{OpenGate, SliceSource, VecSink};
use annex_cli::{Status, annex};
use std::test::Fail;

const ALONE: &str = "repo a 11111111-1111-4111-8111-111111111111\n\
    have a WORM-s3--abc text:abc\n\
    drop a WORM-s3--abc\n";

const ALONE_REPORT: &str =
    "drop a WORM-s3--abc refused 5 lacking need=1,1 locked=- trusted=- recent=- causes=-\n";

/// The words, the failing calls of the source and the sink, the status, and how much of the text the sink has taken.
#[test]
fn faults(rt: HostRuntime) -> Result<(), Fail> {
    let usage = "usage: annex run | threads | storm NUMBER JOBS\n";
    for (word, failing_read, failing_write, want, text, taken) in [
        ("run", 0, 0, Status::Done, ALONE_REPORT, ALONE_REPORT.len()),
        ("", 0, 0, Status::Usage, usage, usage.len()),
        ("run", 1, 0, Status::ReadFault, ALONE_REPORT, 0),
        ("run", 9, 0, Status::ReadFault, ALONE_REPORT, 0),
        ("", 1, 0, Status::Usage, usage, usage.len()),
        ("run", 0, 1, Status::WriteFault, ALONE_REPORT, 0),
        ("run", 0, 3, Status::WriteFault, ALONE_REPORT, 10),
        ("", 0, 2, Status::WriteFault, usage, 5),
    ] {
        let mut words = Vec::new(rt.alloc());
        if !word.is_empty() {
            words.push(String::from_str(rt.alloc(), word)?)?;
        }
        let bytes = Vec::from_slice(rt.alloc(), ALONE.as_bytes())?;
        let mut source = SliceSource::new(bytes, 7, vec![in rt.alloc(); failing_read]?);
        let mut sink = VecSink::new(rt.alloc(), 5, vec![in rt.alloc(); failing_write]?);
        let status = annex(&rt, rt.alloc(), &words, &mut source, &mut sink, &OpenGate);
        let front = text.as_bytes().get(..taken);
        assert_eq!(rt; status, want, "at {failing_read}, {failing_write}");
        assert_eq!(rt;
            Some(sink.bytes()),
            front,
            "at {failing_read}, {failing_write}"
        );
    }
    Ok(())
}
