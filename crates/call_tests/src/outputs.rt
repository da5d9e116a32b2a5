//! Outputs that fail.

use crate::shared::assembled;
use basics::streams::Output;
use insn::Insn;
use machine::Sink;
use report::{Ask, report};
use std::io::{self, Write};
use std::process::Abort;
use std::test::Fail;

/// A writer that accepts `room` bytes, then fails, and counts its failures.
#[derive(Drop)]
struct Failing {
    room: usize,
    failures: usize,
}

impl Write for Failing {
    fn write(&mut self, buf: &[u8]) -> io::Result<usize> {
        if self.room == 0 {
            self.failures = self.failures.saturating_add(1);
            return Err(io::Error::from(io::ErrorKind::BrokenPipe));
        }
        let n = self.room.min(buf.len());
        self.room -= n;
        Ok(n)
    }

    fn flush(&mut self) -> io::Result<()> {
        Ok(())
    }
}

/// The room of an output, what is printed to the other stream, the status, and how often the output fails.
#[derive(Clone, Copy)]
struct OutputRoom {
    room: usize,
    err: &'static str,
    status: u8,
    failures: usize,
}

/// With room for all of a report nothing fails.
static ROOMS: [OutputRoom; 4] = [
    OutputRoom {
        room: 0,
        err: "cannot write output\n",
        status: 3,
        failures: 1,
    },
    OutputRoom {
        room: 1,
        err: "cannot write output\n",
        status: 3,
        failures: 1,
    },
    OutputRoom {
        room: 12,
        err: "cannot write output\n",
        status: 3,
        failures: 1,
    },
    OutputRoom {
        room: 1_000,
        err: "",
        status: 0,
        failures: 0,
    },
];

/// Reports to an output with the room of each row, and compares what is printed, the status and the failures.
fn expect_failures<R: Abort + AllocGlobal>(rt: &R, ask: Ask<'_>, file: &[u8], rows: &[OutputRoom]) {
    for row in rows {
        let room = row.room;
        let mut out = Output::new(Failing { room, failures: 0 });
        let mut err = Vec::new(rt.alloc());
        let status = report(rt.alloc(), ask, file, &mut out, &mut err);
        assert_eq!(rt; err.as_slice(), row.err.as_bytes(), "{ask:?} {room}");
        assert_eq!(rt; status, row.status, "{ask:?} {room}");
        let failures = out.into_inner().failures;
        assert_eq!(rt; failures, row.failures, "{ask:?} {room}");
    }
}

/// Returns the status of a report where the line of an error cannot be printed.
fn status_without_a_line<R: AllocGlobal>(rt: &R, ask: Ask<'_>, file: &[u8], room: usize) -> u8 {
    let mut out = Output::new(Failing { room, failures: 0 });
    let mut err = Failing {
        room: 0,
        failures: 0,
    };
    report(rt.alloc(), ask, file, &mut out, &mut err)
}

/// Reports to outputs that fail, and compares the statuses.
fn expect_failing_outputs<R: Abort + AllocGlobal>(rt: &R) -> Result<(), Fail> {
    let file = assembled(rt, "mov r0, 2\nexit")?;
    let hex = None;
    expect_failures(rt, Ask::Verify, &file, ROOMS.as_slice());
    expect_failures(rt, Ask::Trace { hex }, &file, ROOMS.as_slice());
    expect_failures(
        rt,
        Ask::Disassemble { slots: true },
        &file,
        ROOMS.as_slice(),
    );
    // a line that cannot be printed changes no status
    let hex = Some("0");
    assert_eq!(rt; status_without_a_line(rt, Ask::Verify, &file, 0), 3);
    assert_eq!(rt;
        status_without_a_line(rt, Ask::Trace { hex }, &file, 1_000),
        1
    );
    Ok(())
}

/// Reports four steps to an output whose writer fails at the second line: it writes nothing more.
fn expect_lines_to_stop<R: Abort>(rt: &R) {
    let mut output = Output::new(Failing {
        room: 7,
        failures: 0,
    });
    for slot in 0..4 {
        output.step(slot, &Insn::Exit);
    }
    assert!(rt; output.has_failed());
    assert_eq!(rt; output.into_inner().failures, 1);
}

#[test]
fn a_report_ends_where_its_output_fails(rt: HostRuntime) -> Result<(), Fail> {
    expect_failing_outputs(&rt)?;
    expect_lines_to_stop(&rt);
    Ok(())
}
