//! That a run leaves nothing of its frame to the next one.

ghost use Rattle.std.specs.Prelude.{◌≤◌, length};

use crate::shared::{CLIENT, assembled, start_on};
use insn::decode;
use loader::load;
use machine::{Addr, Frame, NoAllocation, Outcome, Silent, Stuck, run, trace};
use semantics::Reason;
use std::process::Abort;
use std::test::Fail;

/// Makes the stores that fill the stack with 64 numbers: `stdw [r10-512], 0` to `stdw [r10-8], 63`.
fn filling<R: AllocGlobal>(rt: &R) -> Result<Vec<u8>, Fail> {
    let mut file = Vec::new(rt.alloc());
    let mut offset: i16 = -512;
    for n in 0..64_u32 {
        file.extend_from_slice(&[0x7a, 0x0a])?;
        file.extend_from_slice(&offset.to_le_bytes())?;
        file.extend_from_slice(&n.to_le_bytes())?;
        offset = offset.wrapping_add(8);
    }
    Ok(file)
}

/// Makes the loads that add up those numbers in r0: `ldxdw r2, [r10-512]`, `add r0, r2`, and so
/// on, up to [r10-8].
fn adding<R: AllocGlobal>(rt: &R) -> Result<Vec<u8>, Fail> {
    let mut file = assembled(rt, "mov r0, 0")?;
    let mut offset: i16 = -512;
    for _ in 0..64 {
        file.extend_from_slice(&[0x79, 0xa2])?;
        file.extend_from_slice(&offset.to_le_bytes())?;
        file.extend_from_slice(&[0, 0, 0, 0, 0x0f, 0x20, 0, 0, 0, 0, 0, 0])?;
        offset = offset.wrapping_add(8);
    }
    file.extend_from_slice(&assembled(rt, "exit")?)?;
    Ok(file)
}

/// Stores and loads the whole stack. 0 and 1 and so on up to 63 make 2,016. There are 64 stores, `mov r0, 0`, 64 loads,
/// 64 additions, and the exit.
fn expect_whole_stack<R: Abort + AllocGlobal>(rt: &R) -> Result<(), Fail> {
    let mut file = filling(rt)?;
    file.extend_from_slice(&adding(rt)?)?;
    let loaded = load(rt.alloc(), &file)?;
    let mut frame = Frame::new(rt.alloc())?;
    start_on(&mut frame, &CLIENT, &[]);
    let outcome = run(loaded.program(), &mut frame, &NoAllocation);
    assert_eq!(rt; outcome.verdict, 2_016);
    assert_eq!(rt; outcome.steps, 194);
    Ok(())
}

/// What follows the stores that fill the stack. It stores in the headroom and in all of the tailroom, and sets a
/// destination and a window to all.
const USES_ALL: &str = "mov r6, r1\nldxdw r7, [r1+0]\nstdw [r7-64], -1\nldxdw r8, [r1+8]\n\
     stb [r8+0], -1\nstb [r8+1], -1\nstb [r8+2], -1\n\
     lddw r3, 0x070200c088130100\nstxdw [r10-8], r3\nmov r2, r10\nadd r2, -8\ncall 5\n\
     mov r1, r6\nmov r2, 0\nldxdw r3, [r1+16]\nadd r3, 67\ncall 4\nexit";

/// Starts a frame on a datagram and runs a program over it that uses all of its memory.
fn use_all<R: Abort + AllocGlobal>(rt: &R, frame: &mut Frame, datagram: &[u8]) -> Result<(), Fail>
    requires { length datagram.now ≤ 65507 }
{
    let mut file = filling(rt)?;
    file.extend_from_slice(&assembled(rt, USES_ALL)?)?;
    let loaded = load(rt.alloc(), &file)?;
    start_on(frame, &CLIENT, datagram);
    let outcome = run(loaded.program(), frame, &NoAllocation);
    let peer = Addr::V4 {
        ip: [192, 0, 2, 7],
        port: 5000,
    };
    assert_eq!(rt; outcome.verdict, 0);
    assert_eq!(rt; outcome.window, Some((0, 67 + datagram.len())));
    assert_eq!(rt; outcome.destination, Some(peer));
    assert!(rt; frame.window().is_some());
    Ok(())
}

/// Runs a program after one that sets a window and a destination: it has neither.
fn expect_no_plan<R: Abort + AllocGlobal>(rt: &R) -> Result<(), Fail> {
    let file = assembled(rt, "mov r0, 0\nexit")?;
    let loaded = load(rt.alloc(), &file)?;
    let mut frame = Frame::new(rt.alloc())?;
    use_all(rt, &mut frame, &[1, 2, 3, 4])?;
    start_on(&mut frame, &CLIENT, &[1, 2, 3, 4]);
    assert_eq!(rt; frame.window(), None);
    let outcome = run(loaded.program(), &mut frame, &NoAllocation);
    let expected = Outcome {
        verdict: 0,
        steps: 2,
        window: None,
        destination: None,
    };
    assert_eq!(rt; outcome, expected);
    assert_eq!(rt; frame.window(), None);
    assert_eq!(rt; frame.datagram(), [1, 2, 3, 4].as_slice());
    Ok(())
}

/// Loads from the stack, of which nothing is set at the start of a run.
static STACK_LOADS: [&str; 4] = [
    "ldxb r0, [r10-512]\nexit",
    "ldxdw r0, [r10-512]\nexit",
    "ldxdw r0, [r10-8]\nexit",
    "ldxb r0, [r10-1]\nexit",
];

/// Loads from the headroom and the tailroom, which are zeros at the start of a run.
static ROOM_LOADS: [&str; 4] = [
    "ldxdw r2, [r1+0]\nldxdw r0, [r2-64]\nexit",
    "ldxdw r3, [r1+8]\nldxb r0, [r3+0]\nexit",
    "ldxdw r3, [r1+8]\nldxb r0, [r3+1]\nexit",
    "ldxdw r3, [r1+8]\nldxb r0, [r3+2]\nexit",
];

/// Loads from the stack after a run that has filled it: each load is stuck.
fn expect_empty_stack<R: Abort + AllocGlobal>(rt: &R) -> Result<(), Fail> {
    let mut frame = Frame::new(rt.alloc())?;
    for text in STACK_LOADS {
        let code = decode(rt.alloc(), &assembled(rt, text)?)?;
        use_all(rt, &mut frame, &[1, 2, 3, 4])?;
        start_on(&mut frame, &CLIENT, &[1, 2, 3, 4]);
        let ended = trace(&code, &mut frame, &NoAllocation, &mut Silent);
        let reason = Reason::UninitStack;
        assert_eq!(rt; ended, Err(Stuck { reason, slot: 0 }), "{text:?}");
    }
    Ok(())
}

/// Loads from the headroom and the tailroom of a datagram of four bytes, after a run that has written those of another.
fn expect_zeros<R: Abort + AllocGlobal>(rt: &R, first: &[u8]) -> Result<(), Fail>
    requires { length first.now ≤ 65507 }
{
    let mut frame = Frame::new(rt.alloc())?;
    for text in ROOM_LOADS {
        let file = assembled(rt, text)?;
        let loaded = load(rt.alloc(), &file)?;
        use_all(rt, &mut frame, first)?;
        start_on(&mut frame, &CLIENT, &[1, 2, 3, 4]);
        let outcome = run(loaded.program(), &mut frame, &NoAllocation);
        assert_eq!(rt; outcome.verdict, 0, "{text:?}");
    }
    Ok(())
}

#[test]
fn a_run_leaves_nothing_to_the_next(rt: HostRuntime) -> Result<(), Fail> {
    expect_whole_stack(&rt)?;
    expect_no_plan(&rt)?;
    expect_empty_stack(&rt)?;
    expect_zeros(&rt, &[1, 2, 3, 4])?;
    // the tailroom of four bytes is where the last three of seven were
    expect_zeros(&rt, &[1, 2, 3, 4, 5, 6, 7])
}
