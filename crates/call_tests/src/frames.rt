//! What frames, sinks and addresses show.

use crate::shared::PEER;
use insn::Insn;
use machine::{Addr, Frame, Helpers, KEPT, Kept, NoAllocation, Silent, Sink, trace};
use std::process::Abort;
use std::test::Fail;

/// Writes into a frame and starts it, and compares what it shows.
fn expect_written_frame<R: Abort + AllocGlobal>(rt: &R) -> Result<(), Fail> {
    let mut frame = Frame::new(rt.alloc())?;
    assert!(rt; !frame.started());
    assert_eq!(rt; frame.area().len(), 65_507);
    let (room, _) = frame.area().split_at_mut(3);
    room.copy_from_slice(&[1, 2, 3]);
    assert!(rt; !frame.started());
    frame.start(&PEER, 2);
    assert!(rt; frame.started());
    assert_eq!(rt; frame.datagram(), [1, 2].as_slice());
    assert_eq!(rt; frame.window(), None);
    frame.area();
    assert!(rt; !frame.started());
    Ok(())
}

/// Traces a jump and an exit without a verdict, and returns the sink that stores both.
fn kept_of_two<R: Abort + AllocGlobal>(rt: &R) -> Result<Kept, Fail> {
    let code = [Insn::Jump { offset: 0 }, Insn::Exit];
    let mut frame = Frame::new(rt.alloc())?;
    frame.start(&PEER, 0);
    let mut kept = Kept::new(rt.alloc())?;
    assert!(rt; trace(&code, &mut frame, &NoAllocation, &mut kept).is_err());
    assert!(rt; !frame.started());
    let slots: Vec<usize> = kept.visits().iter().map(|v| v.slot).collect(rt.alloc())?;
    assert_eq!(rt; slots.as_slice(), [0, 1].as_slice());
    Ok(kept)
}

/// Reports more steps to it than it stores.
fn expect_kept<R: Abort + AllocGlobal>(rt: &R) -> Result<(), Fail> {
    let mut kept = kept_of_two(rt)?;
    for _ in 0..KEPT {
        kept.step(7, &Insn::Exit);
    }
    assert_eq!(rt; kept.visits().len(), KEPT);
    Silent.step(0, &Insn::Exit);
    assert_eq!(rt; NoAllocation.answer(1, 2, [3; 20]), (0, [0; 20]));
    Ok(())
}

/// Compares the texts of two addresses.
fn expect_addresses<R: Abort + AllocGlobal>(rt: &R) -> Result<(), Fail> {
    let v4 = Addr::V4 {
        ip: [192, 0, 2, 7],
        port: 5000,
    };
    let shown = format!(in rt.alloc(); "{v4}")?;
    assert_eq!(rt; shown.as_str(), "192.0.2.7:5000");
    let ip = [0x20, 1, 0x0d, 0xb8, 0, 0, 0, 0, 0, 0, 0, 0, 0, 0, 0, 1];
    let v6 = Addr::V6 { ip, port: 9 };
    let shown = format!(in rt.alloc(); "{v6}")?;
    assert_eq!(rt; shown.as_str(), "[20010db8000000000000000000000001]:9");
    Ok(())
}

#[test]
fn frames_sinks_and_addresses_show_what_they_have(rt: HostRuntime) -> Result<(), Fail> {
    expect_written_frame(&rt)?;
    expect_kept(&rt)?;
    expect_addresses(&rt)
}
