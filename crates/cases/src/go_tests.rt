use ends::{Limits, Refusal, Value, go};
use std::process::Abort;

const WORDS: usize = 60000;

const ACK: [u8; 29] = [
    2, 3, 0, 2, 1, 0, 1, 3, 3, 5, 0, 2, 0, 0, 2, 1, 1, 5, 0, 2, 0, 2, 5, 0, 2, 0, 4, 0, 0,
];

// A value of so many bytes, with so much room left.
fn value(bytes: usize, room: u32) -> Result<Value, Refusal> {
    Ok(Value { bytes, room })
}

// A call of Ackermann's function with so many calls open inside and so much room.
fn ack(args: &[u8], depth: u32, room: u32, out: &mut [u8]) -> Result<Value, Refusal> {
    let mut work = [0u32; WORDS];
    let limits = Limits {
        ways: 2,
        depth,
        room,
    };
    go(&ACK, limits, 0, args, out, &mut work)
}

// A refusal, which leaves `out` as it was.
fn refused(
    rt: &impl Abort,
    script: &[u8],
    ways: u32,
    function: usize,
    args: &[u8],
    refusal: Refusal,
    what: &str,
) {
    let mut work = [0u32; WORDS];
    let mut out = [9u8; 4];
    let limits = Limits {
        ways,
        depth: 1,
        room: 3,
    };
    assert_eq!(rt;
        go(script, limits, function, args, &mut out, &mut work),
        Err(refusal),
        "{what}"
    );
    assert_eq!(rt; out, [9, 9, 9, 9], "{what}: out is as it was");
}

#[test]
fn worked_runs(rt: HostRuntime) {
    let mut out = [9u8; 8];
    assert_eq!(rt;
        ack(&[0, 0], 0, 1, &mut out),
        value(3, 0),
        "ack(0, 0) with a room of one"
    );
    assert_eq!(rt; out, [1, 0, 0, 9, 9, 9, 9, 9]);
    assert_eq!(rt;
        ack(&[0, 0], 0, 0, &mut out),
        Err(Refusal::Full),
        "with none"
    );
    assert_eq!(rt;
        ack(&[1, 0, 0, 0], 0, 2, &mut out),
        value(5, 0),
        "ack(1, 0), no call open inside"
    );
    assert_eq!(rt; out, [1, 0, 1, 0, 0, 9, 9, 9]);
    assert_eq!(rt;
        ack(&[1, 0, 0, 1, 0, 0], 0, 9, &mut out),
        Err(Refusal::Deep),
        "ack(1, 1) with none open"
    );
    assert_eq!(rt; out, [1, 0, 1, 0, 0, 9, 9, 9], "out is as it was");
    assert_eq!(rt;
        ack(&[1, 0, 0, 1, 0, 0], 1, 5, &mut out),
        value(7, 2),
        "with one"
    );
    assert_eq!(rt; out, [1, 0, 1, 0, 1, 0, 0, 9]);
}

#[test]
fn just_enough(rt: HostRuntime) {
    let args = [1u8, 0, 0, 1, 0, 0];
    let mut out = [9u8; 8];
    assert_eq!(rt;
        ack(&args, 1, 3, &mut out),
        value(7, 0),
        "room exactly enough"
    );
    assert_eq!(rt;
        ack(&args, 1, 2, &mut out),
        Err(Refusal::Full),
        "and one less"
    );
    let mut seven = [9u8; 7];
    assert_eq!(rt;
        ack(&args, 1, 3, &mut seven),
        value(7, 0),
        "out exactly enough"
    );
    let mut six = [9u8; 6];
    assert_eq!(rt;
        ack(&args, 1, 3, &mut six),
        Err(Refusal::OutFull),
        "and one less"
    );
    assert_eq!(rt; six, [9, 9, 9, 9, 9, 9], "out is as it was");
}

#[test]
fn refusals(rt: HostRuntime) {
    refused(
        &rt,
        &ACK,
        2,
        1,
        &[0, 0],
        Refusal::BadCall,
        "no such function",
    );
    refused(&rt, &ACK, 2, 0, &[0], Refusal::BadCall, "one tree too few");
    refused(
        &rt,
        &ACK,
        2,
        0,
        &[0, 0, 0],
        Refusal::BadCall,
        "one too many",
    );
    refused(&rt, &ACK, 2, 0, &[0, 2], Refusal::BadCall, "no tree");
    refused(
        &rt,
        &ACK,
        1,
        0,
        &[0, 0],
        Refusal::Unproved,
        "more ways than allowed",
    );
    refused(
        &rt,
        &[2, 3, 0, 1, 5, 0, 2, 0, 3, 0, 2],
        9,
        0,
        &[0, 0],
        Refusal::Unproved,
        "no reason",
    );
    refused(&rt, &[9], 9, 0, &[0, 0], Refusal::Unproved, "no program");
    refused(
        &rt,
        &[9],
        5000,
        0,
        &[0, 0],
        Refusal::Small,
        "small before unproved",
    );
}

#[test]
fn just_enough_words(rt: HostRuntime) {
    let mut work = [0u32; 22476];
    let mut out = [9u8; 4];
    let limits = Limits {
        ways: 2,
        depth: 0,
        room: 1,
    };
    assert_eq!(rt;
        go(&ACK, limits, 0, &[0, 0], &mut out, &mut work),
        value(3, 0)
    );
    assert_eq!(rt;
        go(&ACK, limits, 0, &[0, 0], &mut out, &mut work[0..22475]),
        Err(Refusal::Small),
        "one word less"
    );
}
