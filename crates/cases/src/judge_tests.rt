ghost use Rattle.std.specs.Prelude.{◌≤◌, length};

use ends::{Judged, judge};
use std::process::Abort;

const WORDS: usize = 20000;

// What is said of a script of some bytes with so many ways allowed.
fn judged(script: &[u8], ways: u32) -> Judged {
    let mut work = [0u32; WORDS];
    judge(script, ways, &mut work)
}

// The verdict, and that the script has just so many ways: with one less allowed there are too many.
fn check_judged(rt: &impl Abort, script: &[u8], ways: u32, verdict: Judged, what: &str) {
    assert_eq!(rt; judged(script, ways), verdict, "{what}");
    if ways == 0 {
        return;
    }
    assert_eq!(rt;
        judged(script, ways - 1),
        Judged::Many,
        "{what}: one way less allowed"
    );
}

#[test]
fn worked_scripts(rt: HostRuntime) {
    check_judged(
        &rt,
        &[
            2, 3, 0, 2, 1, 0, 1, 3, 3, 5, 0, 2, 0, 0, 2, 1, 1, 5, 0, 2, 0, 2, 5, 0, 2, 0, 4, 0, 0,
        ],
        2,
        Judged::Ends,
        "Ackermann's function",
    );
    check_judged(
        &rt,
        &[2, 3, 0, 1, 5, 0, 2, 0, 3, 0, 0],
        3,
        Judged::Ends,
        "f(y, right part of x)",
    );
    check_judged(
        &rt,
        &[2, 3, 0, 1, 5, 0, 2, 0, 3, 0, 2],
        2,
        Judged::NoReason,
        "f(y, x)",
    );
    check_judged(
        &rt,
        &[1, 3, 0, 1, 5, 1, 1, 0, 2, 1, 3, 0, 1, 5, 0, 1, 0, 0],
        5,
        Judged::Ends,
        "f and g in turn",
    );
    check_judged(
        &rt,
        &[1, 3, 0, 1, 5, 1, 1, 0, 2, 1, 5, 0, 1, 2, 0, 0, 1],
        5,
        Judged::NoReason,
        "g with node(x, leaf)",
    );
    check_judged(&rt, &[0, 5, 0, 0], 1, Judged::NoReason, "f() = f()");
    check_judged(&rt, &[0, 5, 1, 0, 0, 1], 1, Judged::Ends, "f() = g()");
    check_judged(
        &rt,
        &[1, 4, 0, 0, 3, 0, 1, 5, 0, 1, 0, 0],
        1,
        Judged::Ends,
        "a bound variable",
    );
    check_judged(
        &rt,
        &[3, 3, 0, 1, 5, 0, 3, 0, 3, 0, 4, 0, 0],
        5,
        Judged::Ends,
        "three arguments turned",
    );
}

#[test]
fn traps(rt: HostRuntime) {
    check_judged(
        &rt,
        &[1, 3, 0, 1, 3, 0, 1, 5, 0, 1, 2, 0, 1, 0, 0],
        1,
        Judged::NoReason,
        "the sum falls, by a node made anew of parts",
    );
    check_judged(
        &rt,
        &[1, 4, 2, 0, 0, 1, 3, 0, 1, 5, 0, 1, 0, 1],
        1,
        Judged::NoReason,
        "a part of a bound value",
    );
    check_judged(
        &rt,
        &[1, 3, 0, 1, 5, 1, 1, 0, 0, 1, 5, 0, 1, 2, 1, 2, 1, 0, 0],
        5,
        Judged::NoReason,
        "smaller and larger in turns",
    );
    check_judged(
        &rt,
        &[2, 3, 0, 1, 5, 1, 2, 0, 0, 0, 3, 2, 5, 0, 2, 0, 1, 0, 1],
        5,
        Judged::NoReason,
        "compared with the wrong place",
    );
    check_judged(
        &rt,
        &[2, 3, 0, 1, 3, 3, 1, 2, 5, 0, 2, 0, 2, 1, 5, 0, 2, 1, 0, 0],
        3,
        Judged::NoReason,
        "each step is fine, and two after another are not",
    );
    check_judged(
        &rt,
        &[1, 4, 1, 3, 0, 1, 5, 0, 1, 0, 3],
        1,
        Judged::NoReason,
        "a call that can't be reached",
    );
}

#[test]
fn answers_in_order(rt: HostRuntime) {
    check_judged(&rt, &[], 0, Judged::Ends, "no functions");
    assert_eq!(rt;
        judged(&[0, 5, 0, 0], 0),
        Judged::Many,
        "many before no reason"
    );
    assert_eq!(rt; judged(&[9], 0), Judged::NoProgram);
    let mut work = [0u32; 16704];
    assert_eq!(rt;
        judge(&[0, 5, 0, 0], 1, &mut work),
        Judged::NoReason,
        "just enough words"
    );
    assert_eq!(rt;
        judge(&[0, 5, 0, 0], 1, &mut work[0..16703]),
        Judged::Few,
        "one word less"
    );
    let mut fewer = [0u32; 16511];
    assert_eq!(rt;
        judge(&[9], 1, &mut fewer),
        Judged::Few,
        "few before no program"
    );
}
