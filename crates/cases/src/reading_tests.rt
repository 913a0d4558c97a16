ghost use Rattle.std.specs.Prelude.{◌≤◌, length};

use reading::program::read_program;

const ROOM: usize = 4104;

// How many functions a script has, if it is a program.
fn functions(script: &[u8]) -> Option<usize>
    requires { length script.now ≤ 4104 }
{
    let mut ends = [0u32; ROOM];
    let mut starts = [0u32; 64];
    let mut needs = [0u32; ROOM];
    read_program(script, &mut ends, &mut starts, &mut needs)
}

#[test]
fn programs(rt: HostRuntime) {
    assert_eq!(rt; functions(&[]), Some(0), "no functions at all");
    assert_eq!(rt; functions(&[0, 1]), Some(1), "a leaf");
    assert_eq!(rt;
        functions(&[2, 3, 0, 1, 5, 0, 2, 0, 3, 0, 0]),
        Some(1),
        "arguments that change places"
    );
    assert_eq!(rt;
        functions(&[8, 0, 7]),
        Some(1),
        "8 arguments, the last of them"
    );
    assert_eq!(rt;
        functions(&[1, 4, 0, 0, 0, 1]),
        Some(1),
        "the argument under a bound variable"
    );
    assert_eq!(rt;
        functions(&[1, 3, 0, 1, 0, 2]),
        Some(1),
        "the argument under its parts"
    );
}

#[test]
fn no_programs(rt: HostRuntime) {
    assert_eq!(rt; functions(&[0]), None, "no body");
    assert_eq!(rt; functions(&[0, 2, 1]), None, "a truncated body");
    assert_eq!(rt; functions(&[1, 0]), None, "a variable without its number");
    assert_eq!(rt; functions(&[0, 5, 0]), None, "a truncated call");
    assert_eq!(rt; functions(&[0, 1, 0]), None, "a trailing byte");
    assert_eq!(rt; functions(&[0, 6]), None, "no such expression");
    assert_eq!(rt; functions(&[9, 1]), None, "9 arguments");
    assert_eq!(rt; functions(&[8, 0, 8]), None, "one past the arguments");
    assert_eq!(rt;
        functions(&[1, 4, 0, 0, 0, 2]),
        None,
        "one past a bound variable's view"
    );
    assert_eq!(rt;
        functions(&[1, 3, 0, 1, 0, 3]),
        None,
        "one past the view of parts"
    );
    assert_eq!(rt;
        functions(&[1, 3, 0, 0, 1, 1]),
        None,
        "one past the view where a leaf is taken apart"
    );
    assert_eq!(rt;
        functions(&[1, 3, 1, 1, 1]),
        None,
        "parts of a variable that is not there"
    );
}

#[test]
fn no_calls(rt: HostRuntime) {
    assert_eq!(rt; functions(&[1, 5, 0, 0]), None, "one argument too few");
    assert_eq!(rt; functions(&[1, 5, 0, 2, 1, 1]), None, "one too many");
    assert_eq!(rt; functions(&[0, 5, 1, 0]), None, "no such function");
    assert_eq!(rt;
        functions(&[0, 5, 1, 0, 1, 0, 0]),
        None,
        "a later function that takes another number"
    );
    assert_eq!(rt; functions(&[0, 5, 1, 0, 0, 1]), Some(2), "a later function");
}

#[test]
fn limits(rt: HostRuntime) {
    let mut script = [0u8; 130];
    for function in script.chunks_exact_mut(2) {
        function[1] = 1;
    }
    assert_eq!(rt; functions(&script[0..128]), Some(64), "64 functions");
    assert_eq!(rt; functions(&script), None, "65 functions");
}

// A body of one deep nest: nodes within nodes, 4,096 bytes with the number of arguments.
#[test]
fn long_scripts(rt: HostRuntime) {
    let mut script = [1u8; 4097];
    script[0] = 0;
    script[1..2048].fill(2);
    assert_eq!(rt;
        functions(&script[0..4096]),
        Some(1),
        "4,096 bytes, nested 2,047 deep"
    );
    script[2048] = 2;
    assert_eq!(rt; functions(&script[0..4096]), None, "one node too many");
    let mut flat = [1u8; 4097];
    flat[0] = 0;
    assert_eq!(rt; functions(&flat), None, "4,097 bytes");
}
