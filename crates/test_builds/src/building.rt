//! Tests of `build` with gates.

use crate::files::files_of;
use crate::gates::{Always, Counting, Meeting};
use crate::samples::LINK;
use m2c::{BuildFault, Gate, Options, Outcome, SourceFile, build};
use std::process::Abort;
use std::thread::Threads;

/// The body of the first program's module: the size, the locals, the prologue with its check of the stack, and the call of put.
const BODY: [u8; 36] = [
    0x23, 0x02, 0x02, 0x7F, 0x00, 0x7E, 0x20, 0x00, 0x41, 0x10, 0x6A, 0x22, 0x01, 0x23, 0x00, 0x4B,
    0x04, 0x40, 0x42, 0x08, 0x10, 0x01, 0x00, 0x0B, 0x20, 0x00, 0x41, 0x10, 0x10, 0x03, 0x42, 0xC1,
    0x00, 0x10, 0x00, 0x0B,
];

const FIRST: &str = "MODULE M; FROM Console IMPORT Put; BEGIN Put(\"A\") END M.";

const EMPTY: &str = "MODULE N; BEGIN END N.";

/// Two definitions that import nothing, their implementations, and a program that imports both: five jobs in each round.
const FIVE: [(&str, &str); 5] = [
    ("A.def", "DEFINITION MODULE A; END A."),
    ("A.mod", "IMPLEMENTATION MODULE A; END A."),
    ("B.def", "DEFINITION MODULE B; END B."),
    ("B.mod", "IMPLEMENTATION MODULE B; END B."),
    ("P.mod", "MODULE P; IMPORT A, B; END P."),
];

fn options(workers: usize) -> Options {
    Options { workers, pages: 16 }
}

/// What is reported of the files, a line for each refusal, or nothing if they are built.
fn report_of<R: Threads + Sync + AllocGlobal, G: Gate + Sync>(
    rt: &R,
    files: &[SourceFile],
    options: Options,
    gate: &G,
) -> Result<String, BuildFault> {
    let alloc = rt.alloc();
    let mut text = String::new(alloc);
    if let Outcome::Refused(refusals) = build(rt, alloc, files, options, gate)? {
        for refusal in &refusals {
            let line = format!(in alloc; "{refusal};")?;
            text.push_str(line.as_str())?;
        }
    }
    Ok(text)
}

/// What is built of the first program has its bytes.
fn expect_first<R: Threads + Sync + Abort + AllocGlobal>(rt: &R, gate: &Always) {
    let files = files_of(rt.alloc(), &[("m.mod", FIRST)]).expect(rt, "memory");
    match build(rt, rt.alloc(), &files, options(4), gate).expect(rt, "an answer") {
        Outcome::Refused(_) => assert!(rt; false, "the first program is refused"),
        Outcome::Built { link, modules } => {
            assert!(rt; link.as_slice() == LINK.as_slice());
            assert!(rt; modules.len() == 1);
            assert!(rt; modules[0].0.as_str() == "M");
            assert!(rt; modules[0].1.as_slice().ends_with(&BODY));
        }
    }
}

#[test]
fn who_is_never_let_in_leaves_all_to_the_gatherer(rt: HostRuntime) {
    expect_first(&rt, &Always(false));
}

#[test]
fn workers_meet_at_the_gate(rt: HostRuntime) {
    let texts = [("n.mod", EMPTY), ("m.mod", FIRST)];
    let files = files_of(rt.alloc(), &texts).expect(&rt, "memory");
    let gate = Meeting::after(0);
    let text = report_of(&rt, &files, options(2), &gate).expect(&rt, "an answer");
    assert!(rt; text.as_str() == "n.mod:1:8: refusal 23;");
    assert!(rt; gate.met());
}

#[test]
fn each_job_of_both_rounds_comes_to_the_gate(rt: HostRuntime) {
    let files = files_of(rt.alloc(), &FIVE).expect(&rt, "memory");
    for workers in [1, 2] {
        let gate = Counting::new();
        let text = report_of(&rt, &files, options(workers), &gate);
        assert!(rt; text.is_ok() && gate.asked() == 10, "{workers}");
    }
}

#[test]
fn workers_meet_in_the_second_round(rt: HostRuntime) {
    let files = files_of(rt.alloc(), &FIVE).expect(&rt, "memory");
    let gate = Meeting::after(5);
    let text = report_of(&rt, &files, options(2), &gate);
    assert!(rt; text.is_ok() && gate.met());
}
