// Runs test vectors through the calls, one printed line each; reference/README.md lays out the vectors and the lines. Of an accepted
// layout the document laid out is tested by two other calls before its line is printed.
#![tactic(auto)]

mod check;
mod print;
mod read;
mod table;

use calls::fits::fits_call;
use calls::nodes::nodes_call;
use calls::paths::{Paths, paths_call};
use calls::result::result_call;
use containment::Containment;
use deciding::verdict_call;
use laying::laid::laid_out;
use moving::downgrade::downgrade_call;
use moving::upgrade::upgrade_call;
use normalising::normalise_call;
use print::parts;
use questions::refusal::Refusal;
use read::{Call, Vector, read_vector};
use std::io::Read;
use striking::minimise_call;
use table::Record;

// The number of the refusal, the kind and what was tried, as document 01 gives them.
fn run_verdict(rt: &impl Print, v: &Vector, answer: &mut [u8]) {
    let (refused, kind, tried) = match verdict_call(v.case, v.head.limit, v.head.account, answer) {
        Ok(Containment::Contained(tried)) => (0, 1, tried),
        Ok(Containment::NotContained(tried)) => (0, 2, tried),
        Ok(Containment::Stopped(tried)) => (0, 3, tried),
        Err(refusal) => (refusal.number(), 0, 0),
    };
    let _ = print!(rt; "verdict refused {refused} kind {kind} tried {tried}");
    print::buffer(rt, answer);
}

fn run_minimise(rt: &impl Print, v: &Vector, answer: &mut [u8]) {
    let (refused, struck, tried) = match minimise_call(
        v.case,
        v.head.limit,
        v.head.account,
        answer,
    ) {
        Ok(minimised) => (0, minimised.struck, minimised.tried),
        Err(refusal) => (refusal.number(), 0, 0),
    };
    let _ = print!(rt; "minimise refused {refused} struck {struck} tried {tried}");
    print::buffer(rt, answer);
}

// An answer that is yes, 1, or no, 0.
fn print_test(rt: &impl Print, call: &str, answer: Result<bool, Refusal>) {
    let (refused, holds) = parts(answer.map(u64::from));
    let _ = println!(rt; "{call} refused {refused} holds {holds}");
}

// An answer that is a count, and the answer buffer.
fn print_count(rt: &impl Print, call: &str, count: Result<usize, Refusal>, answer: &[u8]) {
    let (refused, count) = parts(count.map(|n| n as u64));
    let _ = print!(rt; "{call} refused {refused} count {count}");
    print::buffer(rt, answer);
}

fn print_all(rt: &impl Print, numbers: &[u64]) {
    for n in numbers {
        let _ = print!(rt; " {n}");
    }
}

fn run_paths(rt: &impl Print, v: &Vector) {
    let (refused, paths) = match paths_call(v.case, v.head.number) {
        Ok(paths) => (0, paths),
        Err(refusal) => (
            refusal.number(),
            Paths {
                masks: [0; 16],
                counts: [0; 16],
            },
        ),
    };
    let (masks, counts) = (paths.masks, paths.counts);
    let _ = print!(rt; "paths refused {refused} masks");
    print_all(rt, &masks);
    let _ = print!(rt; " counts");
    print_all(rt, &counts);
    let _ = println!(rt; "");
}

// The word "unchecked" makes the line another than the reference's: what was laid out does not fit, or the pattern's own nodes are
// no result in it.
fn run_layout(rt: &impl Print, v: &Vector, table: &mut [Record]) {
    let (refused, count) = match laid_out(v.case, v.head.number, v.list, table.len()) {
        Ok(laid) => {
            let nodes = laid.records();
            table::fill(table, nodes);
            (0, nodes.len())
        }
        Err(refusal) => (refusal.number(), 0),
    };
    let unchecked = if 0 < count && !check::layout_kept(v, table, count) {
        " unchecked"
    } else {
        ""
    };
    let _ = print!(rt; "layout{unchecked} refused {refused} count {count}");
    print::table(rt, table);
}

// A table filled with a pattern is lent. A length beyond the room here is cut to it.
fn with_table(rt: &impl Print, v: &Vector) {
    let mut room = [Record::blank(); 8192];
    let length = (v.head.length as usize).min(8192);
    let table = &mut room[..length];
    run_layout(rt, v, table);
}

// An answer buffer filled with a pattern is lent likewise.
fn with_answer(rt: &impl Print, v: &Vector) {
    let mut room = [0xaau8; 70000];
    let length = (v.head.length as usize).min(70000);
    let answer = &mut room[..length];
    match v.head.call {
        Call::Verdict => run_verdict(rt, v, answer),
        Call::Minimise => run_minimise(rt, v, answer),
        Call::Nodes => {
            let count = nodes_call(v.case, v.head.number, v.document, v.head.position, answer);
            print_count(rt, "nodes", count, answer);
        }
        Call::Upgrade => {
            let count = upgrade_call(v.case, answer);
            print_count(rt, "upgrade", count, answer);
        }
        Call::Downgrade => {
            let count = downgrade_call(v.case, answer);
            print_count(rt, "downgrade", count, answer);
        }
        _ => {
            let count = normalise_call(v.case, answer);
            print_count(rt, "normalise", count, answer);
        }
    }
}

// The line of one vector.
fn line(rt: &impl Print, v: &Vector) {
    match v.head.call {
        Call::Fits => print_test(rt, "fits", fits_call(v.case, v.document)),
        Call::Result => print_test(
            rt,
            "result",
            result_call(v.case, v.head.number, v.document, v.list),
        ),
        Call::Paths => run_paths(rt, v),
        Call::Layout => with_table(rt, v),
        _ => with_answer(rt, v),
    }
}

// The next vector's line; none where there is no further one.
fn turn<R: Read>(rt: &impl Print, input: &mut R) -> Option<()> {
    let mut case = [0u8; 70000];
    let mut document = [0u8; 70000];
    let mut list = [0u8; 70000];
    let v = read_vector(input, &mut case, &mut document, &mut list)?;
    line(rt, &v);
    Some(())
}

// The input is read as it is needed, and so no memory grows with it.
fn main(rt: HostRuntime) {
    let mut input = rt.stdin();
    for _ in 0..1_000_000 {
        if turn(&rt, &mut input).is_none() {
            return;
        }
    }
}
