use media::Side::{Draft, Old};
use media::{Bench, Paged, Plan, Side};
use medium::{Fault, Medium, WriteBuffer};
use std::process::Abort;
use std::test::Fail;

// A failure at a step, counted from 1 on.
fn plan(step: Option<u64>, keep: usize, side: Side) -> Plan {
    Plan {
        after: step.map(|step| step.saturating_sub(1)),
        keep,
        side,
    }
}

// The fixed list of calls, on a medium whose live bytes are "z": nine steps.
fn calls<M: Medium>(m: &mut M) -> Result<(), Fault> {
    m.append(b"ab")?;
    m.sync()?;
    m.append(b"cd")?;
    let draft = m.begin()?;
    if let Err(e) = write_draft(m, &draft) {
        m.give_up(draft);
        return Err(e);
    }
    m.promote(draft)?;
    m.sync()
}

fn write_draft<M: Medium>(m: &mut M, draft: &M::Draft) -> Result<(), Fault> {
    m.draft_append(draft, b"xyz")?;
    m.draft_sync(draft)?;
    m.draft_append(draft, b"w")
}

// Makes the calls until one fails, and reads what is live when the power is back.
fn survivors<M: Medium>(m: &mut M, out: &mut [u8]) -> Result<usize, Fault> {
    let _ = calls(m);
    m.power_return()?;
    m.read(0, out)
}

fn on_bench(plan: Plan, out: &mut [u8]) -> Result<usize, Fault> {
    let mut live = [b'z'; 16];
    let mut draft = [0; 16];
    let mut bench = Bench::new(&mut live, &mut draft, 1, plan);
    survivors(&mut bench, out)
}

// On two write buffers over a bench. It makes its own bench, as `on_bench` does: a bench lies over arrays of the function that makes it.
fn on_pile(plan: Plan, out: &mut [u8]) -> Result<usize, Fault> {
    let mut live = [b'z'; 16];
    let mut draft = [0; 16];
    let bench = Bench::new(&mut live, &mut draft, 1, plan);
    let mut two = WriteBuffer::new(WriteBuffer::new(bench));
    survivors(&mut two, out)
}

// A failure at `step`, counted from 1 on, and `side` leaves a first part of the old live bytes, "zabcd",
// or, once promoted, of the draft, "xyzw": as long as `left` says where none, one and all of the pending bytes are kept.
#[derive(Clone, Copy, Drop)]
struct Row {
    step: Option<u64>,
    side: Side,
    promoted: bool,
    left: [usize; 3],
}

// Step, side, promoted, left.
type Columns = (Option<u64>, Side, bool, [usize; 3]);

impl From<Columns> for Row {
    fn from((step, side, promoted, left): Columns) -> Row {
        Row {
            step,
            side,
            promoted,
            left,
        }
    }
}

// `told` answers the survivors of a plan.
fn check_row<F>(rt: &impl Abort, row: Row, told: F) -> Result<(), Fail>
where
    F: Fn(Plan, &mut [u8]) -> Result<usize, Fault>,
    requires { F.IsAlwaysCallable told }
{
    let text: &[u8] = if row.promoted { b"xyzw" } else { b"zabcd" };
    for (keep, left) in [0, 1, 9].into_iter().zip(row.left) {
        let mut out = [0; 8];
        let n = told(plan(row.step, keep, row.side), &mut out)?;
        assert_eq!(rt; n, left);
        assert!(rt; n <= text.len() && n <= 8);
        assert_eq!(rt; &out[0..n], &text[0..n]);
    }
    Ok(())
}

const BENCH: [Columns; 20] = [
    (None, Old, true, [4, 4, 4]),
    (Some(1), Old, false, [1, 2, 3]),
    (Some(1), Draft, false, [1, 2, 3]),
    (Some(2), Old, false, [1, 2, 3]),
    (Some(2), Draft, false, [1, 2, 3]),
    (Some(3), Old, false, [3, 4, 5]),
    (Some(3), Draft, false, [3, 4, 5]),
    (Some(4), Old, false, [3, 4, 5]),
    (Some(4), Draft, false, [3, 4, 5]),
    (Some(5), Old, false, [3, 4, 5]),
    (Some(5), Draft, false, [3, 4, 5]),
    (Some(6), Old, false, [3, 4, 5]),
    (Some(6), Draft, false, [3, 4, 5]),
    (Some(7), Old, false, [3, 4, 5]),
    (Some(7), Draft, false, [3, 4, 5]),
    (Some(8), Old, false, [3, 4, 5]),
    (Some(8), Draft, true, [3, 4, 4]),
    (Some(9), Old, true, [3, 4, 4]),
    (Some(9), Draft, true, [3, 4, 4]),
    (Some(10), Draft, true, [4, 4, 4]),
];

// The buffers hold "cd" back, and a granted promote drops it: eight steps on the bench below.
const PILE: [Columns; 18] = [
    (None, Old, true, [4, 4, 4]),
    (Some(1), Old, false, [1, 2, 3]),
    (Some(1), Draft, false, [1, 2, 3]),
    (Some(2), Old, false, [1, 2, 3]),
    (Some(2), Draft, false, [1, 2, 3]),
    (Some(3), Old, false, [3, 3, 3]),
    (Some(3), Draft, false, [3, 3, 3]),
    (Some(4), Old, false, [3, 3, 3]),
    (Some(4), Draft, false, [3, 3, 3]),
    (Some(5), Old, false, [3, 3, 3]),
    (Some(5), Draft, false, [3, 3, 3]),
    (Some(6), Old, false, [3, 3, 3]),
    (Some(6), Draft, false, [3, 3, 3]),
    (Some(7), Old, false, [3, 3, 3]),
    (Some(7), Draft, true, [3, 4, 4]),
    (Some(8), Old, true, [3, 4, 4]),
    (Some(8), Draft, true, [3, 4, 4]),
    (Some(9), Draft, true, [4, 4, 4]),
];

fn check_rows<F>(rt: &impl Abort, rows: &[Columns], told: F) -> Result<(), Fail>
where
    F: Copy + Fn(Plan, &mut [u8]) -> Result<usize, Fault>,
    requires { F.IsAlwaysCallable told }
{
    for row in rows {
        check_row(rt, (*row).into(), told)?;
    }
    Ok(())
}

#[test]
fn bench_fails_where_it_is_told(rt: HostRuntime) -> Result<(), Fail> {
    check_rows(&rt, &BENCH, on_bench)
}

#[test]
fn a_pile_loses_what_it_holds(rt: HostRuntime) -> Result<(), Fail> {
    check_rows(&rt, &PILE, on_pile)
}

// How many bytes are live after three appends of 300 bytes and a sync.
fn thrice<M: Medium>(m: &mut M) -> Result<usize, Fault> {
    let bytes = [7; 300];
    for _ in 0..3 {
        let _ = m.append(&bytes);
    }
    let _ = m.sync();
    m.power_return()?;
    m.length()
}

fn thrice_on_pile(step: Option<u64>, keep: usize) -> Result<usize, Fault> {
    let mut live = [0; 1000];
    let mut draft = [0; 1000];
    let bench = Bench::new(&mut live, &mut draft, 0, plan(step, keep, Old));
    let mut two = WriteBuffer::new(WriteBuffer::new(bench));
    thrice(&mut two)
}

// The second append passes 300 bytes below, and then its own: two appends of 300 bytes on the bench. The sync passes the
// third as one append.
#[test]
fn a_pile_passes_what_is_too_much(rt: HostRuntime) -> Result<(), Fail> {
    for (step, keep, left) in [
        (None, 0, 900),
        (Some(3), 650, 650),
        (Some(3), 1000, 900),
        (Some(4), 0, 0),
        (Some(4), 899, 899),
    ] {
        assert_eq!(rt; thrice_on_pile(step, keep)?, left);
    }
    Ok(())
}

// How many of 300 bytes are live after a power failure, where the first `durable` of them were made durable.
fn kept_pages(durable: usize) -> Result<usize, Fault> {
    let mut m = Paged::new();
    let bytes = [7; 300];
    let first = durable.min(300);
    m.append(&bytes[0..first])?;
    m.sync()?;
    m.append(&bytes[first..300])?;
    m.power_failure();
    m.power_return()?;
    m.length()
}

#[test]
fn paged_keeps_whole_pages(rt: HostRuntime) -> Result<(), Fail> {
    for (durable, left) in [(0, 256), (255, 256), (256, 256), (257, 257), (300, 300)] {
        assert_eq!(rt; kept_pages(durable)?, left);
    }
    Ok(())
}
