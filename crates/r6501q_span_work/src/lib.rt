// The CPU's steps in a span, one at a time: an instruction that starts in it, or the byte that waits put.
// Memory and page sums are lent as two slices: one behind a field of a lent struct is known no more once it has been
// lent to be read, and an instruction reads before it writes.
#![tactic(auto)]

ghost use Rattle.std.specs.Prelude.{◌≡◌, ◌+◌, ◌≤◌};
ghost use Rattle.page_sums.specs.PageSums.{sums_after};
ghost use Rattle.cpu.specs.Work.{WithinSpan};
ghost use Rattle.r6501q_span_reads.specs.Steady.{outcome_within};
ghost use Rattle.r6501q_spans.specs.Spans.{next_working};
ghost use Rattle.r6501q_span_work.specs.Work.{continued_by, committed_by, work_after, memory_after, work_put, memory_put};
ghost use Rattle.r6501q_span_work.specs.Work.{WorkedOn, work_by, memory_by};

use counters::time::Clocks;
use cpu::Outcome;
use cpu::work::{Work, next_work};
use cpu_access::halt::ends_span;
use cpu_access::stack::{Write, one_write};
use cpu_effects::{Worked, pushes_of, waiting_of};
use memory_writes::commit;
use r6501q_span_reads::known::known_outcome;
use r6501q_span_reads::steady::outcome_within;
use r6501q_spans::{Working, none_waiting, put_work};
use r6501q_state::state::State;

// An instruction that was worked out: it is done where it pushes to memory alone, and not at the halt address.
fn continue_work(
    w: Work,
    worked: Worked,
    memory: &mut [u8],
    sums: &mut [u16],
    halt: Option<u16>,
) -> Working
    requires { (w.gone.0 + w.wait + 1 ≤ 4294967295) × (w.leaps + 1 ≤ 4294967295) }
    ensures value { result ≡ continued_by halt w worked }
    ensures memory_after { memory.new ≡ committed_by halt memory.old worked }
    ensures sums_after { sums.new ≡ sums_after sums.old memory.old memory.new }
{
    let writing = worked.writing;
    let writes = pushes_of(writing);
    if ends_span(writes, halt) {
        return none_waiting(w);
    }
    commit(memory, sums, writes);
    Working {
        work: next_work(w, worked),
        waiting: waiting_of(writing),
    }
}

// The next instruction by the outcome of its accesses one after the other.
fn work_outcome(
    s: State,
    w: Work,
    memory: &mut [u8],
    sums: &mut [u16],
    halt: Option<u16>,
) -> Working
    requires { (w.gone.0 + w.wait + 1 ≤ 4294967295) × (w.leaps + 1 ≤ 4294967295) }
    ensures value { result ≡ work_by halt w (outcome_within s w.registers memory.old) }
    ensures memory_after { memory.new
        ≡ memory_by halt memory.old (outcome_within s w.registers memory.old) }
    ensures sums_after { sums.new ≡ sums_after sums.old memory.old memory.new }
{
    let outcome = outcome_within(s, w.registers, memory);
    match outcome {
        Outcome::Undefined => none_waiting(w),
        Outcome::Asked(_) => none_waiting(w),
        Outcome::Done(worked) => continue_work(w, worked, memory, sums, halt),
    }
}

// An instruction that pushes nothing.
fn begin_next(w: Work, worked: Worked) -> Working
    requires { (w.gone.0 + w.wait + 1 ≤ 4294967295) × (w.leaps + 1 ≤ 4294967295) }
    ensures { result ≡ next_working w worked }
{
    let writing = worked.writing;
    let waiting = waiting_of(writing);
    Working {
        work: next_work(w, worked),
        waiting: waiting,
    }
}

// The next instruction, if it starts within the span, reads one register of the chip at most, whose value stays since
// the span began with the state s, and pushes neither to one nor at the halt address.
fn work_instruction(
    s: State,
    w: Work,
    span: Clocks,
    memory: &mut [u8],
    sums: &mut [u16],
    halt: Option<u16>,
) -> Working
    requires { WithinSpan w span.0 }
    ensures value { result ≡ work_after halt s span.0 w memory.old }
    ensures memory_after { memory.new ≡ memory_after halt s span.0 w memory.old }
    ensures sums_after { sums.new ≡ sums_after sums.old memory.old memory.new }
{
    if span.0 - w.gone.0 <= w.wait as u32 {
        return none_waiting(w);
    }
    match known_outcome(s, w.registers, memory) {
        Some(worked) => begin_next(w, worked),
        None => work_outcome(s, w, memory, sums, halt),
    }
}

// The byte that waits is put, if its clock lies within the span, and it goes neither to a register nor to the halt
// address.
fn put_within(
    w: Work,
    x: Write,
    span: Clocks,
    memory: &mut [u8],
    sums: &mut [u16],
    halt: Option<u16>,
) -> Working
    requires { WithinSpan w span.0 }
    ensures value { result ≡ work_put halt span.0 w x }
    ensures memory_after { memory.new ≡ memory_put halt span.0 w x memory.old }
    ensures sums_after { sums.new ≡ sums_after sums.old memory.old memory.new }
{
    let writes = one_write(x.address, x.value);
    let within = (0 < w.wait) & (w.wait as u32 <= span.0 - w.gone.0);
    if within {
        if !ends_span(writes, halt) {
            commit(memory, sums, writes);
            return put_work(w);
        }
    }
    Working {
        work: w,
        waiting: Some(x),
    }
}

// The CPU's next step in a span: the byte that waits is put, or an instruction starts; none where neither can be done
// in it, which began with the state s.
pub fn work_once(
    s: State,
    v: Working,
    span: Clocks,
    memory: &mut [u8],
    sums: &mut [u16],
    halt: Option<u16>,
) -> Working
    requires { WithinSpan v.work span.0 }
    ensures worked_on { WorkedOn halt s span.0 v.work v.waiting memory.old result memory.new }
    ensures sums_after { sums.new ≡ sums_after sums.old memory.old memory.new }
{
    let work = v.work;
    match v.waiting {
        None => work_instruction(s, work, span, memory, sums, halt),
        Some(x) => put_within(work, x, span, memory, sums, halt),
    }
}
