// Spans: clocks in which nothing but the CPU does what can be seen. Each instruction that starts in a span is a leap of
// its own; it is done on a small record, `Working`, and the rest of the chip is brought up to date once, at the end.
#![tactic(auto)]

ghost use Rattle.std.specs.Prelude.{◌≡◌, ◌+◌, ◌≤◌, ◌<◌};
ghost use Rattle.r6501q_unseen.specs.Unseen.{Unseen};
ghost use Rattle.r6501q_spans.specs.Spans.{only_cpu, begin_work, none_waiting, put_work};
ghost use Rattle.r6501q_spans.specs.Ticked.{AloneSeen, ticked_state};

use counters::time::Clocks;
use cpu::work::Work;
use cpu_access::stack::Write;
use r6501q_cpu::{cpu_of, registers_of};
use r6501q_gaps::distances::{to_change, to_input};
use r6501q_gaps::nearer;
use r6501q_state::state::State;
use r6501q_unseen::{pass_unseen, unseen_clocks};

// The CPU at work in a span, and the byte that waits.
#[derive(Clone, Copy)]
pub struct Working {
    pub work: Work,
    pub waiting: Option<Write>,
}

// Whether the next instruction is started by nothing but the CPU's own wait: no reset, no interrupt.
fn only_cpu(s: State) -> bool
    ensures { result ≡ only_cpu s }
{
    let status = registers_of(s.cpu).status;
    let undisturbed = s.last.res & !s.due.reset & !s.due.nmi;
    undisturbed & !s.peripherals.control.pending() & (u8::from(status) == s.cpu.p)
}

// The clocks in which nothing but the CPU does what can be seen, at most those left. `clocks` are those of the rest of
// the input list.
pub fn span(s: State, left: Clocks, clocks: &[u32]) -> Clocks
    ensures { (0 < result.0 → AloneSeen left.0 s clocks.now result.0) × (result.0 ≤ 2147483647) }
{
    if only_cpu(s) {
        let input = nearer(to_input(left, s.clock, clocks), to_change(left, s));
        return unseen_clocks(s.peripherals, s.last.ports, nearer(left, input));
    }
    Clocks(0)
}

// The CPU as a span finds it.
pub fn begin_work(s: State) -> Working
    ensures { result ≡ begin_work s }
{
    let cpu = s.cpu;
    let waiting = cpu.waiting;
    let work = Work {
        registers: registers_of(s.cpu),
        wait: s.cpu.wait,
        gone: Clocks(0),
        leaps: 0,
    };
    Working {
        work: work,
        waiting: waiting,
    }
}

// The chip brought up to date. The clock must have room for what is gone.
pub fn working_state(mut s: State, v: Working) -> State
    requires gone_bound { s.clock + v.work.gone.0 ≤ 4294967295 }
    requires unseen { Unseen v.work.gone.0 s.last.ports s.peripherals }
    ensures { result ≡ ticked_state s v }
{
    let peripherals = pass_unseen(s.peripherals, s.last.ports, v.work.gone);
    let waiting = v.waiting;
    let cpu = cpu_of(v.work.registers, v.work.wait, waiting);
    let clock = s.clock + v.work.gone.0;
    s.cpu = cpu;
    s.peripherals = peripherals;
    s.clock = clock;
    s
}

pub fn none_waiting(w: Work) -> Working
    ensures { result ≡ none_waiting w }
{
    Working {
        work: w,
        waiting: None,
    }
}

// The last clock of a store.
pub fn put_work(w: Work) -> Working
    requires { (w.gone.0 + w.wait ≤ 4294967295) × (w.leaps + 1 ≤ 4294967295) }
    ensures { result ≡ put_work w }
{
    let registers = w.registers;
    none_waiting(Work {
        registers: registers,
        wait: 0,
        gone: Clocks(w.gone.0 + w.wait as u32),
        leaps: w.leaps + 1,
    })
}
