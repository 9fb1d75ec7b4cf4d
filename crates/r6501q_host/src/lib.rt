// The state and what is handed back as the host, a program in C or Rust, holds them: each flag and level is a byte, 0
// or 1, and no byte waiting is 0, 0, 0; and the refusals of a call that are told before its state is taken over.
#![tactic(auto)]

ghost use Rattle.std.specs.Prelude.{◌≡◌, false};
ghost use Rattle.page_sums.specs.PageSums.{told as total_told};
ghost use Rattle.refusals.specs.Refusals.{refusal_of};
ghost use Rattle.tape.specs.Tapes.{told as loaded_told};
ghost use Rattle.r6501q_chip.specs.R6501q.{r6501q_limits};
ghost use Rattle.r6501q_host.specs.Host.{waiting_from_host, cpu_from_host, waiting_fits, host_waiting, host_cpu};
ghost use Rattle.r6501q_host.specs.Host.{due_from_host};
ghost use Rattle.r6501q_host.specs.Host.{counter_b_from_host, receiver_from_host, levels_from_host, peripherals_from_host};
ghost use Rattle.r6501q_host.specs.Host.{state_from_host, flags_fit, halt_of, host_due, host_counter_b, host_receiver};
ghost use Rattle.r6501q_host.specs.Host.{host_levels, host_peripherals, host_state, host_result, host_load_result};
ghost use Rattle.r6501q_host.specs.Host.{host_total_result, host_latch_result, host_refused};

use bit_rate::OutOfLimits;
use bits::one_where;
use counters::a::CounterA;
use counters::b::CounterB;
use cpu_access::stack::Write;
use page_sums::WrongPageList;
use r6501q_state::state::{Control, Cpu, Due, Levels, Peripherals, Ports, SerialData, State};
use r6501q_step::{CallResult, limits};
use refusals::{Refusal, check};
use serial_receiver::Receiver;
use serial_transmitter::Transmitter;
use tape::LoadError;

#[repr(C)]
#[derive(Clone, Copy)]
pub struct HostWaiting {
    pub there: u8,
    pub address: u16,
    pub value: u8,
}

#[repr(C)]
#[derive(Clone, Copy)]
pub struct HostCpu {
    pub a: u8,
    pub x: u8,
    pub y: u8,
    pub sp: u8,
    pub p: u8,
    pub pc: u16,
    pub wait: u8,
    pub waiting: HostWaiting,
}

#[repr(C)]
#[derive(Clone, Copy)]
pub struct HostDue {
    pub reset: u8,
    pub nmi: u8,
}

#[repr(C)]
#[derive(Clone, Copy)]
pub struct HostCounterB {
    pub count: u16,
    pub latchb: u16,
    pub latchc: u16,
    pub turnc: u8,
}

#[repr(C)]
#[derive(Clone, Copy)]
pub struct HostReceiver {
    pub subinterval: u8,
    pub half: u8,
    pub left: u8,
    pub register: u16,
}

#[repr(C)]
#[derive(Clone, Copy)]
pub struct HostPeripherals {
    pub ports: Ports,
    pub countera: CounterA,
    pub counterb: HostCounterB,
    pub control: Control,
    pub serial: SerialData,
    pub transmitter: Transmitter,
    pub receiver: HostReceiver,
}

#[repr(C)]
#[derive(Clone, Copy)]
pub struct HostLevels {
    pub ports: u32,
    pub nmi: u8,
    pub res: u8,
}

#[repr(C)]
#[derive(Clone, Copy)]
pub struct HostState {
    pub cpu: HostCpu,
    pub due: HostDue,
    pub peripherals: HostPeripherals,
    pub external: HostLevels,
    pub last: HostLevels,
    pub clock: u32,
}

// Here and below a number is the C interface's.
#[repr(C)]
#[derive(Clone, Copy)]
pub struct HostResult {
    pub number: u8,
    pub state: HostState,
    pub leaps: u32,
    pub read: usize,
    pub written: usize,
}

#[repr(C)]
#[derive(Clone, Copy)]
pub struct HostLoadResult {
    pub number: u8,
    pub place: usize,
}

#[repr(C)]
#[derive(Clone, Copy)]
pub struct HostLatchResult {
    pub number: u8,
    pub found: u8,
    pub value: u16,
}

#[repr(C)]
#[derive(Clone, Copy)]
pub struct HostTotalResult {
    pub number: u8,
    pub total: u16,
}

// From the host: a byte of 1 is a yes. What is neither 0 nor 1 is refused before, by `flags_fit`.
impl From<HostWaiting> for Option<Write> {
    ghost from_gives = { λ host waiting. waiting ≡ waiting_from_host host };

    #[tactic(auto, unfolding(crate::specs::Host::waiting_from_host))]
    fn from(host: HostWaiting) -> Option<Write> {
        (host.there == 1).then_some(Write {
            address: host.address,
            value: host.value,
        })
    }
}

impl From<HostCpu> for Cpu {
    ghost from_gives = { λ host cpu. cpu ≡ cpu_from_host host };

    fn from(host: HostCpu) -> Cpu {
        Cpu {
            a: host.a,
            x: host.x,
            y: host.y,
            sp: host.sp,
            p: host.p,
            pc: host.pc,
            wait: host.wait,
            waiting: host.waiting.into(),
        }
    }
}

impl From<HostDue> for Due {
    ghost from_gives = { λ host due. due ≡ due_from_host host };

    fn from(host: HostDue) -> Due {
        Due {
            reset: host.reset == 1,
            nmi: host.nmi == 1,
        }
    }
}

impl From<HostCounterB> for CounterB {
    ghost from_gives = { λ host counter. counter ≡ counter_b_from_host host };

    fn from(host: HostCounterB) -> CounterB {
        CounterB {
            count: host.count,
            latchb: host.latchb,
            latchc: host.latchc,
            turnc: host.turnc == 1,
        }
    }
}

impl From<HostReceiver> for Receiver {
    ghost from_gives = { λ host receiver. receiver ≡ receiver_from_host host };

    fn from(host: HostReceiver) -> Receiver {
        Receiver {
            subinterval: host.subinterval,
            half: host.half == 1,
            left: host.left,
            register: host.register,
        }
    }
}

impl From<HostLevels> for Levels {
    ghost from_gives = { λ host levels. levels ≡ levels_from_host host };

    fn from(host: HostLevels) -> Levels {
        Levels {
            ports: host.ports,
            nmi: host.nmi == 1,
            res: host.res == 1,
        }
    }
}

impl From<HostPeripherals> for Peripherals {
    ghost from_gives = { λ host peripherals. peripherals ≡ peripherals_from_host host };

    fn from(host: HostPeripherals) -> Peripherals {
        Peripherals {
            ports: host.ports,
            countera: host.countera,
            counterb: host.counterb.into(),
            control: host.control,
            serial: host.serial,
            transmitter: host.transmitter,
            receiver: host.receiver.into(),
        }
    }
}

impl From<HostState> for State {
    ghost from_gives = { λ host state. state ≡ state_from_host host };

    fn from(host: HostState) -> State {
        State {
            cpu: host.cpu.into(),
            due: host.due.into(),
            peripherals: host.peripherals.into(),
            external: host.external.into(),
            last: host.last.into(),
            clock: host.clock,
        }
    }
}

// Whether there is a byte waiting or not, and none is 0, 0, 0.
fn waiting_fits(h: HostWaiting) -> bool
    ensures { result ≡ waiting_fits h }
{
    (h.there == 1) | ((h.there == 0) & (h.address == 0) & (h.value == 0))
}

// Whether each flag and level is 0 or 1, and none waiting 0, 0, 0.
pub fn flags_fit(h: HostState) -> bool
    ensures { result ≡ flags_fit h }
{
    let waiting = waiting_fits(h.cpu.waiting);
    waiting
        & ((h.due.reset <= 1) & (h.due.nmi <= 1))
        & ((h.peripherals.counterb.turnc <= 1) & (h.peripherals.receiver.half <= 1))
        & ((h.external.nmi <= 1) & (h.external.res <= 1))
        & ((h.last.nmi <= 1) & (h.last.res <= 1))
}

// The halt address that the host's number stands for; none above 65,535.
#[tactic(auto, unfolding(crate::specs::Host::halt_of))]
pub fn halt_of(halt: u32) -> Option<u16>
    ensures { result ≡ halt_of halt }
{
    u16::try_from(halt).ok()
}

// To the host.
// A flag goes by `one_where`, the word of the definitions; std states `u8::from` by two clauses in place of one equation.
impl From<Option<Write>> for HostWaiting {
    ghost from_gives = { λ waiting host. host ≡ host_waiting waiting };

    fn from(waiting: Option<Write>) -> HostWaiting {
        match waiting {
            None => HostWaiting {
                there: 0,
                address: 0,
                value: 0,
            },
            Some(byte) => HostWaiting {
                there: 1,
                address: byte.address,
                value: byte.value,
            },
        }
    }
}

impl From<Cpu> for HostCpu {
    ghost from_gives = { λ cpu host. host ≡ host_cpu cpu };

    fn from(cpu: Cpu) -> HostCpu {
        HostCpu {
            a: cpu.a,
            x: cpu.x,
            y: cpu.y,
            sp: cpu.sp,
            p: cpu.p,
            pc: cpu.pc,
            wait: cpu.wait,
            waiting: cpu.waiting.into(),
        }
    }
}

impl From<Due> for HostDue {
    ghost from_gives = { λ due host. host ≡ host_due due };

    fn from(due: Due) -> HostDue {
        HostDue {
            reset: one_where(due.reset),
            nmi: one_where(due.nmi),
        }
    }
}

impl From<CounterB> for HostCounterB {
    ghost from_gives = { λ counter host. host ≡ host_counter_b counter };

    fn from(counter: CounterB) -> HostCounterB {
        HostCounterB {
            count: counter.count,
            latchb: counter.latchb,
            latchc: counter.latchc,
            turnc: one_where(counter.turnc),
        }
    }
}

impl From<Receiver> for HostReceiver {
    ghost from_gives = { λ receiver host. host ≡ host_receiver receiver };

    fn from(receiver: Receiver) -> HostReceiver {
        HostReceiver {
            subinterval: receiver.subinterval,
            half: one_where(receiver.half),
            left: receiver.left,
            register: receiver.register,
        }
    }
}

impl From<Levels> for HostLevels {
    ghost from_gives = { λ levels host. host ≡ host_levels levels };

    fn from(levels: Levels) -> HostLevels {
        HostLevels {
            ports: levels.ports,
            nmi: one_where(levels.nmi),
            res: one_where(levels.res),
        }
    }
}

impl From<Peripherals> for HostPeripherals {
    ghost from_gives = { λ peripherals host. host ≡ host_peripherals peripherals };

    fn from(peripherals: Peripherals) -> HostPeripherals {
        HostPeripherals {
            ports: peripherals.ports,
            countera: peripherals.countera,
            counterb: peripherals.counterb.into(),
            control: peripherals.control,
            serial: peripherals.serial,
            transmitter: peripherals.transmitter,
            receiver: peripherals.receiver.into(),
        }
    }
}

impl From<State> for HostState {
    ghost from_gives = { λ state host. host ≡ host_state state };

    fn from(state: State) -> HostState {
        HostState {
            cpu: state.cpu.into(),
            due: state.due.into(),
            peripherals: state.peripherals.into(),
            external: state.external.into(),
            last: state.last.into(),
            clock: state.clock,
        }
    }
}

// What a call hands back.
impl From<CallResult> for HostResult {
    ghost from_gives = { λ called host. host ≡ host_result called };

    fn from(called: CallResult) -> HostResult {
        HostResult {
            number: called.number,
            state: called.state.into(),
            leaps: called.leaps,
            read: called.read,
            written: called.written,
        }
    }
}

// What a load hands back: 0 and the place past the last record, or the refusal's number and the place of its fault.
impl From<Result<usize, LoadError>> for HostLoadResult {
    ghost from_gives = { λ loaded host. host ≡ host_load_result (loaded_told loaded) };

    fn from(loaded: Result<usize, LoadError>) -> HostLoadResult {
        match loaded {
            Ok(place) => HostLoadResult { number: 0, place },
            Err(error) => HostLoadResult {
                number: error.fault.into(),
                place: error.place,
            },
        }
    }
}

// What the call for the total hands back: 0 and the total, or the refusal's number and 0.
impl From<Result<u16, WrongPageList>> for HostTotalResult {
    ghost from_gives = { λ summed host. host ≡ host_total_result (total_told summed) };

    fn from(summed: Result<u16, WrongPageList>) -> HostTotalResult {
        match summed {
            Ok(total) => HostTotalResult { number: 0, total },
            Err(refused) => HostTotalResult {
                number: refused.into(),
                total: 0,
            },
        }
    }
}

// What the latch call hands back; without a latch value both its fields are 0.
impl From<Result<Option<u16>, OutOfLimits>> for HostLatchResult {
    ghost from_gives = { λ found host. host ≡ host_latch_result found };

    fn from(found: Result<Option<u16>, OutOfLimits>) -> HostLatchResult {
        match found {
            Ok(Some(value)) => HostLatchResult {
                number: 0,
                found: 1,
                value,
            },
            Ok(None) => HostLatchResult {
                number: 0,
                found: 0,
                value: 0,
            },
            Err(out_of_limits) => HostLatchResult {
                number: out_of_limits.into(),
                found: 0,
                value: 0,
            },
        }
    }
}

// What a refused call hands back: the state as it was given.
fn refused(number: u8, state: HostState) -> HostResult
    ensures { result ≡ host_refused number state }
{
    HostResult {
        number,
        state,
        leaps: 0,
        read: 0,
        written: 0,
    }
}

// What a call hands back where a flag is a byte above 1: the state as it was given, and the first check that fails of
// a state that is not well-formed.
pub fn flag_refused(
    state: HostState,
    bytes: usize,
    inputclocks: &[u32],
    inputcodes: &[u8],
    outputclocks: usize,
    outputwords: usize,
    n: u32,
) -> HostResult
    ensures { result ≡ host_refused (refusal_of r6501q_limits false state.clock bytes inputclocks.now
        inputcodes.now outputclocks outputwords n) state }
{
    let checked = check(
        limits(),
        false,
        state.clock,
        bytes,
        inputclocks,
        inputcodes,
        outputclocks,
        outputwords,
        n,
    );
    let number = match checked {
        Ok(()) => 0,
        Err(refusal) => refusal.into(),
    };
    refused(number, state)
}

// What a call with page sums hands back where their list is not of 256.
pub fn wrong_page_list(state: HostState) -> HostResult
    ensures { result ≡ host_refused 13 state }
{
    refused(Refusal::PageList.into(), state)
}
