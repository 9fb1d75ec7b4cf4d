// The library for programs in C and Rust. A struct goes by value, a lent slice as a pointer and then its length.
// Inputs and records are two lists each, as a program in C lends them; so are those of `step` and `run`.
#![tactic(auto)]

ghost use Rattle.std.specs.Prelude.{◌≡◌};
ghost use Rattle.bits.specs.Bits.{one_where};
ghost use Rattle.page_sums.specs.PageSums.{sums_after};
ghost use Rattle.leaps.specs.CallLists.{step_of, run_of, plain_run_of};
ghost use Rattle.leaps.specs.Lent.{at_entry};
ghost use Rattle.leaps.specs.Summed.{with_sums};
ghost use Rattle.r6501q_state.specs.State.{fresh};
ghost use Rattle.r6501q_chip.specs.R6501q.{machine};
ghost use Rattle.r6501q_host.specs.Host.{halt_of, host_state};
ghost use Rattle.r6501q.specs.Calls.{host_well_formed, host_call, host_load, host_load_with_sums, host_loaded, host_total};
ghost use Rattle.r6501q.specs.Calls.{host_latch, host_at_exit};

use bits::one_where;
use page_sums::page_list_refused;
use r6501q_host::{
    HostLatchResult, HostLoadResult, HostResult, HostState, HostTotalResult, flag_refused,
    flags_fit, halt_of, wrong_page_list,
};
use r6501q_state::state::{fresh_state, well_formed};

// A chip that has not run yet.
#[unsafe(no_mangle)]
pub extern "C" fn r6501q_fresh() -> HostState
    ensures { result ≡ host_state fresh }
{
    fresh_state().into()
}

// 1 where every field is within its range, 0 where one is not.
#[unsafe(no_mangle)]
pub extern "C" fn r6501q_well_formed(state: HostState) -> u8
    ensures { result ≡ one_where (host_well_formed state) }
{
    let fit = flags_fit(state) & well_formed(state.into());
    one_where(fit)
}

// The single-clock call. `halt` is the halt address; above 65,535: none.
#[unsafe(no_mangle)]
pub extern "C" fn r6501q_step(
    state: HostState,
    memory: &mut [u8],
    inputclocks: &[u32],
    inputcodes: &[u8],
    outputclocks: &mut [u32],
    outputwords: &mut [u32],
    halt: u32,
) -> HostResult
    ensures { host_at_exit result memory outputclocks outputwords
        ≡ host_call (step_of (machine (halt_of halt))) 1
        (at_entry state memory inputclocks inputcodes outputclocks outputwords) }
{
    if !flags_fit(state) {
        return flag_refused(
            state,
            memory.len(),
            inputclocks,
            inputcodes,
            outputclocks.len(),
            outputwords.len(),
            1,
        );
    }
    let result = r6501q_step::step(
        state.into(),
        memory,
        inputclocks,
        inputcodes,
        outputclocks,
        outputwords,
        halt_of(halt),
    );
    result.into()
}

// The call for n clocks, by leaps. `halt` is the halt address; above 65,535: none.
#[unsafe(no_mangle)]
pub extern "C" fn r6501q_run(
    state: HostState,
    memory: &mut [u8],
    inputclocks: &[u32],
    inputcodes: &[u8],
    outputclocks: &mut [u32],
    outputwords: &mut [u32],
    n: u32,
    halt: u32,
) -> HostResult
    ensures outputwords_value { host_at_exit result memory outputclocks outputwords
        ≡ host_call (run_of (machine (halt_of halt)) n) n
        (at_entry state memory inputclocks inputcodes outputclocks outputwords) }
    ensures outputwords_value_2 { host_at_exit result memory outputclocks outputwords
        ≡ host_call (plain_run_of (machine (halt_of halt)) n) n
        (at_entry state memory inputclocks inputcodes outputclocks outputwords) }
{
    if !flags_fit(state) {
        return flag_refused(
            state,
            memory.len(),
            inputclocks,
            inputcodes,
            outputclocks.len(),
            outputwords.len(),
            n,
        );
    }
    let result = r6501q_run::run(
        state.into(),
        memory,
        inputclocks,
        inputcodes,
        outputclocks,
        outputwords,
        n,
        halt_of(halt),
    );
    result.into()
}

// A tape into memory.
#[unsafe(no_mangle)]
pub extern "C" fn r6501q_load(tape: &[u8], memory: &mut [u8]) -> HostLoadResult
    ensures { host_loaded result memory.new ≡ host_load tape.now memory.old }
{
    tape::load(tape, memory).into()
}

// The single-clock call of a memory with its page sums; their list is looked at before the state's flags.
#[unsafe(no_mangle)]
pub extern "C" fn r6501q_step_with_sums(
    state: HostState,
    memory: &mut [u8],
    sums: &mut [u16],
    inputclocks: &[u32],
    inputcodes: &[u8],
    outputclocks: &mut [u32],
    outputwords: &mut [u32],
    halt: u32,
) -> HostResult
    ensures outputwords_value { host_at_exit result memory outputclocks outputwords
        ≡ with_sums sums.old (host_call (step_of (machine (halt_of halt))) 1)
        (at_entry state memory inputclocks inputcodes outputclocks outputwords) }
    ensures sums_after { sums.new ≡ sums_after sums.old memory.old memory.new }
{
    if page_list_refused(memory.len(), sums.len()) {
        return wrong_page_list(state);
    }
    if !flags_fit(state) {
        return flag_refused(
            state,
            memory.len(),
            inputclocks,
            inputcodes,
            outputclocks.len(),
            outputwords.len(),
            1,
        );
    }
    let result = r6501q_step::step_with_sums(
        state.into(),
        memory,
        sums,
        inputclocks,
        inputcodes,
        outputclocks,
        outputwords,
        halt_of(halt),
    );
    result.into()
}

// The call for n clocks of a memory with its page sums; their list is looked at before the state's flags.
#[unsafe(no_mangle)]
pub extern "C" fn r6501q_run_with_sums(
    state: HostState,
    memory: &mut [u8],
    sums: &mut [u16],
    inputclocks: &[u32],
    inputcodes: &[u8],
    outputclocks: &mut [u32],
    outputwords: &mut [u32],
    n: u32,
    halt: u32,
) -> HostResult
    ensures outputwords_value { host_at_exit result memory outputclocks outputwords
        ≡ with_sums sums.old (host_call (run_of (machine (halt_of halt)) n) n)
        (at_entry state memory inputclocks inputcodes outputclocks outputwords) }
    ensures outputwords_value_2 { host_at_exit result memory outputclocks outputwords
        ≡ with_sums sums.old (host_call (plain_run_of (machine (halt_of halt)) n) n)
        (at_entry state memory inputclocks inputcodes outputclocks outputwords) }
    ensures sums_after { sums.new ≡ sums_after sums.old memory.old memory.new }
{
    if page_list_refused(memory.len(), sums.len()) {
        return wrong_page_list(state);
    }
    if !flags_fit(state) {
        return flag_refused(
            state,
            memory.len(),
            inputclocks,
            inputcodes,
            outputclocks.len(),
            outputwords.len(),
            n,
        );
    }
    let result = r6501q_run::run_with_sums(
        state.into(),
        memory,
        sums,
        inputclocks,
        inputcodes,
        outputclocks,
        outputwords,
        n,
        halt_of(halt),
    );
    result.into()
}

// A tape into memory and its page sums.
#[unsafe(no_mangle)]
pub extern "C" fn r6501q_load_with_sums(
    tape: &[u8],
    memory: &mut [u8],
    sums: &mut [u16],
) -> HostLoadResult
    ensures memory_after { host_loaded result memory.new
        ≡ host_load_with_sums tape.now memory.old sums.old }
    ensures sums_after { sums.new ≡ sums_after sums.old memory.old memory.new }
{
    tape::load_with_sums(tape, memory, sums).into()
}

// The total of 256 page sums, modulo 65,536.
#[unsafe(no_mangle)]
pub extern "C" fn r6501q_total(sums: &[u16]) -> HostTotalResult
    ensures { result ≡ host_total sums.now }
{
    page_sums::total(sums).into()
}

// The smallest latch value of counter A for a wanted bit rate.
#[unsafe(no_mangle)]
pub extern "C" fn r6501q_latch(clockrate: u32, bitrate: u32, tolerance: u32) -> HostLatchResult
    ensures { result ≡ host_latch clockrate bitrate tolerance }
{
    bit_rate::latch(clockrate, bitrate, tolerance).into()
}
