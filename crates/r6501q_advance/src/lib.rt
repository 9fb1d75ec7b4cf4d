// One clock of the chip with its memory and pin lists.
#![tactic(auto)]

// Memory and lists as a call is lent them.
pub mod lent;

ghost use Rattle.std.specs.Prelude.{◌≡◌, ◌+◌, ◌≤◌, ◌<◌, ◌^◌, length, take, drop, set, is_some, unwrap_or};
ghost use Rattle.bits.specs.Bits.{one_where};
ghost use Rattle.pin_lists.specs.PinLists.{input_count};
ghost use Rattle.refusals.specs.Refusals.{last_clock};
ghost use Rattle.leaps.specs.World.{put_record};
ghost use Rattle.memory_writes.specs.Commit.{committed};
ghost use Rattle.r6501q_clock.specs.Clock.{clock_of};
ghost use Rattle.r6501q_chip.specs.R6501q.{word_after, plain};
ghost use Rattle.r6501q_advance.specs.World.{halted_after, progress_to, stopped_with, Going};
ghost use Rattle.r6501q_advance.specs.World.{Summed, StillLent, world_of};

use cpu_access::halt::halts;
use cpu_access::stack::Writes;
use lent::{LentLists, SummedMemory};
use memory_writes::commit;
use pin_lists::input_count;
use r6501q_clock::Ended;
use r6501q_state::state::State;
use stops::Stop;

// How far a call has come: the state, the inputs read, the records written, and the stop, if any.
#[derive(Clone, Copy)]
pub struct Progress {
    pub state: State,
    pub read: usize,
    pub written: usize,
    pub stop: Option<Stop>,
}

// A value into one of the output lists.
fn put_value(list: &mut [u32], at: usize, value: u32)
    ensures { list.new ≡ set list.old at value }
{
    if at < list.len() {
        list[at] = value;
    }
}

// The record of a clock, if any, into the output lists, and how many are written then.
#[tactic(auto, unfolding(leaps::specs::World::put_record))]
fn put_record(
    output: Option<u32>,
    clock: u32,
    written: usize,
    outputclocks: &mut [u32],
    outputwords: &mut [u32],
) -> usize
    requires { written + 1 < 2 ^ 64 }
    ensures value { result ≡ written + one_where (is_some output) }
    ensures outputclocks_after { outputclocks.new ≡ put_record (is_some output) written clock outputclocks.old }
    ensures outputwords_after { outputwords.new
        ≡ put_record (is_some output) written (unwrap_or output 0) outputwords.old }
{
    let Some(word) = output else {
        return written;
    };
    put_value(outputclocks, written, clock);
    put_value(outputwords, written, word);
    written + 1
}

// How many inputs of a clock stand at the front of the part of the list that begins at its first unread entry.
fn input_count_from(inputclocks: &[u32], from: usize, clock: u32) -> usize
    requires { from ≤ length inputclocks.now }
    ensures { result ≡ input_count clock (drop from inputclocks.now) }
{
    input_count(clock, &inputclocks[from..])
}

// What the next clock comes to, which has `inputs` inputs.
fn outcome_from(
    p: Progress,
    inputs: usize,
    memory: &SummedMemory,
    inputcodes: &[u8],
    free: bool,
) -> Result<Ended, Stop>
    requires { (p.state.clock < last_clock) × (p.read + inputs ≤ length inputcodes.now) }
    ensures { result ≡ clock_of p.state (take inputs (drop p.read inputcodes.now))
        memory.now.bytes.now free }
{
    let from = p.read;
    let upto = from + inputs;
    r6501q_clock::clock(p.state, &inputcodes[from..upto], memory.bytes, free)
}

// The stop that a clock with these writes ends in, if any.
fn stop_after(writes: Writes, halt: Option<u16>) -> Option<Stop>
    ensures { result ≡ halted_after halt writes }
{
    halts(writes, halt).then_some(Stop::Halted)
}

// A clock that is done: its writes, its record, its inputs, and the stop where it wrote the halt address.
fn complete(
    p: Progress,
    inputs: usize,
    ended: Ended,
    memory: &mut SummedMemory,
    lists: &mut LentLists,
    halt: Option<u16>,
) -> Progress
    requires { (p.read + inputs < 2 ^ 64) × (p.written + 1 < 2 ^ 64) }
    ensures value { result ≡ progress_to halt ended inputs p }
    ensures bytes_after { memory.new.bytes.now ≡ committed memory.old.bytes.now ended.writes }
    ensures outputclocks_after { lists.new.outputclocks.now
        ≡ put_record (is_some ended.output) p.written ended.state.clock lists.old.outputclocks.now }
    ensures outputwords_after { lists.new.outputwords.now
        ≡ put_record (is_some ended.output) p.written (word_after ended) lists.old.outputwords.now }
    ensures summed { Summed memory.old memory.new }
    ensures still_lent { StillLent lists.old lists.new }
{
    let state = ended.state;
    let output = ended.output;
    commit(memory.bytes, memory.sums, ended.writes);
    let written = put_record(
        output,
        state.clock,
        p.written,
        lists.outputclocks,
        lists.outputwords,
    );
    Progress {
        state: state,
        read: p.read + inputs,
        written: written,
        stop: stop_after(ended.writes, halt),
    }
}

// A clock that stops changes nothing else.
fn stop_at(stop: Stop, p: Progress) -> Progress
    ensures { result ≡ stopped_with stop p }
{
    let state = p.state;
    Progress {
        state: state,
        read: p.read,
        written: p.written,
        stop: Some(stop),
    }
}

// One clock: what it comes to, and then what it does.
pub fn advance(
    p: Progress,
    memory: &mut SummedMemory,
    lists: &mut LentLists,
    halt: Option<u16>,
) -> Progress
    requires { Going p lists.old }
    ensures world { world_of result memory.new lists.new ≡ plain halt (world_of p memory.old lists.old) }
    ensures summed { Summed memory.old memory.new }
    ensures still_lent { StillLent lists.old lists.new }
{
    let inputs = input_count_from(lists.inputclocks, p.read, p.state.clock + 1);
    let free = p.written < lists.outputclocks.len();
    let clocked = outcome_from(p, inputs, memory, lists.inputcodes, free);
    match clocked {
        Err(stop) => stop_at(stop, p),
        Ok(ended) => complete(p, inputs, ended, memory, lists, halt),
    }
}
