// Runs scenarios from standard input, each by single clocks alone, and prints the records that they write.
//
// A scenario is a title (lines that begin with `#`), a tape, inputs `+CCCCCCCC KK` (clock and code, in hex) and at last
// `=NNNN RR` (how many single clocks to do and how many output records are free, in hex). A title has no `;`, `+` or
// `=`. A scenario begins with the fresh state and a memory of zeros into which the tape is loaded; its first input is
// RES high on clock 1, `+00000001 61`. It prints a line `clock WORD` for each record, then `end K S`: K clocks done,
// and S the number that ended them, or 0.
//
// The expected output was never made by this program. A scenario's title lines say how its outcome was obtained.
// "Hand": it was worked out from the documents (which clock starts which instruction, when a counter underflows, when a
// frame's bits change), and an independent model, written from the documents alone, which does one plain clock after
// another, gives the same. "By the plain-clock model": by that model alone.
#![tactic(auto)]

ghost use Rattle.std.specs.Prelude.{◌≡◌, ◌≤◌, length};

use memory::MEMORY_LENGTH;
use r6501q_state::state::{State, fresh_state};
use record_text::{End, LINE_LENGTH, put_end, put_outcome};
use scenario::{INPUTS, RECORDS, SETTINGS_MARK, Settings, read_inputs, read_settings};
use std::io;
use std::io::Read;
use test_text::next_mark;

mod scenario; // scenario.rt: the parts of a scenario's text

// The most characters that a scenario prints: a line for each record, and the end line.
const TEXT_LENGTH: usize = LINE_LENGTH * (RECORDS + 1);

// The most characters of the scenarios; what follows them on standard input plays no part.
const SCENARIOS_LENGTH: usize = 32768;

// What a scenario comes to: the records written, and how it ended.
#[derive(Clone, Copy)]
struct ScenarioEnd {
    written: usize,
    end: End,
}

// How far a scenario's calls have come: the state, the inputs read, the records written, and the last call's number,
// as it is printed.
#[derive(Clone, Copy)]
struct Reached {
    state: State,
    read: usize,
    written: usize,
    number: u8,
}

// A scenario's calls taken together, before the first.
fn begin() -> Reached
    ensures { (result.read ≡ 0) × (result.written ≡ 0) }
{
    Reached {
        state: fresh_state(),
        read: 0,
        written: 0,
        number: 0,
    }
}

// A place in a list moved on by what a call read or wrote, and never past the list's end.
fn moved_on(place: usize, by: usize, end: usize) -> usize
    ensures { result ≤ end }
{
    place.saturating_add(by).min(end)
}

// One single-clock call, with the inputs not yet read and the output space that is still free.
fn single_clock(
    p: Reached,
    memory: &mut [u8],
    clocks: &[u32],
    codes: &[u8],
    times: &mut [u32],
    words: &mut [u32],
) -> Reached
    requires read_in_bounds { (p.read ≤ length clocks.now) × (length clocks.now ≡ length codes.now) }
    requires written_in_bounds { (p.written ≤ length times.old) × (length times.old ≡ length words.old) }
    ensures { (result.read ≤ length clocks.now) × (result.written ≤ length times.old) }
{
    let read = p.read;
    let written = p.written;
    let inputs = clocks.len();
    let records = times.len();
    let result = r6501q_step::step(
        p.state,
        memory,
        &clocks[read..],
        &codes[read..],
        &mut times[written..],
        &mut words[written..],
        None,
    );
    let state = result.state;
    Reached {
        state: state,
        read: moved_on(read, result.read, inputs),
        written: moved_on(written, result.written, records),
        number: result.number,
    }
}

// Up to `limit` single clocks from the fresh state; none after a stop or a refusal.
fn run_clocks(
    limit: u32,
    memory: &mut [u8],
    clocks: &[u32],
    codes: &[u8],
    times: &mut [u32],
    words: &mut [u32],
) -> ScenarioEnd
    requires clocks_len { length clocks.now ≡ length codes.now }
    requires times_len { length times.old ≡ length words.old }
    ensures { result.written ≤ length times.old }
{
    let mut p = begin();
    for done in 0..limit {
        p = single_clock(p, memory, clocks, codes, times, words);
        if p.number != 0 {
            return ScenarioEnd {
                written: p.written,
                end: End {
                    done,
                    number: p.number,
                },
            };
        }
    }
    ScenarioEnd {
        written: p.written,
        end: End {
            done: limit,
            number: 0,
        },
    }
}

// The line of a scenario whose tape is refused.
fn print_refused(rt: &impl Print, number: u8) -> io::Result<()> {
    let mut text = [0u8; LINE_LENGTH];
    let put = put_end(End { done: 0, number }, &mut text, 0);
    rt.write_all(&text[..put])
}

// The lines of a scenario's outcome.
fn print_outcome(
    rt: &impl Print,
    outcome: ScenarioEnd,
    times: &[u32],
    words: &[u32],
) -> io::Result<()>
    requires { (outcome.written ≤ length times.now) × (outcome.written ≤ length words.now)
        × (outcome.written ≤ 64) }
{
    let written = outcome.written;
    let mut text = [0u8; TEXT_LENGTH];
    let put = put_outcome(&times[..written], &words[..written], outcome.end, &mut text);
    rt.write_all(&text[..put])
}

// Runs a scenario on the lent lists and prints what it comes to.
fn run_lent(
    rt: &impl Print,
    limit: u32,
    memory: &mut [u8],
    clocks: &[u32],
    codes: &[u8],
    times: &mut [u32],
    words: &mut [u32],
) -> io::Result<()>
    requires clocks_len { length clocks.now ≡ length codes.now }
    requires times_len { (length times.old ≡ length words.old) × (length times.old ≤ 64) }
{
    let outcome = run_clocks(limit, memory, clocks, codes, times, words);
    print_outcome(rt, outcome, times, words)
}

// Runs a scenario whose tape is loaded; its inputs stand in `text` from `place` on.
fn run_loaded(
    rt: &impl Print,
    memory: &mut [u8],
    text: &[u8],
    place: usize,
    settings: Settings,
) -> io::Result<()> {
    let mut clocks = [0u32; INPUTS];
    let mut codes = [0u8; INPUTS];
    let count = read_inputs(text, place, &mut clocks, &mut codes);
    let mut times = [0u32; RECORDS];
    let mut words = [0u32; RECORDS];
    let records = settings.records;
    run_lent(
        rt,
        settings.clocks,
        memory,
        &clocks[..count],
        &codes[..count],
        &mut times[..records],
        &mut words[..records],
    )
}

// Runs a scenario: `text` is all of it before its settings. One whose tape is refused does no clock.
fn run_scenario(rt: &impl Print, text: &[u8], settings: Settings) -> io::Result<()> {
    let mut memory = [0u8; MEMORY_LENGTH];
    match tape::load(text, &mut memory) {
        Ok(place) => run_loaded(rt, &mut memory, text, place, settings),
        Err(error) => print_refused(rt, error.fault.into()),
    }
}

// Runs each scenario; the settings are its last part.
// The settings may reach past the next mark, so that the text is not split at the marks.
fn run_scenarios(rt: &impl Print, text: &[u8]) -> io::Result<()> {
    let mut from = 0;
    let mut end = next_mark(text, from, SETTINGS_MARK);
    while end < text.len() {
        let settings = read_settings(&text[end..]);
        run_scenario(rt, &text[from..end], settings)?;
        from = end + 1;
        end = next_mark(text, from, SETTINGS_MARK);
    }
    Ok(())
}

fn main(rt: HostRuntime) -> io::Result<()> {
    let mut text = Vec::new(rt.alloc());
    rt.reader()
        .take(SCENARIOS_LENGTH as u64)
        .read_to_end(&mut text)?;
    run_scenarios(&rt, &text)
}
