// Runs cases of instructions, which another emulator gave, each by one run for its clocks, and prints for each group of
// them how many agree. The arguments name the files. A line of a file is empty, or a comment that begins with `#`, or
// begins a group (group.rt), or is a case of it (case.rt) or a digest of cases (digest.rt). A line that is none of
// these is a case that does not agree.
//
// The expected output was never made by this program: `expect` counts the lines of the files, of which each has to
// agree.
#![tactic(auto)]

ghost use Rattle.std.specs.Prelude.{◌≤◌, length};

use group::{COMMENT_MARK, GROUP_MARK, Group, open};
use std::env::FillError;
use std::io::Read;
use std::rt::{Env, Files};
use std::{fs, io, str};
use test_text::next_mark;
use totals::{Totals, print_opcodes};

mod case;
mod digest;
mod group;
mod instruction;
mod line;
mod memories;
mod tally;
mod totals;

// The largest file.
const TEXT_LENGTH: usize = 655360;

// The longest name of a file. An argument that is longer counts as an empty one.
const NAME_LENGTH: usize = 4096;

// The group at hand, and what those before it come to.
#[derive(Clone, Copy)]
struct GroupsSoFar {
    group: Group,
    totals: Totals,
}

// One line more, which is neither empty nor a comment.
fn take_line(
    rt: &impl Print,
    p: GroupsSoFar,
    line: &[u8],
    by_opcode: &mut [u64; 256],
) -> io::Result<GroupsSoFar>
    requires { 1 ≤ length line.now }
{
    if line[0] != GROUP_MARK {
        return Ok(GroupsSoFar {
            group: p.group.take(line),
            totals: p.totals,
        });
    }
    let closed = p.totals.close(rt, p.group, by_opcode)?;
    Ok(GroupsSoFar {
        group: open(rt, line)?,
        totals: closed,
    })
}

// The end of the line that begins at `from`.
fn line_end(text: &[u8], from: usize) -> usize
    requires { from ≤ length text.now }
    ensures { (from ≤ result) × (result ≤ length text.now) }
{
    next_mark(text, from, b'\n')
}

// All lines of a file; its last group ends with it. Its lines are cut by the places of their ends: by `split` an empty
// line took twice the host instructions.
fn take_text(
    rt: &impl Print,
    totals: Totals,
    text: &[u8],
    by_opcode: &mut [u64; 256],
) -> io::Result<Totals> {
    let mut p = GroupsSoFar {
        group: Group::default(),
        totals: totals,
    };
    let mut from = 0;
    while from < text.len() {
        let end = line_end(text, from);
        if from < end && text[from] != COMMENT_MARK {
            p = take_line(rt, p, &text[from..end], by_opcode)?;
        }
        from = end + 1;
    }
    p.totals.close(rt, p.group, by_opcode)
}

// Says of a file why it is left out.
fn report(rt: &impl Print, name: &[u8], why: &[u8]) -> io::Result<()> {
    rt.write_all(name)?;
    rt.write_all(why)
}

// A file that is open.
fn take_file(
    rt: &(impl Print + AllocGlobal),
    totals: Totals,
    file: &mut impl Read,
    name: &[u8],
    by_opcode: &mut [u64; 256],
) -> io::Result<Totals> {
    // Room for the largest file, for the character that shows a larger one, and for one more, so that no read asks for
    // memory: where there is none, the program ends with that error and leaves no file out.
    let mut text = Vec::with_capacity(rt.alloc(), TEXT_LENGTH + 2)?;
    let read = file.take(TEXT_LENGTH as u64 + 1).read_to_end(&mut text);
    if read.is_err() || TEXT_LENGTH < text.len() {
        report(rt, name, b": too large, or not read\n")?;
        return Ok(totals);
    }
    take_text(rt, totals, &text, by_opcode)
}

// The file of that name, to be read; none where it does not open, as one whose name is no text.
fn opened<R: Files>(rt: &R, name: &[u8]) -> Option<R::File> {
    fs::open(rt, str::from_utf8(name).ok()?).ok()
}

// The file that an argument names.
fn take_argument<R: Env + Files + Print + AllocGlobal>(
    rt: &R,
    totals: Totals,
    i: usize,
    by_opcode: &mut [u64; 256],
) -> io::Result<Totals> {
    let mut name = [0u8; NAME_LENGTH];
    let length = rt.arg(i, &mut name).unwrap_or(0);
    let Some(mut file) = opened(rt, &name[..length]) else {
        report(rt, &name[..length], b": not opened\n")?;
        return Ok(totals);
    };
    take_file(rt, totals, &mut file, &name[..length], by_opcode)
}

// Whether there is an argument at `i`.
fn is_argument(rt: &impl Env, i: usize) -> bool {
    !matches!(rt.arg(i, &mut []), Err(FillError::NotPresent))
}

fn main(rt: HostRuntime) -> io::Result<()> {
    let mut by_opcode = [0u64; 256];
    let mut totals = Totals::default();
    for i in 1..usize::MAX {
        if !is_argument(&rt, i) {
            break;
        }
        totals = take_argument(&rt, totals, i, &mut by_opcode)?;
    }
    totals.print(&rt)?;
    print_opcodes(&rt, &by_opcode)
}
