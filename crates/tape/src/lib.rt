// A paper tape loaded into memory.
#![tactic(auto)]

mod landing;

ghost use Rattle.std.specs.Prelude.{◌≡◌, ◌+◌, ◌<◌, ◌^◌, length};
ghost use Rattle.tape_records.specs.Records.{data_at};
ghost use Rattle.memory.specs.Memory.{memory_length};
ghost use Rattle.page_sums.specs.PageSums.{sums_after};
ghost use Rattle.tape.specs.Tapes.{fault_number, told, ended_by, check_of, landed_all, loaded, load_of, load_with_sums_of};

use landing::land;
use memory::MEMORY_LENGTH;
use page_sums::page_list_refused;
use tape_records::record::{Fault, address, count, data_digits, fault_of};

// Begins a record.
const MARK: u8 = b';';

// Why a load is refused.
#[derive(Clone, Copy, PartialEq, Eq, Debug)]
pub enum LoadFault {
    MemoryLength,
    Record(Fault),
    LastRecord,
    PageList,
}

// Its number.
impl From<LoadFault> for u8 {
    ghost from_gives = { λ fault number. number ≡ fault_number fault };

    fn from(fault: LoadFault) -> u8 {
        match fault {
            LoadFault::MemoryLength => 1,
            LoadFault::Record(fault) => fault.into(),
            LoadFault::LastRecord => 10,
            LoadFault::PageList => 13,
        }
    }
}

// A refused load, and the place of its fault.
#[derive(Clone, Copy, PartialEq, Eq, Debug)]
pub struct LoadError {
    pub fault: LoadFault,
    pub place: usize,
}

// The digits of a record's data, as a part of the tape, of the record whose `;` stands at `place`; none where no good
// record stands there.
pub fn record_data(tape: &[u8], place: usize) -> &[u8]
    ensures { result.now ≡ data_at tape.now place }
{
    if tape.len() <= place {
        return &[];
    }
    if tape[place] != MARK {
        return &[];
    }
    data_digits(&tape[place + 1..])
}

// The last record, the n-th, whose `;` stands at `place`.
fn ended(text: &[u8], place: usize, n: usize) -> Result<usize, LoadError>
    requires { place + 11 < 2 ^ 64 }
    ensures { told result ≡ ended_by place n text.now }
{
    if address(text) != n {
        let fault = LoadFault::LastRecord;
        return Err(LoadError { fault, place });
    }
    Ok(place + 11)
}

// The first fault of a tape, or the place past its last record.
fn check(tape: &[u8]) -> Result<usize, LoadError>
    ensures { told result ≡ check_of tape.now }
{
    let mut seen = 0;
    for place in 0..tape.len() {
        if tape[place] == MARK {
            let text = &tape[place + 1..];
            if let Some(fault) = fault_of(text) {
                let fault = LoadFault::Record(fault);
                return Err(LoadError { fault, place });
            }
            if count(text) == 0 {
                return ended(text, place, seen + 1);
            }
            seen += 1;
        }
    }
    Err(LoadError {
        fault: LoadFault::LastRecord,
        place: tape.len(),
    })
}

// The bytes of an accepted tape into memory and its page sums, up to its last record.
fn land_all(tape: &[u8], memory: &mut [u8], sums: &mut [u16])
    requires { length memory.old ≡ memory_length }
    ensures memory_after { memory.new ≡ landed_all tape.now memory.old }
    ensures sums_after { sums.new ≡ sums_after sums.old memory.old memory.new }
{
    for place in 0..tape.len() {
        if tape[place] == MARK {
            let text = &tape[place + 1..];
            if count(text) == 0 {
                return;
            }
            land(memory, sums, address(text), record_data(tape, place));
        }
    }
}

// A tape into memory and its page sums: the whole tape is checked first, so that a refused one writes nothing.
fn load_into(tape: &[u8], memory: &mut [u8], sums: &mut [u16]) -> Result<usize, LoadError>
    ensures memory_after { loaded (told result) memory.new ≡ load_of tape.now memory.old }
    ensures sums_after { sums.new ≡ sums_after sums.old memory.old memory.new }
{
    if memory.len() != MEMORY_LENGTH {
        return Err(LoadError {
            fault: LoadFault::MemoryLength,
            place: 0,
        });
    }
    let end = check(tape)?;
    land_all(tape, memory, sums);
    Ok(end)
}

// A tape into memory.
pub fn load(tape: &[u8], memory: &mut [u8]) -> Result<usize, LoadError>
    ensures { loaded (told result) memory.new ≡ load_of tape.now memory.old }
{
    let mut none: [u16; 0] = [];
    load_into(tape, memory, &mut none)
}

// A tape into memory and its 256 page sums; the list of sums is looked at behind the memory and before any record.
pub fn load_with_sums(tape: &[u8], memory: &mut [u8], sums: &mut [u16]) -> Result<usize, LoadError>
    ensures memory_after { loaded (told result) memory.new
        ≡ load_with_sums_of tape.now memory.old sums.old }
    ensures sums_after { sums.new ≡ sums_after sums.old memory.old memory.new }
{
    if page_list_refused(memory.len(), sums.len()) {
        return Err(LoadError {
            fault: LoadFault::PageList,
            place: 0,
        });
    }
    load_into(tape, memory, sums)
}
