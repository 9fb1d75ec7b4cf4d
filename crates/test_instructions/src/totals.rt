// What all groups come to.
use crate::group::Group;
use crate::tally::Tally;
use cpu_opcodes::decode;
use std::io;

// How many cases of each opcode are asked for.
const ENOUGH: u64 = 200;

#[derive(Clone, Copy, Default)]
pub struct Totals {
    pub groups: u64,
    pub cases: Tally,
    pub digests: Tally,
}

impl Totals {
    // One group more, which is printed.
    pub(crate) fn close(
        self,
        rt: &impl Print,
        group: Group,
        by_opcode: &mut [u64; 256],
    ) -> io::Result<Totals> {
        if let Some(opcode) = group.opcode {
            let place = opcode as usize;
            by_opcode[place] = by_opcode[place].wrapping_add(group.cases.agreed);
        }
        group.print(rt)?;
        Ok(Totals {
            groups: self.groups.wrapping_add(u64::from(group.opcode.is_some())),
            cases: self.cases.join(group.cases),
            digests: self.digests.join(group.digests),
        })
    }

    pub(crate) fn print(self, rt: &impl Print) -> io::Result<()> {
        println!(rt; "groups: {}", self.groups)?;
        println!(rt; "cases: {}", self.cases)?;
        println!(rt; "digests: {}", self.digests)
    }
}

// Of the opcodes that are defined, those with enough cases that agree.
fn covered(by_opcode: &[u64; 256]) -> Tally {
    let mut tally = Tally::default();
    for opcode in 0..=255u8 {
        if decode(opcode).is_some() {
            tally = tally.count(ENOUGH <= by_opcode[opcode as usize]);
        }
    }
    tally
}

pub(crate) fn print_opcodes(rt: &impl Print, by_opcode: &[u64; 256]) -> io::Result<()> {
    println!(rt; "opcodes with 200 cases or more: {}", covered(by_opcode))
}
