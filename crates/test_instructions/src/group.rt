// A group: `=OO` and words, then the cases and digests of the opcode OO.
ghost use Rattle.std.specs.Prelude.{◌≤◌, length};

use crate::digest::DIGEST_MARK;
use crate::line::{after, byte_at};
use crate::tally::Tally;
use std::io;

pub const GROUP_MARK: u8 = b'=';

pub const COMMENT_MARK: u8 = b'#';

// Its opcode, its cases and its digests so far. What stands in front of a file's first group, or behind a line that
// begins one and is not right, is of no known opcode, so that no case agrees.
#[derive(Clone, Copy, Default)]
pub struct Group {
    pub opcode: Option<u8>,
    pub cases: Tally,
    pub digests: Tally,
}

// The opcode of the group that a line begins.
fn opcode_of(line: &[u8]) -> Option<u8> {
    let opcode = byte_at(line, after(line, 0, GROUP_MARK)?)?;
    after(line, opcode.rest, b' ')?;
    Some(opcode.value)
}

// The group that a line begins. Where the line is not right, it counts as a case that does not agree.
pub(crate) fn open(rt: &impl Print, line: &[u8]) -> io::Result<Group>
    requires { 1 ≤ length line.now }
{
    let mut group = Group::default();
    group.opcode = opcode_of(line);
    if group.opcode.is_none() {
        group.cases = group.cases.count(false);
        return Ok(group);
    }
    rt.write_all(&line[1..])?;
    Ok(group)
}

impl Group {
    // One case more.
    fn take_case(mut self, line: &[u8]) -> Group {
        let agrees = match self.opcode {
            Some(opcode) => crate::case::agrees(line, opcode),
            None => false,
        };
        self.cases = self.cases.count(agrees);
        self
    }

    // One digest more; of no known opcode, a case more.
    fn take_digest(mut self, line: &[u8]) -> Group {
        let Some(opcode) = self.opcode else {
            return self.take_case(line);
        };
        self.digests = self.digests.count(crate::digest::agrees(line, opcode));
        self
    }

    // One line more, which is no comment. A line that is nothing else counts as a case, which does not agree.
    pub(crate) fn take(self, line: &[u8]) -> Group
        requires { 1 ≤ length line.now }
    {
        match line[0] {
            DIGEST_MARK => self.take_digest(line),
            _ => self.take_case(line),
        }
    }

    // The rest of its line, whose words are printed already. Of an unknown opcode there are none, and there may be
    // nothing to tell.
    pub(crate) fn print(self, rt: &impl Print) -> io::Result<()> {
        if self.opcode.is_none() {
            if self.cases.all == 0 {
                return Ok(());
            }
            print!(rt; "no opcode")?;
        }
        if self.digests.all == 0 {
            return println!(rt; ": {}", self.cases);
        }
        if 0 < self.cases.all {
            print!(rt; ": {}", self.cases)?;
        }
        println!(rt; ": {} digests of 256 cases", self.digests)
    }
}
