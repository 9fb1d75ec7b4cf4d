// Page sums beside a memory: one commit of a byte to both, and the total (document 02, U7).
#![tactic(auto)]

ghost use Rattle.std.specs.Prelude.{◌≡◌, ◌+◌, ◌<◌, ◌^◌, length, set};
ghost use Rattle.page_sums.specs.PageSums.{sum_changed, sum_at, sums_after_part, page_list_refused, told, total_call};

use memory::MEMORY_LENGTH;

// The sums of a page list.
const PAGE_COUNT: usize = 256;

// The bytes of a page.
const PAGE_LENGTH: usize = 256;

// A page list is not of 256 sums.
#[derive(Clone, Copy, PartialEq, Eq, Debug)]
pub struct WrongPageList;

// Its number.
impl From<WrongPageList> for u8 {
    ghost from_gives = { λ _ number. number ≡ 13 };

    fn from(_: WrongPageList) -> u8 {
        13
    }
}

// A byte of a page that becomes another changes the page's sum by as much, where the list has one.
fn change_sum(sums: &mut [u16], page: usize, before: u8, after: u8)
    ensures { sums.new
        ≡ set sums.old page (sum_changed (sum_at sums.old page) before after) }
{
    if page < sums.len() {
        sums[page] = ((sums[page] as u32 + after as u32 + 65536 - before as u32) % 65536) as u16;
    }
}

// The one commit of a byte to memory and to its page's sum: it is put at k of the part of memory that starts at
// `address`. A caller without sums lends an empty list.
pub fn commit_byte(part: &mut [u8], address: usize, sums: &mut [u16], k: usize, value: u8)
    requires { (k < length part.old) × (address + k < 2 ^ 64) }
    ensures part_after { part.new ≡ set part.old k value }
    ensures sums_after { sums.new
        ≡ sums_after_part address sums.old part.old part.new }
{
    change_sum(sums, (address + k) / PAGE_LENGTH, part[k], value);
    part[k] = value;
}

// Whether 13 refuses a call that is lent a memory of so many bytes and so many sums: 1 does not, which comes before,
// and there are not 256 sums. A yes or no and no Result, since its callers hand back values of different types.
pub fn page_list_refused(memory: usize, sums: usize) -> bool
    ensures { result ≡ page_list_refused memory sums }
{
    (memory == MEMORY_LENGTH) & (sums != PAGE_COUNT)
}

// The total of 256 page sums, modulo 65,536.
pub fn total(sums: &[u16]) -> Result<u16, WrongPageList>
    ensures { told result ≡ total_call sums.now }
{
    if sums.len() != PAGE_COUNT {
        return Err(WrongPageList);
    }
    let mut total: u32 = 0;
    for &sum in sums {
        total += sum as u32;
    }
    Ok((total % 65536) as u16)
}
