// What a call is lent: its memory, and its lists.
ghost use Rattle.std.specs.Prelude.{◌≡◌, length};
ghost use Rattle.page_sums.specs.PageSums.{SixteenBits};

// A memory with the sums of its pages beside it; a caller without sums lends an empty list.
#[derive(Drop)]
pub struct SummedMemory<'a> {
    pub bytes: &'a mut [u8],
    pub sums: &'a mut [u16],
    ghost sixteen_bits: { SixteenBits sums.now },
}

// The clocks and codes of the inputs, and the clocks and words of the records.
#[derive(Drop)]
pub struct LentLists<'a> {
    pub inputclocks: &'a [u32],
    pub inputcodes: &'a [u8],
    pub outputclocks: &'a mut [u32],
    pub outputwords: &'a mut [u32],
    ghost inputs: { length inputclocks.now ≡ length inputcodes.now },
    ghost outputs: { length outputclocks.now ≡ length outputwords.now },
}
