// The table of all 256 opcodes, in the order of the instruction code matrix (source document 001, A.3).
use crate::Entry;
use crate::Mode::{
    Absolute, AbsoluteX, AbsoluteY, Accumulator, Immediate, Implied, IndexedIndirect, Indirect,
    IndirectIndexed, Relative, ZeroPage, ZeroPageRelative, ZeroPageX, ZeroPageY,
};
use crate::operation::BitBranchOperation::{Bbr, Bbs};
use crate::operation::BranchOperation::{Bcc, Bcs, Beq, Bmi, Bne, Bpl, Bvc, Bvs};
use crate::operation::FlagOperation::{Clc, Cld, Cli, Clv, Sec, Sed, Sei};
use crate::operation::ModifyOperation::{Asl, Dec, Inc, Lsr, Rmb, Rol, Ror, Smb};
use crate::operation::Operation::{
    BitBranch, Branch, Brk, Flag, Jmp, Jsr, Modify, Nop, Pull, Push, Read, Register, Rti, Rts,
    Store,
};
use crate::operation::PullOperation::{Pla, Plp};
use crate::operation::PushOperation::{Pha, Php};
use crate::operation::ReadOperation::{Adc, And, Bit, Cmp, Cpx, Cpy, Eor, Lda, Ldx, Ldy, Ora, Sbc};
use crate::operation::RegisterOperation::{Dex, Dey, Inx, Iny, Tax, Tay, Tsx, Txa, Txs, Tya};
use crate::operation::StoreOperation::{Sta, Stx, Sty};

// A defined opcode: its operation, its addressing mode and its length in clocks.
macro_rules! entry {
    ($operation:expr, $mode:expr, $length:expr) => {
        Some(Entry { operation: $operation, mode: $mode, length: $length })
    };
}

pub(crate) static TABLE: [Option<Entry>; 256] = [
    entry!(Brk, Implied, 7), // 00h
    entry!(Read(Ora), IndexedIndirect, 6), // 01h
    None, // 02h
    None, // 03h
    None, // 04h
    entry!(Read(Ora), ZeroPage, 3), // 05h
    entry!(Modify(Asl), ZeroPage, 5), // 06h
    entry!(Modify(Rmb(0)), ZeroPage, 5), // 07h
    entry!(Push(Php), Implied, 3), // 08h
    entry!(Read(Ora), Immediate, 2), // 09h
    entry!(Modify(Asl), Accumulator, 2), // 0Ah
    None, // 0Bh
    None, // 0Ch
    entry!(Read(Ora), Absolute, 4), // 0Dh
    entry!(Modify(Asl), Absolute, 6), // 0Eh
    entry!(BitBranch(Bbr(0)), ZeroPageRelative, 5), // 0Fh
    entry!(Branch(Bpl), Relative, 2), // 10h
    entry!(Read(Ora), IndirectIndexed, 5), // 11h
    None, // 12h
    None, // 13h
    None, // 14h
    entry!(Read(Ora), ZeroPageX, 4), // 15h
    entry!(Modify(Asl), ZeroPageX, 6), // 16h
    entry!(Modify(Rmb(1)), ZeroPage, 5), // 17h
    entry!(Flag(Clc), Implied, 2), // 18h
    entry!(Read(Ora), AbsoluteY, 4), // 19h
    None, // 1Ah
    None, // 1Bh
    None, // 1Ch
    entry!(Read(Ora), AbsoluteX, 4), // 1Dh
    entry!(Modify(Asl), AbsoluteX, 7), // 1Eh
    entry!(BitBranch(Bbr(1)), ZeroPageRelative, 5), // 1Fh
    entry!(Jsr, Absolute, 6), // 20h
    entry!(Read(And), IndexedIndirect, 6), // 21h
    None, // 22h
    None, // 23h
    entry!(Read(Bit), ZeroPage, 3), // 24h
    entry!(Read(And), ZeroPage, 3), // 25h
    entry!(Modify(Rol), ZeroPage, 5), // 26h
    entry!(Modify(Rmb(2)), ZeroPage, 5), // 27h
    entry!(Pull(Plp), Implied, 4), // 28h
    entry!(Read(And), Immediate, 2), // 29h
    entry!(Modify(Rol), Accumulator, 2), // 2Ah
    None, // 2Bh
    entry!(Read(Bit), Absolute, 4), // 2Ch
    entry!(Read(And), Absolute, 4), // 2Dh
    entry!(Modify(Rol), Absolute, 6), // 2Eh
    entry!(BitBranch(Bbr(2)), ZeroPageRelative, 5), // 2Fh
    entry!(Branch(Bmi), Relative, 2), // 30h
    entry!(Read(And), IndirectIndexed, 5), // 31h
    None, // 32h
    None, // 33h
    None, // 34h
    entry!(Read(And), ZeroPageX, 4), // 35h
    entry!(Modify(Rol), ZeroPageX, 6), // 36h
    entry!(Modify(Rmb(3)), ZeroPage, 5), // 37h
    entry!(Flag(Sec), Implied, 2), // 38h
    entry!(Read(And), AbsoluteY, 4), // 39h
    None, // 3Ah
    None, // 3Bh
    None, // 3Ch
    entry!(Read(And), AbsoluteX, 4), // 3Dh
    entry!(Modify(Rol), AbsoluteX, 7), // 3Eh
    entry!(BitBranch(Bbr(3)), ZeroPageRelative, 5), // 3Fh
    entry!(Rti, Implied, 6), // 40h
    entry!(Read(Eor), IndexedIndirect, 6), // 41h
    None, // 42h
    None, // 43h
    None, // 44h
    entry!(Read(Eor), ZeroPage, 3), // 45h
    entry!(Modify(Lsr), ZeroPage, 5), // 46h
    entry!(Modify(Rmb(4)), ZeroPage, 5), // 47h
    entry!(Push(Pha), Implied, 3), // 48h
    entry!(Read(Eor), Immediate, 2), // 49h
    entry!(Modify(Lsr), Accumulator, 2), // 4Ah
    None, // 4Bh
    entry!(Jmp, Absolute, 3), // 4Ch
    entry!(Read(Eor), Absolute, 4), // 4Dh
    entry!(Modify(Lsr), Absolute, 6), // 4Eh
    entry!(BitBranch(Bbr(4)), ZeroPageRelative, 5), // 4Fh
    entry!(Branch(Bvc), Relative, 2), // 50h
    entry!(Read(Eor), IndirectIndexed, 5), // 51h
    None, // 52h
    None, // 53h
    None, // 54h
    entry!(Read(Eor), ZeroPageX, 4), // 55h
    entry!(Modify(Lsr), ZeroPageX, 6), // 56h
    entry!(Modify(Rmb(5)), ZeroPage, 5), // 57h
    entry!(Flag(Cli), Implied, 2), // 58h
    entry!(Read(Eor), AbsoluteY, 4), // 59h
    None, // 5Ah
    None, // 5Bh
    None, // 5Ch
    entry!(Read(Eor), AbsoluteX, 4), // 5Dh
    entry!(Modify(Lsr), AbsoluteX, 7), // 5Eh
    entry!(BitBranch(Bbr(5)), ZeroPageRelative, 5), // 5Fh
    entry!(Rts, Implied, 6), // 60h
    entry!(Read(Adc), IndexedIndirect, 6), // 61h
    None, // 62h
    None, // 63h
    None, // 64h
    entry!(Read(Adc), ZeroPage, 3), // 65h
    entry!(Modify(Ror), ZeroPage, 5), // 66h
    entry!(Modify(Rmb(6)), ZeroPage, 5), // 67h
    entry!(Pull(Pla), Implied, 4), // 68h
    entry!(Read(Adc), Immediate, 2), // 69h
    entry!(Modify(Ror), Accumulator, 2), // 6Ah
    None, // 6Bh
    entry!(Jmp, Indirect, 5), // 6Ch
    entry!(Read(Adc), Absolute, 4), // 6Dh
    entry!(Modify(Ror), Absolute, 6), // 6Eh
    entry!(BitBranch(Bbr(6)), ZeroPageRelative, 5), // 6Fh
    entry!(Branch(Bvs), Relative, 2), // 70h
    entry!(Read(Adc), IndirectIndexed, 5), // 71h
    None, // 72h
    None, // 73h
    None, // 74h
    entry!(Read(Adc), ZeroPageX, 4), // 75h
    entry!(Modify(Ror), ZeroPageX, 6), // 76h
    entry!(Modify(Rmb(7)), ZeroPage, 5), // 77h
    entry!(Flag(Sei), Implied, 2), // 78h
    entry!(Read(Adc), AbsoluteY, 4), // 79h
    None, // 7Ah
    None, // 7Bh
    None, // 7Ch
    entry!(Read(Adc), AbsoluteX, 4), // 7Dh
    entry!(Modify(Ror), AbsoluteX, 7), // 7Eh
    entry!(BitBranch(Bbr(7)), ZeroPageRelative, 5), // 7Fh
    None, // 80h
    entry!(Store(Sta), IndexedIndirect, 6), // 81h
    None, // 82h
    None, // 83h
    entry!(Store(Sty), ZeroPage, 3), // 84h
    entry!(Store(Sta), ZeroPage, 3), // 85h
    entry!(Store(Stx), ZeroPage, 3), // 86h
    entry!(Modify(Smb(0)), ZeroPage, 5), // 87h
    entry!(Register(Dey), Implied, 2), // 88h
    None, // 89h
    entry!(Register(Txa), Implied, 2), // 8Ah
    None, // 8Bh
    entry!(Store(Sty), Absolute, 4), // 8Ch
    entry!(Store(Sta), Absolute, 4), // 8Dh
    entry!(Store(Stx), Absolute, 4), // 8Eh
    entry!(BitBranch(Bbs(0)), ZeroPageRelative, 5), // 8Fh
    entry!(Branch(Bcc), Relative, 2), // 90h
    entry!(Store(Sta), IndirectIndexed, 6), // 91h
    None, // 92h
    None, // 93h
    entry!(Store(Sty), ZeroPageX, 4), // 94h
    entry!(Store(Sta), ZeroPageX, 4), // 95h
    entry!(Store(Stx), ZeroPageY, 4), // 96h
    entry!(Modify(Smb(1)), ZeroPage, 5), // 97h
    entry!(Register(Tya), Implied, 2), // 98h
    entry!(Store(Sta), AbsoluteY, 5), // 99h
    entry!(Register(Txs), Implied, 2), // 9Ah
    None, // 9Bh
    None, // 9Ch
    entry!(Store(Sta), AbsoluteX, 5), // 9Dh
    None, // 9Eh
    entry!(BitBranch(Bbs(1)), ZeroPageRelative, 5), // 9Fh
    entry!(Read(Ldy), Immediate, 2), // A0h
    entry!(Read(Lda), IndexedIndirect, 6), // A1h
    entry!(Read(Ldx), Immediate, 2), // A2h
    None, // A3h
    entry!(Read(Ldy), ZeroPage, 3), // A4h
    entry!(Read(Lda), ZeroPage, 3), // A5h
    entry!(Read(Ldx), ZeroPage, 3), // A6h
    entry!(Modify(Smb(2)), ZeroPage, 5), // A7h
    entry!(Register(Tay), Implied, 2), // A8h
    entry!(Read(Lda), Immediate, 2), // A9h
    entry!(Register(Tax), Implied, 2), // AAh
    None, // ABh
    entry!(Read(Ldy), Absolute, 4), // ACh
    entry!(Read(Lda), Absolute, 4), // ADh
    entry!(Read(Ldx), Absolute, 4), // AEh
    entry!(BitBranch(Bbs(2)), ZeroPageRelative, 5), // AFh
    entry!(Branch(Bcs), Relative, 2), // B0h
    entry!(Read(Lda), IndirectIndexed, 5), // B1h
    None, // B2h
    None, // B3h
    entry!(Read(Ldy), ZeroPageX, 4), // B4h
    entry!(Read(Lda), ZeroPageX, 4), // B5h
    entry!(Read(Ldx), ZeroPageY, 4), // B6h
    entry!(Modify(Smb(3)), ZeroPage, 5), // B7h
    entry!(Flag(Clv), Implied, 2), // B8h
    entry!(Read(Lda), AbsoluteY, 4), // B9h
    entry!(Register(Tsx), Implied, 2), // BAh
    None, // BBh
    entry!(Read(Ldy), AbsoluteX, 4), // BCh
    entry!(Read(Lda), AbsoluteX, 4), // BDh
    entry!(Read(Ldx), AbsoluteY, 4), // BEh
    entry!(BitBranch(Bbs(3)), ZeroPageRelative, 5), // BFh
    entry!(Read(Cpy), Immediate, 2), // C0h
    entry!(Read(Cmp), IndexedIndirect, 6), // C1h
    None, // C2h
    None, // C3h
    entry!(Read(Cpy), ZeroPage, 3), // C4h
    entry!(Read(Cmp), ZeroPage, 3), // C5h
    entry!(Modify(Dec), ZeroPage, 5), // C6h
    entry!(Modify(Smb(4)), ZeroPage, 5), // C7h
    entry!(Register(Iny), Implied, 2), // C8h
    entry!(Read(Cmp), Immediate, 2), // C9h
    entry!(Register(Dex), Implied, 2), // CAh
    None, // CBh
    entry!(Read(Cpy), Absolute, 4), // CCh
    entry!(Read(Cmp), Absolute, 4), // CDh
    entry!(Modify(Dec), Absolute, 6), // CEh
    entry!(BitBranch(Bbs(4)), ZeroPageRelative, 5), // CFh
    entry!(Branch(Bne), Relative, 2), // D0h
    entry!(Read(Cmp), IndirectIndexed, 5), // D1h
    None, // D2h
    None, // D3h
    None, // D4h
    entry!(Read(Cmp), ZeroPageX, 4), // D5h
    entry!(Modify(Dec), ZeroPageX, 6), // D6h
    entry!(Modify(Smb(5)), ZeroPage, 5), // D7h
    entry!(Flag(Cld), Implied, 2), // D8h
    entry!(Read(Cmp), AbsoluteY, 4), // D9h
    None, // DAh
    None, // DBh
    None, // DCh
    entry!(Read(Cmp), AbsoluteX, 4), // DDh
    entry!(Modify(Dec), AbsoluteX, 7), // DEh
    entry!(BitBranch(Bbs(5)), ZeroPageRelative, 5), // DFh
    entry!(Read(Cpx), Immediate, 2), // E0h
    entry!(Read(Sbc), IndexedIndirect, 6), // E1h
    None, // E2h
    None, // E3h
    entry!(Read(Cpx), ZeroPage, 3), // E4h
    entry!(Read(Sbc), ZeroPage, 3), // E5h
    entry!(Modify(Inc), ZeroPage, 5), // E6h
    entry!(Modify(Smb(6)), ZeroPage, 5), // E7h
    entry!(Register(Inx), Implied, 2), // E8h
    entry!(Read(Sbc), Immediate, 2), // E9h
    entry!(Nop, Implied, 2), // EAh
    None, // EBh
    entry!(Read(Cpx), Absolute, 4), // ECh
    entry!(Read(Sbc), Absolute, 4), // EDh
    entry!(Modify(Inc), Absolute, 6), // EEh
    entry!(BitBranch(Bbs(6)), ZeroPageRelative, 5), // EFh
    entry!(Branch(Beq), Relative, 2), // F0h
    entry!(Read(Sbc), IndirectIndexed, 5), // F1h
    None, // F2h
    None, // F3h
    None, // F4h
    entry!(Read(Sbc), ZeroPageX, 4), // F5h
    entry!(Modify(Inc), ZeroPageX, 6), // F6h
    entry!(Modify(Smb(7)), ZeroPage, 5), // F7h
    entry!(Flag(Sed), Implied, 2), // F8h
    entry!(Read(Sbc), AbsoluteY, 4), // F9h
    None, // FAh
    None, // FBh
    None, // FCh
    entry!(Read(Sbc), AbsoluteX, 4), // FDh
    entry!(Modify(Inc), AbsoluteX, 7), // FEh
    entry!(BitBranch(Bbs(7)), ZeroPageRelative, 5), // FFh
];
