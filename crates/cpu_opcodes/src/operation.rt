// What an instruction does: its operation, by kind. The kind says how memory is used, the operation what is done.

// Reads of the byte at the operand's address.
#[derive(Clone, Copy)]
pub enum ReadOperation {
    Adc,
    And,
    Bit,
    Cmp,
    Cpx,
    Cpy,
    Eor,
    Lda,
    Ldx,
    Ldy,
    Ora,
    Sbc,
}

// The read-modify-write operations: a byte is read, changed and written back. RMB and SMB hold the number of their bit.
#[derive(Clone, Copy)]
pub enum ModifyOperation {
    Asl,
    Dec,
    Inc,
    Lsr,
    Rol,
    Ror,
    Rmb(u8),
    Smb(u8),
}

// A register is stored.
#[derive(Clone, Copy)]
pub enum StoreOperation {
    Sta,
    Stx,
    Sty,
}

// Branches, each on one flag.
#[derive(Clone, Copy)]
pub enum BranchOperation {
    Bcc,
    Bcs,
    Beq,
    Bmi,
    Bne,
    Bpl,
    Bvc,
    Bvs,
}

// Branches on a bit of a byte that is read. Each holds the number of its bit.
#[derive(Clone, Copy)]
pub enum BitBranchOperation {
    Bbr(u8),
    Bbs(u8),
}

// A byte is pushed.
#[derive(Clone, Copy)]
pub enum PushOperation {
    Pha,
    Php,
}

// A byte is pulled.
#[derive(Clone, Copy)]
pub enum PullOperation {
    Pla,
    Plp,
}

// Registers of the CPU alone: counted by one, or moved to another.
#[derive(Clone, Copy)]
pub enum RegisterOperation {
    Dex,
    Dey,
    Inx,
    Iny,
    Tax,
    Tay,
    Tsx,
    Txa,
    Txs,
    Tya,
}

// One flag is cleared or set.
#[derive(Clone, Copy)]
pub enum FlagOperation {
    Clc,
    Cld,
    Cli,
    Clv,
    Sec,
    Sed,
    Sei,
}

// An operation: one of a kind, or one that is a kind of its own.
#[derive(Clone, Copy)]
pub enum Operation {
    Read(ReadOperation),
    Modify(ModifyOperation),
    Store(StoreOperation),
    Branch(BranchOperation),
    BitBranch(BitBranchOperation),
    Push(PushOperation),
    Pull(PullOperation),
    Register(RegisterOperation),
    Flag(FlagOperation),
    Brk,
    Jmp,
    Jsr,
    Nop,
    Rti,
    Rts,
}
