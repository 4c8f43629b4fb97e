//! The encodings of instructions, and the faults of those that have none. Most of the latter can't be written as text, so they are rows
//! here.
use thumb_encode::code::Code;
use thumb_encode::encode::encode;
use thumb_isa::encode_fault::EncodeFault;
use thumb_isa::instr::Instr;

/// The least number that a 16-bit immediate can't hold.
const PAST_SIXTEEN_BITS: u32 = 65536;

/// The codes are those of LLVM 14's assembler for thumbv6m.
static CODES: [(Instr, Code); 66] = [
    (
        Instr::ShiftImm {
            op: 0,
            d: 0,
            m: 1,
            n: 0,
        },
        Code::Half(0x0008),
    ),
    (
        Instr::ShiftImm {
            op: 0,
            d: 1,
            m: 6,
            n: 31,
        },
        Code::Half(0x07f1),
    ),
    (
        Instr::ShiftImm {
            op: 1,
            d: 5,
            m: 2,
            n: 32,
        },
        Code::Half(0x0815),
    ),
    (
        Instr::ShiftImm {
            op: 2,
            d: 3,
            m: 4,
            n: 16,
        },
        Code::Half(0x1423),
    ),
    (
        Instr::AddSubReg {
            sub: false,
            d: 1,
            n: 2,
            m: 3,
        },
        Code::Half(0x18d1),
    ),
    (
        Instr::AddSubReg {
            sub: true,
            d: 6,
            n: 5,
            m: 4,
        },
        Code::Half(0x1b2e),
    ),
    (
        Instr::AddSubImm3 {
            sub: false,
            d: 0,
            n: 1,
            imm: 7,
        },
        Code::Half(0x1dc8),
    ),
    (
        Instr::AddSubImm3 {
            sub: true,
            d: 4,
            n: 1,
            imm: 3,
        },
        Code::Half(0x1ecc),
    ),
    (
        Instr::Imm8 {
            op: 0,
            d: 2,
            imm: 171,
        },
        Code::Half(0x22ab),
    ),
    (
        Instr::Imm8 {
            op: 1,
            d: 3,
            imm: 9,
        },
        Code::Half(0x2b09),
    ),
    (
        Instr::Imm8 {
            op: 2,
            d: 1,
            imm: 255,
        },
        Code::Half(0x31ff),
    ),
    (
        Instr::Imm8 {
            op: 3,
            d: 5,
            imm: 128,
        },
        Code::Half(0x3d80),
    ),
    (Instr::Alu { op: 0, d: 1, m: 2 }, Code::Half(0x4011)),
    (Instr::Alu { op: 9, d: 1, m: 2 }, Code::Half(0x4251)),
    (Instr::Alu { op: 15, d: 7, m: 0 }, Code::Half(0x43c7)),
    (Instr::AddHigh { d: 8, m: 1 }, Code::Half(0x4488)),
    (Instr::AddHigh { d: 14, m: 15 }, Code::Half(0x44fe)),
    (Instr::CmpHigh { n: 0, m: 8 }, Code::Half(0x4540)),
    (Instr::CmpHigh { n: 13, m: 14 }, Code::Half(0x45f5)),
    (Instr::MovHigh { d: 6, m: 8 }, Code::Half(0x4646)),
    (Instr::MovHigh { d: 15, m: 14 }, Code::Half(0x46f7)),
    (Instr::Bx { m: 14 }, Code::Half(0x4770)),
    (Instr::Blx { m: 4 }, Code::Half(0x47a0)),
    (Instr::LdrLit { t: 3, off: 1020 }, Code::Half(0x4bff)),
    (
        Instr::MemReg {
            op: 0,
            t: 1,
            n: 2,
            m: 3,
        },
        Code::Half(0x50d1),
    ),
    (
        Instr::MemReg {
            op: 7,
            t: 1,
            n: 2,
            m: 3,
        },
        Code::Half(0x5ed1),
    ),
    (
        Instr::MemImm {
            op: 0,
            t: 1,
            n: 2,
            off: 4,
        },
        Code::Half(0x6051),
    ),
    (
        Instr::MemImm {
            op: 1,
            t: 4,
            n: 5,
            off: 124,
        },
        Code::Half(0x6fec),
    ),
    (
        Instr::MemImm {
            op: 2,
            t: 1,
            n: 2,
            off: 3,
        },
        Code::Half(0x70d1),
    ),
    (
        Instr::MemImm {
            op: 3,
            t: 6,
            n: 0,
            off: 31,
        },
        Code::Half(0x7fc6),
    ),
    (
        Instr::MemImm {
            op: 4,
            t: 1,
            n: 2,
            off: 6,
        },
        Code::Half(0x80d1),
    ),
    (
        Instr::MemImm {
            op: 5,
            t: 2,
            n: 7,
            off: 62,
        },
        Code::Half(0x8ffa),
    ),
    (
        Instr::MemSp {
            load: false,
            t: 3,
            off: 20,
        },
        Code::Half(0x9305),
    ),
    (
        Instr::MemSp {
            load: true,
            t: 3,
            off: 1020,
        },
        Code::Half(0x9bff),
    ),
    (Instr::Adr { d: 4, off: 96 }, Code::Half(0xa418)),
    (Instr::AddRdSp { d: 4, off: 96 }, Code::Half(0xac18)),
    (Instr::AddSp { off: 508 }, Code::Half(0xb07f)),
    (Instr::SubSp { off: 24 }, Code::Half(0xb086)),
    (Instr::Extend { op: 0, d: 1, m: 2 }, Code::Half(0xb211)),
    (Instr::Extend { op: 3, d: 1, m: 2 }, Code::Half(0xb2d1)),
    (Instr::Rev { op: 0, d: 1, m: 2 }, Code::Half(0xba11)),
    (Instr::Rev { op: 1, d: 1, m: 2 }, Code::Half(0xba51)),
    (Instr::Rev { op: 3, d: 1, m: 2 }, Code::Half(0xbad1)),
    (Instr::Push { list: 0x4010 }, Code::Half(0xb510)),
    (Instr::Push { list: 0x00ff }, Code::Half(0xb4ff)),
    (Instr::Pop { list: 0x8010 }, Code::Half(0xbd10)),
    (Instr::Hint { n: 0 }, Code::Half(0xbf00)),
    (Instr::Hint { n: 15 }, Code::Half(0xbff0)),
    (Instr::Stm { n: 3, list: 0x83 }, Code::Half(0xc383)),
    (Instr::Stm { n: 2, list: 0x0c }, Code::Half(0xc20c)),
    (Instr::Ldm { n: 1, list: 3 }, Code::Half(0xc903)),
    (Instr::BCond { cond: 0, off: 254 }, Code::Half(0xd07f)),
    (
        Instr::BCond {
            cond: 13,
            off: -256,
        },
        Code::Half(0xdd80),
    ),
    (Instr::Svc { imm: 16 }, Code::Half(0xdf10)),
    (Instr::B { off: -4 }, Code::Half(0xe7fe)),
    (Instr::B { off: 2046 }, Code::Half(0xe3ff)),
    (Instr::B { off: -2048 }, Code::Half(0xe400)),
    (Instr::Bl { off: 22 }, Code::Pair(0xf000, 0xf80b)),
    (Instr::Bl { off: -20 }, Code::Pair(0xf7ff, 0xfff6)),
    (Instr::Bl { off: 16777214 }, Code::Pair(0xf3ff, 0xd7ff)),
    (Instr::Bl { off: -16777216 }, Code::Pair(0xf400, 0xd000)),
    (Instr::Bl { off: 4194304 }, Code::Pair(0xf000, 0xf000)),
    (Instr::Bl { off: -8388608 }, Code::Pair(0xf400, 0xf000)),
    (
        Instr::Barrier { op: 0, option: 15 },
        Code::Pair(0xf3bf, 0x8f4f),
    ),
    (
        Instr::Barrier { op: 1, option: 3 },
        Code::Pair(0xf3bf, 0x8f53),
    ),
    (
        Instr::Barrier { op: 2, option: 15 },
        Code::Pair(0xf3bf, 0x8f6f),
    ),
];

static FAULTS: [(Instr, EncodeFault); 83] = [
    (
        Instr::Imm8 {
            op: 0,
            d: 8,
            imm: 1,
        },
        EncodeFault::RegisterRange,
    ),
    (
        Instr::Imm8 {
            op: 4,
            d: 0,
            imm: 0,
        },
        EncodeFault::RegisterRange,
    ),
    (
        Instr::Imm8 {
            op: 0,
            d: 9,
            imm: 300,
        },
        EncodeFault::RegisterRange,
    ),
    (
        Instr::ShiftImm {
            op: 3,
            d: 0,
            m: 0,
            n: 1,
        },
        EncodeFault::RegisterRange,
    ),
    (
        Instr::ShiftImm {
            op: 1,
            d: 8,
            m: 0,
            n: 40,
        },
        EncodeFault::RegisterRange,
    ),
    (
        Instr::AddSubReg {
            sub: false,
            d: 0,
            n: 0,
            m: 8,
        },
        EncodeFault::RegisterRange,
    ),
    (
        Instr::AddSubImm3 {
            sub: true,
            d: 8,
            n: 0,
            imm: 9,
        },
        EncodeFault::RegisterRange,
    ),
    (
        Instr::Alu { op: 16, d: 0, m: 0 },
        EncodeFault::RegisterRange,
    ),
    (Instr::AddHigh { d: 15, m: 15 }, EncodeFault::RegisterRange),
    (Instr::AddHigh { d: 16, m: 0 }, EncodeFault::RegisterRange),
    (Instr::CmpHigh { n: 0, m: 7 }, EncodeFault::RegisterRange),
    (Instr::CmpHigh { n: 15, m: 0 }, EncodeFault::RegisterRange),
    (Instr::CmpHigh { n: 8, m: 15 }, EncodeFault::RegisterRange),
    (Instr::MovHigh { d: 16, m: 0 }, EncodeFault::RegisterRange),
    (Instr::Bx { m: 15 }, EncodeFault::RegisterRange),
    (Instr::Blx { m: 15 }, EncodeFault::RegisterRange),
    (Instr::LdrLit { t: 8, off: -4 }, EncodeFault::RegisterRange),
    (
        Instr::MemReg {
            op: 8,
            t: 0,
            n: 0,
            m: 0,
        },
        EncodeFault::RegisterRange,
    ),
    (
        Instr::MemImm {
            op: 6,
            t: 0,
            n: 0,
            off: 0,
        },
        EncodeFault::RegisterRange,
    ),
    (
        Instr::MemImm {
            op: 0,
            t: 8,
            n: 0,
            off: -1,
        },
        EncodeFault::RegisterRange,
    ),
    (
        Instr::MemSp {
            load: true,
            t: 13,
            off: 0,
        },
        EncodeFault::RegisterRange,
    ),
    (Instr::Adr { d: 8, off: 1 }, EncodeFault::RegisterRange),
    (Instr::AddRdSp { d: 13, off: 0 }, EncodeFault::RegisterRange),
    (
        Instr::Extend { op: 4, d: 0, m: 0 },
        EncodeFault::RegisterRange,
    ),
    (Instr::Rev { op: 2, d: 0, m: 0 }, EncodeFault::RegisterRange),
    (Instr::Rev { op: 4, d: 0, m: 0 }, EncodeFault::RegisterRange),
    (Instr::Push { list: 0x8001 }, EncodeFault::RegisterRange),
    (Instr::Push { list: 0x0100 }, EncodeFault::RegisterRange),
    (Instr::Pop { list: 0x4001 }, EncodeFault::RegisterRange),
    (Instr::Stm { n: 9, list: 0 }, EncodeFault::RegisterRange),
    (Instr::Stm { n: 1, list: 3 }, EncodeFault::RegisterRange),
    (Instr::Stm { n: 7, list: 0xc0 }, EncodeFault::RegisterRange),
    (Instr::Stm { n: 0, list: 0x100 }, EncodeFault::RegisterRange),
    (Instr::Ldm { n: 8, list: 1 }, EncodeFault::RegisterRange),
    (Instr::Ldm { n: 0, list: 0x100 }, EncodeFault::RegisterRange),
    (
        Instr::BCond { cond: 14, off: 0 },
        EncodeFault::RegisterRange,
    ),
    (
        Instr::BCond { cond: 15, off: 1 },
        EncodeFault::RegisterRange,
    ),
    (
        Instr::Barrier { op: 3, option: 16 },
        EncodeFault::RegisterRange,
    ),
    (Instr::Push { list: 0 }, EncodeFault::ListEmpty),
    (Instr::Pop { list: 0 }, EncodeFault::ListEmpty),
    (Instr::Stm { n: 0, list: 0 }, EncodeFault::ListEmpty),
    (Instr::Ldm { n: 7, list: 0 }, EncodeFault::ListEmpty),
    (
        Instr::Imm8 {
            op: 0,
            d: 7,
            imm: 256,
        },
        EncodeFault::ImmediateRange,
    ),
    (
        Instr::ShiftImm {
            op: 0,
            d: 0,
            m: 0,
            n: 32,
        },
        EncodeFault::ImmediateRange,
    ),
    (
        Instr::ShiftImm {
            op: 1,
            d: 0,
            m: 0,
            n: 0,
        },
        EncodeFault::ImmediateRange,
    ),
    (
        Instr::ShiftImm {
            op: 2,
            d: 0,
            m: 0,
            n: 33,
        },
        EncodeFault::ImmediateRange,
    ),
    (
        Instr::AddSubImm3 {
            sub: false,
            d: 0,
            n: 0,
            imm: 8,
        },
        EncodeFault::ImmediateRange,
    ),
    (
        Instr::LdrLit { t: 0, off: 1024 },
        EncodeFault::ImmediateRange,
    ),
    (Instr::LdrLit { t: 0, off: -4 }, EncodeFault::ImmediateRange),
    (
        Instr::LdrLit { t: 0, off: 1021 },
        EncodeFault::ImmediateRange,
    ),
    (
        Instr::MemImm {
            op: 0,
            t: 0,
            n: 0,
            off: 128,
        },
        EncodeFault::ImmediateRange,
    ),
    (
        Instr::MemImm {
            op: 1,
            t: 0,
            n: 0,
            off: 125,
        },
        EncodeFault::ImmediateRange,
    ),
    (
        Instr::MemImm {
            op: 2,
            t: 0,
            n: 0,
            off: 32,
        },
        EncodeFault::ImmediateRange,
    ),
    (
        Instr::MemImm {
            op: 3,
            t: 0,
            n: 0,
            off: -1,
        },
        EncodeFault::ImmediateRange,
    ),
    (
        Instr::MemImm {
            op: 4,
            t: 0,
            n: 0,
            off: 64,
        },
        EncodeFault::ImmediateRange,
    ),
    (
        Instr::MemImm {
            op: 5,
            t: 0,
            n: 0,
            off: 63,
        },
        EncodeFault::ImmediateRange,
    ),
    (
        Instr::MemSp {
            load: false,
            t: 0,
            off: 1024,
        },
        EncodeFault::ImmediateRange,
    ),
    (Instr::Adr { d: 0, off: -1 }, EncodeFault::ImmediateRange),
    (
        Instr::AddRdSp { d: 0, off: 1022 },
        EncodeFault::ImmediateRange,
    ),
    (Instr::AddSp { off: 512 }, EncodeFault::ImmediateRange),
    (Instr::SubSp { off: -4 }, EncodeFault::ImmediateRange),
    (Instr::Hint { n: 16 }, EncodeFault::ImmediateRange),
    (Instr::Svc { imm: 256 }, EncodeFault::ImmediateRange),
    (
        Instr::Barrier { op: 0, option: 16 },
        EncodeFault::ImmediateRange,
    ),
    (Instr::LdrLit { t: 0, off: 2 }, EncodeFault::ImmediateAlign),
    (
        Instr::MemImm {
            op: 0,
            t: 0,
            n: 0,
            off: 6,
        },
        EncodeFault::ImmediateAlign,
    ),
    (
        Instr::MemImm {
            op: 5,
            t: 0,
            n: 0,
            off: 61,
        },
        EncodeFault::ImmediateAlign,
    ),
    (
        Instr::MemSp {
            load: true,
            t: 0,
            off: 1018,
        },
        EncodeFault::ImmediateAlign,
    ),
    (Instr::Adr { d: 0, off: 1 }, EncodeFault::ImmediateAlign),
    (Instr::AddRdSp { d: 0, off: 3 }, EncodeFault::ImmediateAlign),
    (Instr::AddSp { off: 507 }, EncodeFault::ImmediateAlign),
    (Instr::SubSp { off: 2 }, EncodeFault::ImmediateAlign),
    (Instr::BCond { cond: 0, off: 256 }, EncodeFault::TargetRange),
    (
        Instr::BCond { cond: 0, off: -258 },
        EncodeFault::TargetRange,
    ),
    (Instr::BCond { cond: 0, off: 1 }, EncodeFault::TargetRange),
    (
        Instr::BCond {
            cond: 13,
            off: -257,
        },
        EncodeFault::TargetRange,
    ),
    (Instr::B { off: 2048 }, EncodeFault::TargetRange),
    (Instr::B { off: -2050 }, EncodeFault::TargetRange),
    (Instr::B { off: -1 }, EncodeFault::TargetRange),
    (Instr::Bl { off: 16777216 }, EncodeFault::TargetRange),
    (Instr::Bl { off: -16777218 }, EncodeFault::TargetRange),
    (Instr::Bl { off: 3 }, EncodeFault::TargetRange),
    (Instr::Bl { off: -2147483648 }, EncodeFault::TargetRange),
];

/// The instructions that only the second profile has; the codes are those of LLVM 14's assembler for thumbv8m.base.
static LATE_CODES: [(Instr, Code); 39] = [
    (
        Instr::Cbz {
            nonzero: false,
            n: 0,
            off: 4,
        },
        Code::Half(0xb110),
    ),
    (
        Instr::Cbz {
            nonzero: false,
            n: 0,
            off: 0,
        },
        Code::Half(0xb100),
    ),
    (
        Instr::Cbz {
            nonzero: false,
            n: 7,
            off: 126,
        },
        Code::Half(0xb3ff),
    ),
    (
        Instr::Cbz {
            nonzero: false,
            n: 3,
            off: 62,
        },
        Code::Half(0xb1fb),
    ),
    (
        Instr::Cbz {
            nonzero: false,
            n: 3,
            off: 64,
        },
        Code::Half(0xb303),
    ),
    (
        Instr::Cbz {
            nonzero: true,
            n: 1,
            off: 126,
        },
        Code::Half(0xbbf9),
    ),
    (
        Instr::Cbz {
            nonzero: true,
            n: 0,
            off: 0,
        },
        Code::Half(0xb900),
    ),
    (
        Instr::Cbz {
            nonzero: true,
            n: 6,
            off: 2,
        },
        Code::Half(0xb90e),
    ),
    (Instr::BWide { off: 0 }, Code::Pair(0xf000, 0xb800)),
    (Instr::BWide { off: -4 }, Code::Pair(0xf7ff, 0xbffe)),
    (Instr::BWide { off: 2 }, Code::Pair(0xf000, 0xb801)),
    (Instr::BWide { off: 16777214 }, Code::Pair(0xf3ff, 0x97ff)),
    (Instr::BWide { off: -16777216 }, Code::Pair(0xf400, 0x9000)),
    (Instr::BWide { off: 8388608 }, Code::Pair(0xf000, 0x9800)),
    (Instr::BWide { off: 4194304 }, Code::Pair(0xf000, 0xb000)),
    (Instr::BWide { off: -8388608 }, Code::Pair(0xf400, 0xb000)),
    (Instr::BWide { off: -4194306 }, Code::Pair(0xf7ff, 0xb7ff)),
    (Instr::BWide { off: 4094 }, Code::Pair(0xf000, 0xbfff)),
    (Instr::BWide { off: 4096 }, Code::Pair(0xf001, 0xb800)),
    (Instr::MovW { d: 3, imm: 4660 }, Code::Pair(0xf241, 0x2334)),
    (Instr::MovW { d: 0, imm: 0 }, Code::Pair(0xf240, 0x0000)),
    (
        Instr::MovW { d: 14, imm: 65535 },
        Code::Pair(0xf64f, 0x7eff),
    ),
    (Instr::MovW { d: 12, imm: 2048 }, Code::Pair(0xf640, 0x0c00)),
    (Instr::MovW { d: 8, imm: 1792 }, Code::Pair(0xf240, 0x7800)),
    (Instr::MovW { d: 1, imm: 61440 }, Code::Pair(0xf24f, 0x0100)),
    (Instr::MovW { d: 2, imm: 255 }, Code::Pair(0xf240, 0x02ff)),
    (Instr::MovT { d: 3, imm: 32768 }, Code::Pair(0xf2c8, 0x0300)),
    (Instr::MovT { d: 0, imm: 0 }, Code::Pair(0xf2c0, 0x0000)),
    (
        Instr::MovT { d: 14, imm: 65535 },
        Code::Pair(0xf6cf, 0x7eff),
    ),
    (Instr::MovT { d: 12, imm: 2048 }, Code::Pair(0xf6c0, 0x0c00)),
    (Instr::MovT { d: 7, imm: 1792 }, Code::Pair(0xf2c0, 0x7700)),
    (Instr::MovT { d: 5, imm: 61440 }, Code::Pair(0xf2cf, 0x0500)),
    (Instr::MovT { d: 2, imm: 255 }, Code::Pair(0xf2c0, 0x02ff)),
    (
        Instr::Div {
            signed: true,
            d: 0,
            n: 1,
            m: 2,
        },
        Code::Pair(0xfb91, 0xf0f2),
    ),
    (
        Instr::Div {
            signed: true,
            d: 14,
            n: 12,
            m: 8,
        },
        Code::Pair(0xfb9c, 0xfef8),
    ),
    (
        Instr::Div {
            signed: true,
            d: 2,
            n: 0,
            m: 14,
        },
        Code::Pair(0xfb90, 0xf2fe),
    ),
    (
        Instr::Div {
            signed: false,
            d: 0,
            n: 1,
            m: 2,
        },
        Code::Pair(0xfbb1, 0xf0f2),
    ),
    (
        Instr::Div {
            signed: false,
            d: 14,
            n: 12,
            m: 8,
        },
        Code::Pair(0xfbbc, 0xfef8),
    ),
    (
        Instr::Div {
            signed: false,
            d: 8,
            n: 14,
            m: 0,
        },
        Code::Pair(0xfbbe, 0xf8f0),
    ),
];

/// The faults of the second profile's instructions.
static LATE_FAULTS: [(Instr, EncodeFault); 28] = [
    (
        Instr::Cbz {
            nonzero: false,
            n: 8,
            off: 0,
        },
        EncodeFault::RegisterRange,
    ),
    (
        Instr::Cbz {
            nonzero: true,
            n: 8,
            off: -2,
        },
        EncodeFault::RegisterRange,
    ),
    (
        Instr::Cbz {
            nonzero: false,
            n: 0,
            off: -2,
        },
        EncodeFault::TargetRange,
    ),
    (
        Instr::Cbz {
            nonzero: false,
            n: 0,
            off: -4,
        },
        EncodeFault::TargetRange,
    ),
    (
        Instr::Cbz {
            nonzero: true,
            n: 7,
            off: 1,
        },
        EncodeFault::TargetRange,
    ),
    (
        Instr::Cbz {
            nonzero: true,
            n: 7,
            off: 127,
        },
        EncodeFault::TargetRange,
    ),
    (
        Instr::Cbz {
            nonzero: false,
            n: 7,
            off: 128,
        },
        EncodeFault::TargetRange,
    ),
    (
        Instr::Cbz {
            nonzero: false,
            n: 0,
            off: -2147483648,
        },
        EncodeFault::TargetRange,
    ),
    (Instr::BWide { off: 16777216 }, EncodeFault::TargetRange),
    (Instr::BWide { off: -16777218 }, EncodeFault::TargetRange),
    (Instr::BWide { off: 3 }, EncodeFault::TargetRange),
    (Instr::MovW { d: 13, imm: 0 }, EncodeFault::RegisterRange),
    (
        Instr::MovW {
            d: 15,
            imm: PAST_SIXTEEN_BITS,
        },
        EncodeFault::RegisterRange,
    ),
    (Instr::MovW { d: 16, imm: 0 }, EncodeFault::RegisterRange),
    (
        Instr::MovT {
            d: 13,
            imm: PAST_SIXTEEN_BITS,
        },
        EncodeFault::RegisterRange,
    ),
    (Instr::MovT { d: 15, imm: 0 }, EncodeFault::RegisterRange),
    (Instr::MovT { d: 255, imm: 0 }, EncodeFault::RegisterRange),
    (
        Instr::MovW {
            d: 0,
            imm: PAST_SIXTEEN_BITS,
        },
        EncodeFault::ImmediateRange,
    ),
    (
        Instr::MovT {
            d: 14,
            imm: PAST_SIXTEEN_BITS,
        },
        EncodeFault::ImmediateRange,
    ),
    (
        Instr::MovT {
            d: 0,
            imm: 4294967295,
        },
        EncodeFault::ImmediateRange,
    ),
    (
        Instr::Div {
            signed: true,
            d: 13,
            n: 0,
            m: 0,
        },
        EncodeFault::RegisterRange,
    ),
    (
        Instr::Div {
            signed: true,
            d: 0,
            n: 13,
            m: 0,
        },
        EncodeFault::RegisterRange,
    ),
    (
        Instr::Div {
            signed: true,
            d: 0,
            n: 0,
            m: 13,
        },
        EncodeFault::RegisterRange,
    ),
    (
        Instr::Div {
            signed: false,
            d: 15,
            n: 0,
            m: 0,
        },
        EncodeFault::RegisterRange,
    ),
    (
        Instr::Div {
            signed: false,
            d: 0,
            n: 15,
            m: 0,
        },
        EncodeFault::RegisterRange,
    ),
    (
        Instr::Div {
            signed: false,
            d: 0,
            n: 0,
            m: 15,
        },
        EncodeFault::RegisterRange,
    ),
    (
        Instr::Div {
            signed: false,
            d: 16,
            n: 0,
            m: 0,
        },
        EncodeFault::RegisterRange,
    ),
    (
        Instr::Div {
            signed: true,
            d: 0,
            n: 0,
            m: 16,
        },
        EncodeFault::RegisterRange,
    ),
];

#[test]
fn codes(rt: HostRuntime) {
    for (row, (instr, code)) in CODES.iter().enumerate() {
        assert_eq!(rt; encode(instr), Ok(*code), "at row {row}");
    }
}

#[test]
fn faults(rt: HostRuntime) {
    for (row, (instr, fault)) in FAULTS.iter().enumerate() {
        assert_eq!(rt; encode(instr), Err(*fault), "at row {row}");
    }
}

#[test]
fn late_codes(rt: HostRuntime) {
    for (row, (instr, code)) in LATE_CODES.iter().enumerate() {
        assert_eq!(rt; encode(instr), Ok(*code), "at row {row}");
    }
}

#[test]
fn late_faults(rt: HostRuntime) {
    for (row, (instr, fault)) in LATE_FAULTS.iter().enumerate() {
        assert_eq!(rt; encode(instr), Err(*fault), "at row {row}");
    }
}
