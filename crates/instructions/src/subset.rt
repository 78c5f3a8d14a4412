// The subset without int: the barred opcodes, and 90, 94 and 95 by the byte behind them.
ghost use Rattle.std.specs.Prelude.{◌≡◌, [], ◌∷◌, ◌<◌, length};
ghost use Rattle.rules.specs.Code.{among};
ghost use Rattle.rules.specs.Subset.{barred_opcode, barred_at};
ghost use Rattle.instructions.specs.Table.{BarredIs, Whole};

// A bit for each opcode, eight in a row, the lowest one first: whether it is barred.
const BARRED: [u8; 32] = [
    0x00, // 00 to 07
    0xFE, // 08 to 0F
    0x9C, // 10 to 17
    0x00, // 18 to 1F
    0x8F, // 20 to 27
    0x04, // 28 to 2F
    0x78, // 30 to 37
    0x04, // 38 to 3F
    0x54, // 40 to 47
    0x55, // 48 to 4F
    0x55, // 50 to 57
    0xF5, // 58 to 5F
    0x00, // 60 to 67
    0x00, // 68 to 6F
    0x50, // 70 to 77
    0x42, // 78 to 7F
    0x44, // 80 to 87
    0x04, // 88 to 8F
    0x80, // 90 to 97
    0x00, // 98 to 9F
    0x00, // A0 to A7
    0x10, // A8 to AF
    0x11, // B0 to B7
    0x01, // B8 to BF
    0x00, // C0 to C7
    0x00, // C8 to CF
    0x00, // D0 to D7
    0x00, // D8 to DF
    0x00, // E0 to E7
    0x00, // E8 to EF
    0x00, // F0 to F7
    0x00, // F8 to FF
];

// The set of barred opcodes.
fn barred() -> [u8; 32]
    ensures { BarredIs result × (length result ≡ 32) }
{
    BARRED
}

// Is an opcode barred, whatever its operands?
fn barred_opcode(opcode: u8) -> bool
    ensures { result ≡ barred_opcode opcode }
{
    let set = barred();
    bits::get(&set, opcode as usize)
}

// Is the byte behind an opcode a type: 90, 94, 95?
fn has_type(opcode: u8) -> bool
    ensures { result ≡ among ((0x90, 0x90) ∷ (0x94, 0x95) ∷ []) opcode }
{
    matches!(opcode, 0x90 | 0x94..=0x95)
}

// Is the instruction at an offset barred?
pub fn is_barred(code: &[u8], at: usize) -> bool
    requires { (at < length code.now) × Whole code.now at }
    ensures { result ≡ barred_at code.now at }
{
    let opcode = code[at];
    if barred_opcode(opcode) {
        return true;
    }
    if !has_type(opcode) {
        return false;
    }
    code[at + 1] == 0x0D
}
