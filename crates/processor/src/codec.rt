//! Instructions as bytes.

ghost use Rattle.std.specs.Prelude.{◌≡◌, ℤ, pos, List, ℕ, ◌<◌, ◌++◌, length, option_map, map, nat_eq, slice_get, if◌then◌else◌, None, ◌-◌, Some};
ghost use Rattle.std.specs.Int.{w32, w64, to_le_bytes, from_le_bytes, cast_unsigned, cast_signed};
ghost use Rattle.apex_types.specs.Limits.{INSTRUCTION_BYTES};
ghost use Rattle.apex_types.specs.declared.instruction.Instr.{Instr};
ghost use Rattle.machine_meaning.specs.Instructions.{opcode_of_binary, opcode_of_unary, opcode_of, x_of, v_of, bytes_of, reading, opcode_in, x_in, v_in, fields, instruction_of, operator_of, operator_reading, uses_x, uses_v, uses_none, name_of_opcode, HasBytes, AreBytes};

use apex_types::{BinaryOperator, Instr, UnaryOperator};

/// The opcode of an operator with two operands.
fn binary_opcode(operator: BinaryOperator) -> u32
    ensures { result ≡ opcode_of_binary operator }
{
    match operator {
        BinaryOperator::Add => 8,
        BinaryOperator::Subtract => 9,
        BinaryOperator::Multiply => 10,
        BinaryOperator::Divide => 11,
        BinaryOperator::Remainder => 12,
        BinaryOperator::Equal => 15,
        BinaryOperator::NotEqual => 16,
        BinaryOperator::Less => 17,
        BinaryOperator::LessOrEqual => 18,
        BinaryOperator::Greater => 19,
        BinaryOperator::GreaterOrEqual => 20,
        BinaryOperator::And => 21,
        BinaryOperator::Or => 22,
    }
}

/// The opcode of an operator with one operand.
fn unary_opcode(operator: UnaryOperator) -> u32
    ensures { result ≡ opcode_of_unary operator }
{
    match operator {
        UnaryOperator::Negate => 13,
        UnaryOperator::Not => 14,
    }
}

/// The opcode of an instruction.
fn opcode(instruction: Instr) -> u32
    ensures { result ≡ opcode_of instruction }
{
    match instruction {
        Instr::Push(_) => 1,
        Instr::LoadData(_) => 2,
        Instr::StoreData(_) => 3,
        Instr::LoadLocal(_) => 4,
        Instr::StoreLocal(_) => 5,
        Instr::LoadElement(_, _) => 6,
        Instr::StoreElement(_, _) => 7,
        Instr::Binary(operator) => binary_opcode(operator),
        Instr::Unary(operator) => unary_opcode(operator),
        Instr::Jump(_) => 23,
        Instr::JumpIfZero(_) => 24,
        Instr::Call(_) => 25,
        Instr::Return(_) => 26,
        Instr::Work(_) => 27,
        Instr::Service(_) => 28,
        Instr::End => 29,
        Instr::LoadRegion(_) => 30,
        Instr::StoreRegion(_) => 31,
    }
}

/// The field x of an instruction, 0 if unused.
fn field_x(instruction: Instr) -> u32
    ensures { result ≡ x_of instruction }
{
    match instruction {
        Instr::LoadData(x)
        | Instr::StoreData(x)
        | Instr::LoadLocal(x)
        | Instr::StoreLocal(x)
        | Instr::LoadElement(x, _)
        | Instr::StoreElement(x, _)
        | Instr::Jump(x)
        | Instr::JumpIfZero(x)
        | Instr::Call(x)
        | Instr::Return(x)
        | Instr::Service(x)
        | Instr::LoadRegion(x)
        | Instr::StoreRegion(x) => x,
        _ => 0,
    }
}

/// The field v of an instruction, 0 if unused.
fn field_v(instruction: Instr) -> i64
    ensures { result ≡ v_of instruction }
{
    match instruction {
        Instr::Push(v) | Instr::LoadElement(_, v) | Instr::StoreElement(_, v) | Instr::Work(v) => v,
        _ => 0,
    }
}

/// Sixteen bytes: opcode (4), x (4), v (8), little endian.
fn spell(opcode: u32, x: u32, v: i64) -> [u8; 16]
    ensures { result
        ≡ to_le_bytes w32 opcode ++ to_le_bytes w32 x ++ to_le_bytes w64 (cast_unsigned w64 v) }
{
    let op = opcode.to_le_bytes();
    let x = x.to_le_bytes();
    let v = v.to_le_bytes();
    [
        op[0], op[1], op[2], op[3], x[0], x[1], x[2], x[3], v[0], v[1], v[2], v[3], v[4], v[5],
        v[6], v[7],
    ]
}

/// The sixteen bytes of an instruction. Reading them gives the same instruction.
pub fn encode(instruction: &Instr) -> [u8; 16]
    ensures bytes { result ≡ bytes_of instruction.now }
    ensures reads_back { reading result ≡ Some instruction.now }
{
    spell(
        opcode(*instruction),
        field_x(*instruction),
        field_v(*instruction),
    )
}

/// The opcode encoded in sixteen bytes.
fn opcode_field(bytes: &[u8; 16]) -> u32
    ensures { result ≡ opcode_in bytes.now }
{
    u32::from_le_bytes([bytes[0], bytes[1], bytes[2], bytes[3]])
}

/// The field x encoded in sixteen bytes.
fn x_field(bytes: &[u8; 16]) -> u32
    ensures { result ≡ x_in bytes.now }
{
    u32::from_le_bytes([bytes[4], bytes[5], bytes[6], bytes[7]])
}

/// The field v encoded in sixteen bytes.
#[tactic(auto, using(crate::proofs::Bytes::eight_last))]
fn v_field(bytes: &[u8; 16]) -> i64
    ensures { result ≡ v_in bytes.now }
{
    i64::from_le_bytes([
        bytes[8], bytes[9], bytes[10], bytes[11], bytes[12], bytes[13], bytes[14], bytes[15],
    ])
}

/// Opcode, x and v encoded in sixteen bytes.
pub fn fields(bytes: &[u8; 16]) -> (u32, u32, i64)
    ensures { result ≡ fields bytes.now }
{
    (opcode_field(bytes), x_field(bytes), v_field(bytes))
}

/// The instruction, if its unused field v is 0.
fn with_x(v: i64, instruction: Instr) -> Option<Instr>
    ensures { result ≡ uses_x v instruction }
{
    if v == 0 { Some(instruction) } else { None }
}

/// The instruction, if its unused field x is 0.
fn with_v(x: u32, instruction: Instr) -> Option<Instr>
    ensures { result ≡ uses_v x instruction }
{
    if x == 0 { Some(instruction) } else { None }
}

/// The instruction, if both its unused fields are 0.
fn with_none(x: u32, v: i64, instruction: Instr) -> Option<Instr>
    ensures { result ≡ uses_none x v instruction }
{
    if x == 0 { with_x(v, instruction) } else { None }
}

/// The operator of an opcode from 8 to 22.
fn operator(op: u32) -> Option<Instr>
    ensures { result ≡ operator_of op }
{
    match op {
        8 => Some(Instr::Binary(BinaryOperator::Add)),
        9 => Some(Instr::Binary(BinaryOperator::Subtract)),
        10 => Some(Instr::Binary(BinaryOperator::Multiply)),
        11 => Some(Instr::Binary(BinaryOperator::Divide)),
        12 => Some(Instr::Binary(BinaryOperator::Remainder)),
        13 => Some(Instr::Unary(UnaryOperator::Negate)),
        14 => Some(Instr::Unary(UnaryOperator::Not)),
        15 => Some(Instr::Binary(BinaryOperator::Equal)),
        16 => Some(Instr::Binary(BinaryOperator::NotEqual)),
        17 => Some(Instr::Binary(BinaryOperator::Less)),
        18 => Some(Instr::Binary(BinaryOperator::LessOrEqual)),
        19 => Some(Instr::Binary(BinaryOperator::Greater)),
        20 => Some(Instr::Binary(BinaryOperator::GreaterOrEqual)),
        21 => Some(Instr::Binary(BinaryOperator::And)),
        22 => Some(Instr::Binary(BinaryOperator::Or)),
        _ => None,
    }
}

/// The instruction of an opcode with these fields; none if the opcode is not in the table, or an
/// unused field is not 0.
fn instruction(op: u32, x: u32, v: i64) -> Option<Instr>
    ensures { result ≡ instruction_of op x v }
{
    match op {
        1 => with_v(x, Instr::Push(v)),
        2 => with_x(v, Instr::LoadData(x)),
        3 => with_x(v, Instr::StoreData(x)),
        4 => with_x(v, Instr::LoadLocal(x)),
        5 => with_x(v, Instr::StoreLocal(x)),
        6 => Some(Instr::LoadElement(x, v)),
        7 => Some(Instr::StoreElement(x, v)),
        23 => with_x(v, Instr::Jump(x)),
        24 => with_x(v, Instr::JumpIfZero(x)),
        25 => with_x(v, Instr::Call(x)),
        26 => with_x(v, Instr::Return(x)),
        27 => with_v(x, Instr::Work(v)),
        28 => with_x(v, Instr::Service(x)),
        29 => with_none(x, v, Instr::End),
        30 => with_x(v, Instr::LoadRegion(x)),
        31 => with_x(v, Instr::StoreRegion(x)),
        _ => match operator(op) {
            Some(operator) => with_none(x, v, operator),
            None => None,
        },
    }
}

/// The instruction of sixteen bytes; none exactly if the opcode is not in the table, or an unused
/// field is not 0.
pub fn decode(bytes: &[u8; 16]) -> Option<Instr>
    ensures { result ≡ reading bytes.now }
{
    let (op, x, v) = fields(bytes);
    instruction(op, x, v)
}

/// The names of the instructions in the order of their opcodes, from 1.
const NAMES: [&str; 31] = [
    "PUSH", "LDG", "STG", "LDL", "STL", "LDA", "STA", "ADD", "SUB", "MUL", "DIV", "REM", "NEG",
    "NOT", "EQ", "NE", "LT", "LE", "GT", "GE", "AND", "OR", "JMP", "JZ", "CALL", "RET", "WORK",
    "SVC", "END", "LDR", "STR",
];

/// The entry of a table of names that is numbered from 1.
fn name_entry(names: &[&'static str], op: u32) -> Option<&'static str>
    ensures { option_map (λ s. s.now) result
        ≡ (if nat_eq op 0 then None else slice_get (map (λ s. s.now) names.now) (op - 1)) }
{
    if op == 0 {
        return None;
    }
    names.get((op - 1) as usize).copied()
}

/// The name of an opcode; `None` for one that is not in the table.
pub fn op_name(op: u32) -> Option<&'static str>
    ensures { option_map (λ s. s.now) result ≡ name_of_opcode op }
{
    name_entry(&NAMES, op)
}

/// Reading what [`encode`] writes gives the same instruction, and if sixteen bytes are read as an
/// instruction, [`encode`] writes these bytes for it.
pub fn encode_and_decode_agree()
    ensures reads_back { (i : Instr) → HasBytes i → reading (bytes_of i) ≡ Some i }
    ensures spells_back { (i : Instr) (bytes : List ℕ) → length bytes ≡ INSTRUCTION_BYTES → AreBytes bytes
        → reading bytes ≡ Some i → bytes_of i ≡ bytes }
{}
