//! Bytes of the binary format that have names: opcodes, by the names of their instructions (Core 1.0, section 5.4), types (5.3),
//! sections (5.5.2), and what is imported or exported (5.5.5, 5.5.10).

/// The opcode of `unreachable`.
pub const UNREACHABLE: u8 = 0x00;

/// The opcode of `block`.
pub const BLOCK: u8 = 0x02;

/// The opcode of `loop`.
pub const LOOP: u8 = 0x03;

/// The opcode of `if`.
pub const IF: u8 = 0x04;

/// The opcode of `else`.
pub const ELSE: u8 = 0x05;

/// The opcode of `end`.
pub const END: u8 = 0x0B;

/// The opcode of `br`.
pub const BR: u8 = 0x0C;

/// The opcode of `br_if`.
pub const BR_IF: u8 = 0x0D;

/// The opcode of `br_table`.
pub const BR_TABLE: u8 = 0x0E;

/// The opcode of `return`.
pub const RETURN: u8 = 0x0F;

/// The opcode of `call`.
pub const CALL: u8 = 0x10;

/// The opcode of `call_indirect`.
pub const CALL_INDIRECT: u8 = 0x11;

/// The opcode of `drop`.
pub const DROP: u8 = 0x1A;

/// The opcode of `local.get`.
pub const LOCAL_GET: u8 = 0x20;

/// The opcode of `local.set`.
pub const LOCAL_SET: u8 = 0x21;

/// The opcode of `local.tee`.
pub const LOCAL_TEE: u8 = 0x22;

/// The opcode of `global.get`.
pub const GLOBAL_GET: u8 = 0x23;

/// The opcode of `i32.const`.
pub const I32_CONST: u8 = 0x41;

/// The opcode of `i64.const`.
pub const I64_CONST: u8 = 0x42;

/// The type of numbers of 32 bits.
pub const I32: u8 = 0x7F;

/// The type of numbers of 64 bits.
pub const I64: u8 = 0x7E;

/// The type of a block that leaves nothing.
pub const NO_RESULT: u8 = 0x40;

/// A type of functions.
pub const FUNC_TYPE: u8 = 0x60;

/// The type of the elements of a table: functions.
pub const FUNC_REF: u8 = 0x70;

/// A global that is not set.
pub const IMMUTABLE: u8 = 0x00;

/// A function is imported or exported.
pub const OF_FUNCTION: u8 = 0x00;

/// A table is imported or exported.
pub const OF_TABLE: u8 = 0x01;

/// A memory is imported or exported.
pub const OF_MEMORY: u8 = 0x02;

/// A global is imported or exported.
pub const OF_GLOBAL: u8 = 0x03;

/// The number of the type section.
pub const TYPE_SECTION: u8 = 1;

/// The number of the import section.
pub const IMPORT_SECTION: u8 = 2;

/// The number of the function section.
pub const FUNCTION_SECTION: u8 = 3;

/// The number of the table section.
pub const TABLE_SECTION: u8 = 4;

/// The number of the memory section.
pub const MEMORY_SECTION: u8 = 5;

/// The number of the global section.
pub const GLOBAL_SECTION: u8 = 6;

/// The number of the export section.
pub const EXPORT_SECTION: u8 = 7;

/// The number of the element section.
pub const ELEMENT_SECTION: u8 = 9;

/// The number of the code section.
pub const CODE_SECTION: u8 = 10;

/// The number of the data section.
pub const DATA_SECTION: u8 = 11;
