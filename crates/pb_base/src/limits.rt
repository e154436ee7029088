//! The limits of pbsolve, each once and all of one type: of texts and models, of equation systems
//! and their modules, of code, and of what the program reads. Clauses and code cite these.

/// How many bytes the input may have (U02).
pub const MAX_INPUT_BYTES: usize = 67_108_864;

/// How many levels of brackets, negations, signs and quantifiers may open (P04).
pub const MAX_DEPTH: usize = 64;

/// How many operators with two operands an equation, and the initial instance, may have (P04).
pub const MAX_OPERATORS: usize = 8192;

/// How many structs there may be (T12): the sorts of a module (B05).
pub const MAX_STRUCTS: usize = 255;

/// How many enumerators a struct may have (T12, B05).
pub const MAX_ENUMERATORS: usize = 255;

/// How many equations there may be (T12, B05).
pub const MAX_EQUATIONS: usize = 64;

/// How many parameters an equation may have (T12, B05).
pub const MAX_PARAMETERS: usize = 8;

/// How many instances there may be, over all carriers of all equations (T12, B05, L02).
pub const MAX_INSTANCES: usize = 4_194_304;

/// How many vertices a game may have (G01).
pub const MAX_VERTICES: usize = 16_777_216;

/// How many priorities a game may have: each is below (G06).
pub const MAX_PRIORITIES: usize = 256;

/// How many bytes the name of an enumerator or of a predicate variable may have (T12, B05).
pub const MAX_NAME_BYTES: usize = 64;

/// How many loop slots the code of an equation may have (C04, B05).
pub const MAX_LOOP_SLOTS: usize = 240;

/// How many instructions the code of an equation may have (C01): a jump's target is a number of 16
/// bits.
pub const MAX_INSTRUCTIONS: usize = 65_535;

/// How many operands there may be (C02, V10).
pub const MAX_OPERANDS: usize = 32;

/// How many brackets may be open (C03, V13).
pub const MAX_BRACKETS: usize = 32;

/// How many loops may be nested (C04, V12).
pub const MAX_LOOPS: usize = 8;

/// At most how many steps an equation may state (C05, V16).
pub const MAX_STEPS: usize = 1_000_000;

/// At most how many tokens an equation may state (C06, V16).
pub const MAX_TOKENS: usize = 100_000;
