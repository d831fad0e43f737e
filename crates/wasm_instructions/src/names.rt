//! Names of instructions (Core 3.0, Text Format, Instructions).
ghost use Rattle.std.specs.Prelude.{◌≡◌, IfErr, IfOk, IfSome, None, Some, false, is_some, map, true};
ghost use Rattle.wasm_instructions.specs.Instructions.{IsCall};
ghost use Rattle.wasm_instructions.specs.Names.{FitNoneNamed, HasName, HasNoneAfter, HasNoneNamed, IsFirstNamed, IsNameTable};
ghost use Rattle.wasm_instructions.specs.formats.OpcodeNames.{opcode_name};
ghost use Rattle.wasm_instructions.specs.formats.Opcodes.{opcode_kind};

mod opcodes;

use crate::names::opcodes::{AFTER_FB, AFTER_FC, AFTER_FD, AFTER_FE, WITHOUT_PREFIX};
use crate::table::{Call, Kind, Opcode, Operands, Prefix};

/// Length of the longest table of names.
const MOST_OPCODES: u32 = AFTER_FD.len() as u32;

/// All prefixes, in the order in which names are looked up.
const PREFIXES: [Prefix; 5] = [Prefix::None, Prefix::Fb, Prefix::Fc, Prefix::Fd, Prefix::Fe];

/// Returns the name of an instruction in the text format, such as `local.get` (Core 3.0, Text Format, Instructions).
///
/// Returns `None` if the opcode isn't in the table. Two opcodes each have the names `select`, `ref.test`, `ref.cast`
/// and `ref.cast_desc_eq`.
///
/// # Examples
///
/// ```
/// # use wasm_encoder::{Opcode, opcode_name};
/// assert_eq!(rt; opcode_name(Opcode::without_prefix(0x20)), Some("local.get"));
/// assert_eq!(rt; opcode_name(Opcode::after_fd(12)), Some("v128.const"));
/// assert_eq!(rt; opcode_name(Opcode::without_prefix(0xff)), None);
/// ```
#[tactic(auto, unfolding(crate::specs::formats::Opcodes::ranges, crate::specs::formats::OpcodeNames::names))]
pub fn opcode_name(opcode: Opcode) -> Option<&'static str>
    // The opcodes of the table have names, and no others.
    ensures some { is_some result ≡ is_some (opcode_kind opcode) }
    ensures name { IfSome result (λ name. opcode_name opcode ≡ Some name.now) }
{
    opcode.kind()?;
    Some(match opcode.prefix {
        Prefix::None => name_at(opcode, &WITHOUT_PREFIX),
        Prefix::Fb => name_at(opcode, &AFTER_FB),
        Prefix::Fc => name_at(opcode, &AFTER_FC),
        Prefix::Fd => name_at(opcode, &AFTER_FD),
        Prefix::Fe => name_at(opcode, &AFTER_FE),
    })
}

/// Returns the name of an opcode of the table, from the names with its prefix.
#[tactic(auto, using(crate::proofs::NameLaws::below_end, crate::proofs::NameLaws::name_is))]
fn name_at(opcode: Opcode, names: &[&'static str]) -> &'static str
    requires table { IsNameTable opcode.prefix (map (λ name. name.now) names.now) }
    requires known { is_some (opcode_kind opcode) ≡ true }
    ensures { opcode_name opcode ≡ Some result.now }
{
    names[opcode.number as usize]
}

/// Returns the opcode of the instruction that has this name in the text format, such as `local.get` (Core 3.0, Text
/// Format, Instructions).
///
/// Returns `None` if no instruction has it. Of two opcodes of one name, returns the first: `select` without types, and
/// tests and casts whose type can't be null. Each call goes through the table.
///
/// # Examples
///
/// ```
/// # use wasm_encoder::{Call, Opcode, Operands, opcode_named};
/// assert_eq!(rt; opcode_named("v128.const"), Some(Opcode::after_fd(12)));
/// assert_eq!(rt; opcode_named("local.gets"), None);
/// let add = opcode_named("i32.add").and_then(|op| Call::new(op, Operands::None).ok());
/// assert_eq!(rt; add.map(|call| call.op()), Some(Opcode::without_prefix(0x6a)));
/// ```
pub fn opcode_named(name: &str) -> Option<Opcode>
    ensures found { IfSome result (IsFirstNamed name.now None) }
    ensures none { result ≡ None → HasNoneNamed name.now None }
{
    first_named(name, None)
}

/// Returns the first opcode with this name, and with operands of this kind if one is given.
fn first_named(name: &str, kind: Option<Kind>) -> Option<Opcode>
    ensures found { IfSome result (IsFirstNamed name.now kind) }
    ensures none { result ≡ None → HasNoneNamed name.now kind }
{
    for prefix in PREFIXES {
        if let Some(opcode) = first_after(prefix, name, kind) {
            return Some(opcode);
        }
    }
    None
}

/// Returns the first opcode with this prefix and name, and with operands of this kind if one is given.
fn first_after(prefix: Prefix, name: &str, kind: Option<Kind>) -> Option<Opcode>
    ensures found { IfSome result (IsFirstNamed name.now kind) }
    ensures none { result ≡ None → HasNoneAfter prefix name.now kind }
{
    for number in 0..MOST_OPCODES {
        let opcode = Opcode { prefix, number };
        if has_name(opcode, name, kind) {
            return Some(opcode);
        }
    }
    None
}

/// Checks whether the opcode has this name, and operands of this kind if one is given.
fn has_name(opcode: Opcode, name: &str, kind: Option<Kind>) -> bool
    ensures has { result ≡ true → HasName name.now kind opcode }
    ensures hasnt { result ≡ false → HasName name.now kind opcode → ⊥ }
{
    let fits = match kind {
        Some(kind) => opcode.kind() == Some(kind),
        None => true,
    };
    match opcode_name(opcode) {
        Some(found) => fits && found == name,
        None => false,
    }
}

/// Calls by name.
impl Call {
    /// Returns the call of the instruction that has this name in the text format, with these operands (Core 3.0, Text
    /// Format, Instructions).
    ///
    /// Fails with the operands if no instruction of this name has operands of their kind, or if an alignment is 64 or
    /// more. Of `ref.test`, `ref.cast` and `ref.cast_desc_eq`, returns the form whose type can't be null. Each call goes
    /// through the table.
    ///
    /// # Examples
    ///
    /// ```
    /// # use wasm_encoder::{Call, Operands};
    /// let get = Call::named("local.get", Operands::Index(2));
    /// match get.as_ref().map(|call| call.name()) {
    ///     Ok("local.get" | "local.tee") => {}
    ///     _ => panic!(rt; "another instruction"),
    /// }
    /// assert!(rt; Call::named("local.get", Operands::None).is_err());
    /// ```
    pub fn named(name: &str, operands: Operands) -> Result<Call, Operands>
        ensures ok { IfOk result (λ call. call.operands ≡ operands) }
        ensures fits { IfOk result (λ call. IsCall call.op operands) }
        ensures named { IfOk result (λ call. opcode_name call.op ≡ Some name.now) }
        ensures err { IfErr result (λ given. given ≡ operands) }
        ensures none { IfErr result (λ given. FitNoneNamed name.now operands) }
    {
        match first_named(name, Some(operands.kind())) {
            Some(opcode) => Call::new(opcode, operands),
            None => Err(operands),
        }
    }

    /// Returns the name of the instruction in the text format, such as `local.get` (Core 3.0, Text Format,
    /// Instructions).
    pub fn name(&self) -> &'static str
        ensures { opcode_name self.now.op ≡ Some result.now }
    {
        // Each call is of an opcode of the table.
        match opcode_name(self.op()) {
            Some(name) => name,
            None => "",
        }
    }
}
