//! A fast search for opcodes of instructions that name data segments.
ghost use Rattle.std.specs.Prelude.{◌≡◌, ◌<◌, ◌≤◌, false, length, IfSome, IfNone};
ghost use Rattle.wasm_modules.specs.DataOpcodes.{may_name_data, Clear, ClearWithin, HasNoPrefix};

/// Number of bytes that are tested for a prefix together.
const BLOCK: usize = 128;

/// The same if a block has one.
const PART: usize = 16;

/// Returns the number of bytes from the first two on that may be the opcode of an instruction that names a data segment,
/// or 0 if there are none. They may as well be parts of numbers.
pub fn len_from_data_opcode(bytes: &[u8]) -> usize
    ensures within { result ≤ length bytes.now }
    ensures clear { Clear result bytes.now }
{
    let mut at = 0;
    while at < bytes.len() {
        let block = at.saturating_add(BLOCK).min(bytes.len());
        if !has_prefix(&bytes[at..block]) {
            at = block;
            continue;
        }
        let part = at.saturating_add(PART).min(bytes.len());
        if has_prefix(&bytes[at..part]) {
            if let Some(found) = find_between(bytes, at, part) {
                return bytes.len() - found;
            }
        }
        at = part;
    }
    0
}

/// Checks whether a prefix `0xFB` or `0xFC` is among the bytes. The compiler makes vector instructions of the loop.
fn has_prefix(bytes: &[u8]) -> bool
    ensures { result ≡ false → HasNoPrefix bytes.now }
{
    let mut least = u8::MAX;
    for byte in bytes {
        least = least.min(0xfc_u8.wrapping_sub(*byte));
    }
    least <= 1
}

/// Returns the first place from `from` and before `to` at which such an opcode may begin.
fn find_between(bytes: &[u8], from: usize, to: usize) -> Option<usize>
    requires { to ≤ length bytes.now }
    ensures within { IfSome result (λ at. at < length bytes.now) }
    ensures some { IfSome result (λ at. ClearWithin bytes.now from at) }
    ensures none { IfNone result (ClearWithin bytes.now from to) }
{
    for at in from..to {
        if at + 1 < bytes.len() && may_name_data(bytes[at], bytes[at + 1]) {
            return Some(at);
        }
    }
    None
}

/// Checks whether two bytes may begin an instruction that names a data segment: `memory.init`, `data.drop`,
/// `array.new_data` or `array.init_data`. The number after the prefix may be padded.
fn may_name_data(prefix: u8, number: u8) -> bool
    ensures { result ≡ may_name_data prefix number }
{
    match prefix {
        0xfb => number % 128 == 0x09 || number % 128 == 0x12,
        0xfc => number % 128 == 0x08 || number % 128 == 0x09,
        _ => false,
    }
}
