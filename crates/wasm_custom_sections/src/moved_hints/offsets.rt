//! Offsets of instructions in the body of a function, and in the body's minimal encoding.
ghost use Rattle.std.specs.Prelude.{◌≡◌, ◌≤◌, ℕ, List, All, None, IfOk, IfSome, IfNone};
ghost use Rattle.wasm_custom_sections.specs.MovedOffsets.{AreFronts, AreLocals, Each, IsFront, IsFrontUpTo, MovesHint, NoInstructionAt};
ghost use Rattle.wasm_custom_sections.specs.declared.branch_hints.BranchHint.{BranchHint};

use crate::branch_hints::BranchHint;
use std::alloc::{AllocError, Global};
use wasm_code::code::normaliser::rewrite_locals;
use wasm_codec::reader::{DecodeError, ReadError};
use wasm_codec::rewriter::Rewriter;
use wasm_instructions::normaliser::normalise_instructions;
use wasm_instructions::table::Call;
use wasm_lists::item_reader::ItemReader;
use wasm_lists::list::Items;

/// Least number of bytes between two checkpoints.
const CHECKPOINT_DISTANCE: usize = 256;

/// The first bytes of a function's body: its locals, and some of its instructions.
#[derive(Clone, Copy)]
pub struct Front {
    /// Number of these bytes.
    pub len: usize,
    /// Length in bytes of their minimal encoding.
    pub minimal: usize,
}

/// Fronts of a function's body.
#[derive(Drop)]
pub struct Fronts {
    /// The locals.
    pub locals: Front,
    /// The front before the last hint that moved.
    pub last: Front,
    /// Fronts in ascending order, at least 256 bytes apart. Empty until a hint precedes the one before it.
    pub checkpoints: Vec<Front>,
}

impl Fronts {
    /// Returns the bytes of the body up to `offset`, and keeps them as the last front.
    ///
    /// `None` means that no instruction begins at `offset`. Fails if memory runs out.
    fn up_to(
        &mut self,
        alloc: Global,
        body: &[u8],
        offset: u32,
    ) -> Result<Option<Front>, AllocError>
        requires { AreFronts body.now self.old }
        ensures front { IfOk result (λ found. IfSome found (IsFrontUpTo body.now offset)) }
        ensures none { IfOk result (λ found. IfNone found (NoInstructionAt body.now offset)) }
        ensures fronts { AreFronts body.now self.new }
    {
        // Hints that don't ascend go on after checkpoints: after the locals they would take quadratic time.
        if (offset as usize) < self.last.len && self.checkpoints.is_empty() {
            self.checkpoints = checkpoints_of(alloc, body, self.locals)?;
        }
        let start = nearest_front(self.checkpoints.as_slice(), self.last, offset);
        let Some(next) = front_up_to(alloc, body, self.locals, start, offset)? else {
            return Ok(None);
        };
        self.last = next;
        Ok(Some(next))
    }
}

/// Returns hints for the same instructions of a body, once the body is minimally encoded. Keeps the body's fronts in
/// `known`, for the next hints.
///
/// `None` means that no instruction begins at one of the offsets. Fails if memory runs out.
pub(crate) fn moved_hints(
    alloc: Global,
    body: &[u8],
    known: &mut Option<Fronts>,
    hints: &[BranchHint],
) -> Result<Option<Items<BranchHint>>, AllocError>
    requires { IfSome known.old (AreFronts body.now) }
    ensures known { IfSome known.new (AreFronts body.now) }
    ensures moves { IfOk result (λ found. IfSome found (λ moved. Each (MovesHint body.now) hints.now moved)) }
    ensures none { IfOk result (λ found. IfNone found ((moved : List BranchHint) → Each (MovesHint body.now) hints.now moved → ⊥)) }
{
    if hints.is_empty() {
        return Ok(Some(Items::from(Vec::new(alloc))));
    }
    let Some(mut fronts) = take_fronts(alloc, body, known)? else {
        return Ok(None);
    };
    let moved = hints_after(alloc, body, &mut fronts, hints)?;
    *known = Some(fronts);
    Ok(moved)
}

/// Takes the known fronts of a body, which are its locals at first. `None` means that these are malformed. Fails if memory
/// runs out.
fn take_fronts(
    alloc: Global,
    body: &[u8],
    known: &mut Option<Fronts>,
) -> Result<Option<Fronts>, AllocError>
    requires { IfSome known.old (AreFronts body.now) }
    ensures taken { known.new ≡ None }
    ensures fronts { IfOk result (λ found. IfSome found (AreFronts body.now)) }
    ensures none { IfOk result (λ found. IfNone found ((offset : ℕ) → NoInstructionAt body.now offset)) }
{
    if let Some(fronts) = known.take() {
        return Ok(Some(fronts));
    }
    match locals_of(alloc, body)? {
        Some(locals) => Ok(Some(Fronts {
            locals,
            last: locals,
            checkpoints: Vec::new(alloc),
        })),
        None => Ok(None),
    }
}

/// Returns hints for the same instructions of a body, once the body is minimally encoded. Begins after the nearest front.
///
/// `None` means that no instruction begins at one of the offsets. Fails if memory runs out.
fn hints_after(
    alloc: Global,
    body: &[u8],
    fronts: &mut Fronts,
    hints: &[BranchHint],
) -> Result<Option<Items<BranchHint>>, AllocError>
    requires { AreFronts body.now fronts.old }
    ensures moves { IfOk result (λ found. IfSome found (λ moved. Each (MovesHint body.now) hints.now moved)) }
    ensures none { IfOk result (λ found. IfNone found ((moved : List BranchHint) → Each (MovesHint body.now) hints.now moved → ⊥)) }
    ensures fronts { AreFronts body.now fronts.new }
{
    let mut moved = Vec::with_capacity(alloc, hints.len())?;
    for hint in hints {
        let Some(front) = fronts.up_to(alloc, body, hint.branch_func_offset)? else {
            return Ok(None);
        };
        let Ok(branch_func_offset) = u32::try_from(front.minimal) else {
            return Ok(None);
        };
        moved.push(BranchHint {
            branch_func_offset,
            likely: hint.likely,
        })?;
    }
    Ok(Some(Items::from(moved)))
}

/// Returns the locals of a body. `None` means that they are malformed. Fails if memory runs out.
fn locals_of(alloc: Global, body: &[u8]) -> Result<Option<Front>, AllocError>
    ensures locals { IfOk result (λ found. IfSome found (AreLocals body.now)) }
    ensures none { IfOk result (λ found. IfNone found ((offset : ℕ) → NoInstructionAt body.now offset)) }
{
    let mut copy = Vec::from_slice(alloc, body)?;
    let mut rewriter = Rewriter::new(copy.as_mut_slice());
    rewriter.are_bytes();
    match rewrite_locals(&mut rewriter) {
        Ok(()) => Ok(Some(Front {
            len: body.len() - rewriter.len(),
            minimal: rewriter.written_len(),
        })),
        Err(_) => Ok(None),
    }
}

/// Returns fronts of a body in ascending order. The first is the locals. Each other one ends at the first instruction
/// that begins at least 256 bytes after the one before.
///
/// The list ends before a malformed instruction. Fails if memory runs out.
fn checkpoints_of(alloc: Global, body: &[u8], locals: Front) -> Result<Vec<Front>, AllocError>
    requires { IsFront body.now locals }
    ensures { IfOk result (λ checkpoints. All (IsFront body.now) checkpoints.items) }
{
    let mut checkpoints = Vec::from_slice(alloc, &[locals])?;
    let mut last = locals;
    for next in ItemReader::<Call>::to_end_at(alloc, &body[locals.len..], locals.len, false) {
        let Some(offset) = offset_of(next)? else {
            return Ok(checkpoints);
        };
        if offset.saturating_sub(last.len) >= CHECKPOINT_DISTANCE {
            let Some(front) = longer_front(alloc, body, last, offset)? else {
                return Ok(checkpoints);
            };
            checkpoints.push(front)?;
            last = front;
        }
    }
    Ok(checkpoints)
}

/// Returns the offset of an instruction that was read. `None` means that it is malformed. Fails if memory ran out.
fn offset_of(next: Result<(usize, Call), DecodeError>) -> Result<Option<usize>, AllocError> {
    match next {
        Ok((offset, _)) => Ok(Some(offset)),
        Err(DecodeError::Malformed(_)) => Ok(None),
        Err(DecodeError::Memory) => Err(AllocError),
    }
}

/// Returns the last checkpoint that ends at `offset` or before it. Returns `front` if there is none, or if `front` ends
/// between them.
fn nearest_front(checkpoints: &[Front], front: Front, offset: u32) -> Front
    ensures { (body : List ℕ) → IsFront body front → All (IsFront body) checkpoints.now → IsFront body result }
{
    let len = offset as usize;
    let count = checkpoints.partition_point(|checkpoint| checkpoint.len <= len);
    match checkpoints[..count].last() {
        Some(checkpoint) if front.len > len || front.len < checkpoint.len => *checkpoint,
        _ => front,
    }
}

/// Returns the bytes up to `offset`, which go on after `front`, or after the locals if `offset` is before the end of
/// `front`.
///
/// `None` means that no instruction begins at `offset`. Fails if memory runs out.
fn front_up_to(
    alloc: Global,
    body: &[u8],
    locals: Front,
    front: Front,
    offset: u32,
) -> Result<Option<Front>, AllocError>
    requires locals { AreLocals body.now locals }
    requires front { IsFront body.now front }
    ensures front { IfOk result (λ found. IfSome found (IsFrontUpTo body.now offset)) }
    ensures none { IfOk result (λ found. IfNone found (NoInstructionAt body.now offset)) }
{
    if (offset as usize) < front.len {
        return longer_front(alloc, body, locals, offset as usize);
    }
    longer_front(alloc, body, front, offset as usize)
}

/// Returns the first `len` bytes, which go on after `front`.
///
/// `None` means that no instruction begins after them, or that `front` is longer. Fails if memory runs out.
fn longer_front(
    alloc: Global,
    body: &[u8],
    front: Front,
    len: usize,
) -> Result<Option<Front>, AllocError>
    requires { IsFront body.now front }
    ensures front { IfOk result (λ found. IfSome found (IsFrontUpTo body.now len)) }
    ensures none { IfOk result (λ found. IfNone found (front.len ≤ len → NoInstructionAt body.now len)) }
{
    if len < front.len || len >= body.len() {
        return Ok(None);
    }
    match normalise_instructions(alloc, &body[front.len..len]) {
        Ok(instructions) => Ok(Some(Front {
            len,
            minimal: front.minimal + instructions.len(),
        })),
        Err(ReadError::Refused { .. }) => Ok(None),
        Err(ReadError::Memory) => Err(AllocError),
    }
}
