//! An opcode list: its opcodes one after the other, or the first refusal.

ghost use Rattle.std.specs.Prelude.{◌≡◌, ◌+◌, ◌≤◌, All, IfOk, IfSome, None, drop, length};
ghost use Rattle.std.specs.Option.{option_map};
ghost use Rattle.opcode_list.specs.Cuts.{cut_opcodes, first_opcode};
ghost use Rattle.opcode_list.specs.Lists.{Answers, barred_by, is_optional, opcode_of, opcodes_from, opcodes_of};
ghost use Rattle.opcode_list.specs.Params.{CanRunIn};
ghost use Rattle.opcode_list.specs.inner.Seen.{raw_seen};

use crate::opcode::{Opcode, OpcodeFault};
use crate::params::{FIX_BAD_PIXELS_CONSTANT, FIX_BAD_PIXELS_LIST, MAP_TABLE, long, opcode_with};
use lists::Items;
use std::alloc::Global;

/// The most opcodes of a list.
const MAX_OPCODES: u32 = 16;

/// The bytes of an opcode before its parameters.
const HEAD_LEN: usize = 16;

/// The list in which bad pixels aren't mended, since its plane is demosaiced.
const DEMOSAICED: u8 = 3;

/// An opcode as it stands in the bytes.
#[derive(Clone, Copy)]
struct RawOpcode<'a> {
    id: u32,
    /// The first two bytes of the DNG version that it came with.
    major: u8,
    minor: u8,
    flags: u32,
    params: &'a [u8],
}

/// The first opcode of the bytes, if it doesn't pass their end, and the bytes behind it.
#[tactic(auto, unfolding(crate::specs::Cuts::first_opcode))]
fn first_opcode(bytes: &[u8]) -> Option<(RawOpcode<'_>, &[u8])>
    ensures opcode { option_map (λ cut. raw_seen cut.0) result ≡ first_opcode bytes.now }
    ensures rest { IfSome result (λ cut. cut.1.now ≡ drop (16 + length cut.0.params.now) bytes.now) }
{
    if bytes.len() < HEAD_LEN {
        return None;
    }
    let end = HEAD_LEN + long(bytes, 12) as usize;
    if bytes.len() < end {
        return None;
    }
    let raw = RawOpcode {
        id: long(bytes, 0),
        major: bytes[4],
        minor: bytes[5],
        flags: long(bytes, 8),
        params: &bytes[HEAD_LEN..end],
    };
    Some((raw, &bytes[end..]))
}

impl RawOpcode<'_> {
    /// Whether it may be passed over.
    fn is_optional(&self) -> bool
        ensures { result ≡ is_optional self.now.flags }
    {
        self.flags & 1 == 1
    }

    /// Why it can't be run, whatever its parameters.
    #[tactic(auto, unfolding(crate::specs::Lists::barred_by))]
    fn barred_by(&self, list: u8, index: u32) -> Option<OpcodeFault>
        ensures fault { result ≡ barred_by list index (raw_seen self.now) }
        ensures mends { list ≤ 3 → result ≡ None → self.now.id ≤ 5 → list ≤ 2 }
    {
        let id = self.id;
        if self.major > 1 || self.major == 1 && self.minor > 6 {
            Some(OpcodeFault::Newer { index, id })
        } else if !(FIX_BAD_PIXELS_CONSTANT..=MAP_TABLE).contains(&id) {
            Some(OpcodeFault::Unknown { index, id })
        } else if list == DEMOSAICED && id <= FIX_BAD_PIXELS_LIST {
            Some(OpcodeFault::NotHere { index, id })
        } else {
            None
        }
    }

    /// The opcode, by its index in the list.
    #[tactic(auto, using(crate::proofs::TrimLemmas::may_stand), unfolding(crate::specs::Lists::opcode_of))]
    fn read(&self, alloc: Global, list: u8, index: u32) -> Result<Opcode, OpcodeFault>
        requires { list ≤ 3 }
        ensures answer { Answers result (opcode_of list index (raw_seen self.now)) }
        ensures can_run { IfOk result (CanRunIn list) }
    {
        let id = self.id;
        match self.barred_by(list, index) {
            Some(_) if self.is_optional() => Ok(Opcode::Skipped { id }),
            Some(fault) => Err(fault),
            None => match opcode_with(alloc, id, self.params)? {
                Some(opcode) => Ok(opcode),
                None => Err(OpcodeFault::BadParams { index, id }),
            },
        }
    }
}

/// The opcodes of list 1, 2 or 3, whose bytes are the value of the tag OpcodeList1, 2 or 3. No memory is taken for more
/// than the bytes hold.
///
/// # Errors
///
/// The first refusal, by the opcodes' indices; `Memory` where there is no memory for the opcodes.
#[tactic(auto, unfolding(crate::specs::Lists::opcodes_of))]
pub fn read_list(alloc: Global, bytes: &[u8], list: u8) -> Result<Items<Opcode>, OpcodeFault>
    requires low { 1 ≤ list }
    requires high { list ≤ 3 }
    ensures answer { Answers result (opcodes_of list bytes.now) }
    ensures can_run { IfOk result (All (CanRunIn list)) }
    ensures count { IfOk result (λ opcodes. length opcodes ≤ 16) }
{
    if bytes.len() < 4 {
        return Err(OpcodeFault::Truncated { index: 0 });
    }
    let count = long(bytes, 0);
    if count > MAX_OPCODES {
        return Err(OpcodeFault::TooMany);
    }
    read_opcodes(alloc, &bytes[4..], list, count)
}

/// So many opcodes, which begin the bytes.
fn read_opcodes(
    alloc: Global,
    bytes: &[u8],
    list: u8,
    count: u32,
) -> Result<Items<Opcode>, OpcodeFault>
    requires { list ≤ 3 }
    ensures answer { Answers result (opcodes_from list 0 (cut_opcodes count bytes.now)) }
    ensures can_run { IfOk result (All (CanRunIn list)) }
    ensures count { IfOk result (λ opcodes. length opcodes ≤ count) }
{
    let mut opcodes = Vec::new(alloc);
    let mut rest = bytes;
    for index in 0..count {
        let Some((raw, behind)) = first_opcode(rest) else {
            return Err(OpcodeFault::Truncated { index });
        };
        let opcode = raw.read(alloc, list, index)?;
        if opcodes.push(opcode).is_err() {
            return Err(OpcodeFault::Memory);
        }
        rest = behind;
    }
    Ok(Items::from_vec(opcodes))
}
