//! The opcode lists of a frame.

ghost use Rattle.std.specs.Prelude.{◌≡◌, ◌≤◌, All, IfOk, length};
ghost use Rattle.opcode_list.specs.Params.{CanRunIn};
ghost use Rattle.tag_rules.specs.Answers.{Answers};
ghost use Rattle.tag_rules.specs.Opcodes.{list_tag, opcodes_under, taken};
ghost use Rattle.opcode_list.specs.Lists.{opcodes_of};

use crate::faults::FrameFault;
use crate::tags::Tag;
use crate::values::{Directories, field_in};
use lists::Items;
use opcode_list::{Opcode, OpcodeFault, read_list};
use std::alloc::Global;

/// The tag of an opcode list.
fn list_tag(list: u8) -> Tag
    ensures { result ≡ list_tag list }
{
    match list {
        1 => Tag::OpcodeList1,
        2 => Tag::OpcodeList2,
        _ => Tag::OpcodeList3,
    }
}

impl Directories<'_> {
    /// The opcodes of list 1, 2 or 3; none where the raw image's directory hasn't the list.
    ///
    /// # Errors
    ///
    /// `Opcode`, what reading the tag is refused for, and `Memory` where the list is out of memory.
    #[tactic(auto, unfolding(crate::specs::Opcodes::opcodes_under))]
    pub fn opcodes(&self, alloc: Global, list: u8) -> Result<Items<Opcode>, FrameFault>
        requires low { 1 ≤ list }
        requires high { list ≤ 3 }
        ensures answer { Answers result (opcodes_under self.now list) }
        ensures can_run { IfOk result (All (CanRunIn list)) }
        ensures count { IfOk result (λ opcodes. length opcodes ≤ 16) }
    {
        match field_in(self.tiff, &self.raw, list_tag(list))? {
            Some(entry) => taken(alloc, entry.value, list),
            None => Ok(Items::from_vec(Vec::new(alloc))),
        }
    }
}

/// The opcodes of a list that is there.
fn taken(alloc: Global, bytes: &[u8], list: u8) -> Result<Items<Opcode>, FrameFault>
    requires low { 1 ≤ list }
    requires high { list ≤ 3 }
    ensures answer { Answers result (taken list (opcodes_of list bytes.now)) }
    ensures can_run { IfOk result (All (CanRunIn list)) }
    ensures count { IfOk result (λ opcodes. length opcodes ≤ 16) }
{
    match read_list(alloc, bytes, list) {
        Ok(opcodes) => Ok(opcodes),
        Err(OpcodeFault::Memory) => Err(FrameFault::Memory),
        Err(fault) => Err(FrameFault::Opcode { list, fault }),
    }
}
