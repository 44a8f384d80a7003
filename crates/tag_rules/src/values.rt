//! Reading a tag's numbers by the tag's rule. An entry is looked up once, and its numbers are read in place.

ghost use Rattle.std.specs.Prelude.{◌≡◌, ℕ, ◌*◌, ◌≤◌, ◌<◌, ℤ, pos, length, slice_index, slice_index_or, unwrap_or, []};
ghost use Rattle.std.specs.Prelude.{IfOk, IsTrue, Ok};
ghost use Rattle.tiff_dirs.specs.Header.{order_of};
ghost use Rattle.tiff_dirs.specs.Kinds.{size_of};
ghost use Rattle.tiff_dirs.specs.Numbers.{IsOf32Bits};
ghost use Rattle.tiff_dirs.specs.Seen.{IfFound, field_seen, seen};
ghost use Rattle.text_line.specs.Chain.{and_then};
ghost use Rattle.tag_rules.specs.Answers.{Answers};
ghost use Rattle.tag_rules.specs.declared.tags.Home.TheVariants.{Raw};
ghost use Rattle.tag_rules.specs.declared.tags.Kinds.TheVariants.{Short};
ghost use Rattle.tag_rules.specs.Tags.{allows, are_fractions, are_whole, rule_of};
ghost use Rattle.tag_rules.specs.Values.{field_at, fractions_at, fractions_of, number_of, number_or};
ghost use Rattle.tag_rules.specs.Values.{numbers_at, numbers_in, numbers_of, required_number_of, required_numbers_of};

use crate::faults::FrameFault;
use crate::tags::{Home, Tag};
use lists::Items;
use std::alloc::Global;
use std::marker::Model;
use tiff_dirs::{Dir, Entry, EntryFault, Order, Tiff};

/// The whole numbers of a tag's entry. Contracts see the list of them.
#[derive(Drop)]
pub struct Whole<'a> {
    tiff: &'a Tiff<'a>,
    entry: Entry<'a>,
}

impl<'a> Model for Whole<'a> {
    ghost use Rattle.std.specs.Prelude.{◌≡◌, ℕ, ◌*◌, List, length, IsTrue};
    ghost use Rattle.tiff_dirs.specs.Header.{order_of};
    ghost use Rattle.tiff_dirs.specs.Kinds.{is_whole, size_of};
    ghost use Rattle.tiff_dirs.specs.Seen.{field_seen};
    ghost use Rattle.tag_rules.specs.Values.{numbers_in};

    ghost Value = { List ℕ };

    ghost view = { λ w. numbers_in (order_of w.tiff.now) (field_seen w.entry) };

    ghost invariant = { λ w. IsTrue (is_whole w.entry.kind)
        × (length w.entry.value.now ≡ w.entry.count * size_of w.entry.kind) };
}

impl<'a> Whole<'a> {
    /// How many numbers there are.
    pub fn len(&self) -> u32
        ensures { result ≡ length self.now }
    {
        self.entry.count
    }

    /// Number `i`, counted from 0.
    pub fn at(&self, i: u32) -> u32
        requires { i < length self.now }
        ensures { result ≡ slice_index self.now i }
    {
        self.tiff.number(&self.entry, i)
    }
}

/// The numbers of a tag's entry as fractions. Contracts see the list of them, each as numerator and denominator.
#[derive(Drop)]
pub struct Fractions<'a> {
    tiff: &'a Tiff<'a>,
    entry: Entry<'a>,
}

impl<'a> Model for Fractions<'a> {
    ghost use Rattle.std.specs.Prelude.{◌≡◌, ℤ, ◌*◌, List, length, IsTrue};
    ghost use Rattle.tiff_dirs.specs.Header.{order_of};
    ghost use Rattle.tiff_dirs.specs.Kinds.{is_fraction, size_of};
    ghost use Rattle.tiff_dirs.specs.Seen.{field_seen};
    ghost use Rattle.tag_rules.specs.Values.{fractions_in};

    ghost Value = { List (ℤ × ℤ) };

    ghost view = { λ f. fractions_in (order_of f.tiff.now) (field_seen f.entry) };

    ghost invariant = { λ f. IsTrue (is_fraction f.entry.kind)
        × (length f.entry.value.now ≡ f.entry.count * size_of f.entry.kind) };
}

impl<'a> Fractions<'a> {
    /// How many numbers there are.
    pub fn len(&self) -> u32
        ensures { result ≡ length self.now }
    {
        self.entry.count
    }

    /// Number `i`, counted from 0, as numerator and denominator.
    pub fn at(&self, i: u32) -> (i64, i64)
        requires { i < length self.now }
        ensures value { result ≡ slice_index_or self.now i (pos 0, pos 0) }
        ensures numerator { IsOf32Bits result.0 }
        ensures denominator { IsOf32Bits result.1 }
    {
        self.tiff.rational(&self.entry, i)
    }
}

/// The entry of a tag in a directory, by the tag's rule, if there is one.
#[tactic(auto, unfolding(crate::specs::Values::field_at))]
pub(crate) fn field_in<'a>(
    tiff: &'a Tiff<'a>,
    dir: &Dir<'_>,
    tag: Tag,
) -> Result<Option<Entry<'a>>, FrameFault>
    ensures answer { seen result ≡ field_at tiff.now dir.now tag }
    ensures whole { IfFound result (λ e. length e.value.now ≡ e.count * size_of e.kind) }
    ensures kind { IfFound result (λ e. IsTrue (allows (rule_of tag).kinds e.kind)) }
    ensures counts { IfFound result (λ e. ((rule_of tag).fewest ≤ e.count) × (e.count ≤ (rule_of tag).most)) }
{
    let rule = tag.rule();
    let entry = match tiff.find(dir, rule.number) {
        Ok(Some(entry)) => entry,
        Ok(None) => return Ok(None),
        Err(EntryFault::FloatTag { tag }) => return Err(FrameFault::FloatTag { tag }),
        Err(EntryFault::BadEntry { tag }) => return Err(FrameFault::BadEntry { tag }),
    };
    if !rule.kinds.allow(entry.kind) {
        return Err(FrameFault::BadEntry { tag: rule.number });
    }
    if entry.count < rule.fewest || rule.most < entry.count {
        return Err(rule.miscounted);
    }
    Ok(Some(entry))
}

/// The whole numbers under a tag in a directory, if the tag is there.
///
/// # Errors
///
/// `FloatTag` and `BadEntry` of the tag, and the rule's own refusal where its entry has a count that isn't allowed.
#[tactic(auto, using(crate::proofs::ValuesLemmas::length_numbers_in), unfolding(crate::specs::Values::numbers_at))]
pub fn whole_in<'a>(
    tiff: &'a Tiff<'a>,
    dir: &Dir<'_>,
    tag: Tag,
) -> Result<Option<Whole<'a>>, FrameFault>
    requires { IsTrue (are_whole (rule_of tag).kinds) }
    ensures answer { result ≡ numbers_at tiff.now dir.now tag }
    ensures counts { IfFound result (λ xs. ((rule_of tag).fewest ≤ length xs) × (length xs ≤ (rule_of tag).most)) }
{
    match field_in(tiff, dir, tag)? {
        Some(entry) => Ok(Some(Whole { tiff, entry })),
        None => Ok(None),
    }
}

/// The fractions under a tag in a directory, if the tag is there.
#[tactic(auto, using(crate::proofs::ValuesLemmas::length_fractions_in), unfolding(crate::specs::Values::fractions_at))]
fn fractions_in<'a>(
    tiff: &'a Tiff<'a>,
    dir: &Dir<'_>,
    tag: Tag,
) -> Result<Option<Fractions<'a>>, FrameFault>
    requires { IsTrue (are_fractions (rule_of tag).kinds) }
    ensures answer { result ≡ fractions_at tiff.now dir.now tag }
    ensures counts { IfFound result (λ xs. ((rule_of tag).fewest ≤ length xs) × (length xs ≤ (rule_of tag).most)) }
{
    match field_in(tiff, dir, tag)? {
        Some(entry) => Ok(Some(Fractions { tiff, entry })),
        None => Ok(None),
    }
}

/// A file, and the directory of its raw image.
#[derive(Drop)]
pub struct Directories<'a> {
    pub(crate) tiff: &'a Tiff<'a>,
    pub(crate) raw: Dir<'a>,
}

impl<'a> Model for Directories<'a> {
    ghost use Rattle.tag_rules.specs.Values.{Dirs};

    ghost Value = { Dirs };

    ghost view = { λ d. record { bytes = d.tiff.now; raw = d.raw } };
}

impl<'a> Directories<'a> {
    /// A file with the directory of its raw image.
    pub fn new(tiff: &'a Tiff<'a>, raw: Dir<'a>) -> Directories<'a>
        ensures { result ≡ record { bytes = tiff.now; raw = raw.entry } }
    {
        Directories { tiff, raw }
    }

    /// The whole numbers under a tag in its directory, if the tag is there.
    ///
    /// # Errors
    ///
    /// Those of [`whole_in`].
    #[tactic(auto, unfolding(crate::specs::Values::numbers_of))]
    pub fn whole(&self, tag: Tag) -> Result<Option<Whole<'a>>, FrameFault>
        requires { IsTrue (are_whole (rule_of tag).kinds) }
        ensures answer { result ≡ numbers_of self.now tag }
        ensures counts { IfFound result (λ xs. ((rule_of tag).fewest ≤ length xs) × (length xs ≤ (rule_of tag).most)) }
    {
        match tag.rule().home {
            Home::Main => whole_in(self.tiff, &self.tiff.first(), tag),
            Home::Raw => whole_in(self.tiff, &self.raw, tag),
        }
    }

    /// The first of the whole numbers under a tag in its directory, if the tag is there.
    ///
    /// # Errors
    ///
    /// Those of [`whole_in`].
    #[tactic(auto, unfolding(crate::specs::Values::number_of))]
    pub fn number(&self, tag: Tag) -> Result<Option<u32>, FrameFault>
        requires whole { IsTrue (are_whole (rule_of tag).kinds) }
        requires some { 1 ≤ (rule_of tag).fewest }
        ensures { result ≡ number_of self.now tag }
    {
        match self.whole(tag)? {
            Some(numbers) => Ok(Some(numbers.at(0))),
            None => Ok(None),
        }
    }

    /// The number of a tag that has to be there.
    ///
    /// # Errors
    ///
    /// Those of [`whole_in`], and `BadEntry` where the tag isn't there.
    #[tactic(auto, unfolding(crate::specs::Values::required_number_of))]
    pub fn required_number(&self, tag: Tag) -> Result<u32, FrameFault>
        requires whole { IsTrue (are_whole (rule_of tag).kinds) }
        requires some { 1 ≤ (rule_of tag).fewest }
        ensures { result ≡ required_number_of self.now tag }
    {
        match self.number(tag)? {
            Some(number) => Ok(number),
            None => Err(FrameFault::BadEntry {
                tag: tag.rule().number,
            }),
        }
    }

    /// The numbers of a tag that has to be there.
    ///
    /// # Errors
    ///
    /// Those of [`whole_in`], and `BadEntry` where the tag isn't there.
    #[tactic(auto, unfolding(crate::specs::Values::required_numbers_of))]
    pub fn required_whole(&self, tag: Tag) -> Result<Whole<'a>, FrameFault>
        requires { IsTrue (are_whole (rule_of tag).kinds) }
        ensures answer { result ≡ required_numbers_of self.now tag }
        ensures counts { IfOk result (λ xs. ((rule_of tag).fewest ≤ length xs) × (length xs ≤ (rule_of tag).most)) }
    {
        match self.whole(tag)? {
            Some(numbers) => Ok(numbers),
            None => Err(FrameFault::BadEntry {
                tag: tag.rule().number,
            }),
        }
    }

    /// The number of a tag, or its default.
    ///
    /// # Errors
    ///
    /// Those of [`whole_in`].
    #[tactic(auto, unfolding(crate::specs::Values::number_or))]
    pub fn number_or(&self, tag: Tag, default: u32) -> Result<u32, FrameFault>
        requires whole { IsTrue (are_whole (rule_of tag).kinds) }
        requires some { 1 ≤ (rule_of tag).fewest }
        ensures { result ≡ number_or self.now tag default }
    {
        Ok(self.number(tag)?.unwrap_or(default))
    }

    /// The fractions under a tag in its directory, if the tag is there.
    ///
    /// # Errors
    ///
    /// Those of [`whole_in`].
    #[tactic(auto, unfolding(crate::specs::Values::fractions_of))]
    pub fn fractions(&self, tag: Tag) -> Result<Option<Fractions<'a>>, FrameFault>
        requires { IsTrue (are_fractions (rule_of tag).kinds) }
        ensures answer { result ≡ fractions_of self.now tag }
        ensures counts { IfFound result (λ xs. ((rule_of tag).fewest ≤ length xs) × (length xs ≤ (rule_of tag).most)) }
    {
        match tag.rule().home {
            Home::Main => fractions_in(self.tiff, &self.tiff.first(), tag),
            Home::Raw => fractions_in(self.tiff, &self.raw, tag),
        }
    }

    /// The file's byte order.
    pub fn order(&self) -> Order
        ensures { result ≡ order_of self.now.bytes }
    {
        self.tiff.order()
    }

    /// How many bytes the file has.
    pub fn file_len(&self) -> u64
        ensures { result ≡ length self.now.bytes }
    {
        self.tiff.bytes().len() as u64
    }

    /// The numbers under a tag of 16-bit numbers; none where the tag is absent.
    ///
    /// # Errors
    ///
    /// `Memory`, and what reading the tag is refused for.
    #[tactic(auto, unfolding(crate::specs::Values::numbers_of, crate::specs::Values::numbers_at))]
    pub fn shorts(&self, alloc: Global, tag: Tag) -> Result<Items<u16>, FrameFault>
        requires kinds { (rule_of tag).kinds ≡ Short }
        requires home { (rule_of tag).home ≡ Raw }
        ensures answer { Answers result (and_then (numbers_of self.now tag) (λ found. Ok (unwrap_or found []))) }
        ensures most { IfOk result (λ numbers. length numbers ≤ (rule_of tag).most) }
    {
        match field_in(self.tiff, &self.raw, tag)? {
            Some(entry) => copied(alloc, self.tiff, &entry),
            None => Ok(Items::from_vec(Vec::new(alloc))),
        }
    }
}

/// The numbers of an entry of 16-bit numbers.
#[tactic(auto, using(crate::proofs::ValuesLemmas::numbers_more), unfolding(crate::specs::Values::numbers_in))]
fn copied<'a>(
    alloc: Global,
    tiff: &'a Tiff<'a>,
    entry: &Entry<'a>,
) -> Result<Items<u16>, FrameFault>
    requires short { entry.now.kind ≡ 3 }
    requires whole { length entry.now.value.now ≡ entry.now.count * size_of entry.now.kind }
    ensures answer { Answers result (Ok (numbers_in (order_of tiff.now) (field_seen entry.now))) }
    ensures count { IfOk result (λ numbers. length numbers ≡ entry.now.count) }
{
    let mut numbers = Vec::new(alloc);
    for i in 0..entry.count {
        if numbers.push(tiff.number(entry, i) as u16).is_err() {
            return Err(FrameFault::Memory);
        }
    }
    Ok(Items::from_vec(numbers))
}
