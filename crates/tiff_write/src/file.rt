//! The bytes of a file.

ghost use Rattle.std.specs.Prelude.{◌≡◌, ◌+◌, ◌*◌, ◌++◌, length, IfOk, OnOk, ◌≤◌, replicate, sum_by};
ghost use Rattle.std.specs.List.{flat_map};
ghost use Rattle.tiff_write.specs.Fields.{number_bytes, offset_of, value_bytes, value_size};
ghost use Rattle.tiff_write.specs.Files.{directories_bytes, directory_bytes, directory_size};
ghost use Rattle.tiff_write.specs.Files.{entries_bytes, entry_bytes};
ghost use Rattle.tiff_write.specs.Files.{far_bytes, far_size, file_bytes, header_bytes, layout_of, slot_bytes};

use crate::field::{Field, Place, Value};
use lists::Items;
use std::alloc::{AllocError, Global};
use tiff_dirs::Order;

/// The offsets in the file at which the directories begin, and the one of the data.
#[derive(Drop)]
struct Layout {
    directories: Items<u32>,
    data_offset: u32,
}

/// The header of a file whose directory 0 stands at 8.
#[tactic(auto, unfolding(crate::specs::Files::header_bytes))]
fn header(order: Order) -> [u8; 8]
    ensures { result ≡ header_bytes order }
{
    match order {
        Order::Little => *b"II*\0\x08\0\0\0",
        Order::Big => *b"MM\0*\0\0\0\x08",
    }
}

/// The bytes of a 16-bit number.
fn short_bytes(order: Order, number: u16) -> [u8; 2]
    ensures { result ≡ number_bytes order 2 number }
{
    match order {
        Order::Little => number.to_le_bytes(),
        Order::Big => number.to_be_bytes(),
    }
}

/// The bytes of a 32-bit number.
fn long_bytes(order: Order, number: u32) -> [u8; 4]
    ensures { result ≡ number_bytes order 4 number }
{
    match order {
        Order::Little => number.to_le_bytes(),
        Order::Big => number.to_be_bytes(),
    }
}

fn append_shorts(order: Order, numbers: &[u16], out: &mut Vec<u8>) -> Result<(), AllocError>
    ensures { OnOk result (out.new.items ≡ out.old.items ++ flat_map (number_bytes order 2) numbers.now) }
{
    for number in numbers {
        out.extend_from_slice(&short_bytes(order, *number))?;
    }
    Ok(())
}

fn append_longs(order: Order, numbers: &[u32], out: &mut Vec<u8>) -> Result<(), AllocError>
    ensures { OnOk result (out.new.items ≡ out.old.items ++ flat_map (number_bytes order 4) numbers.now) }
{
    for number in numbers {
        out.extend_from_slice(&long_bytes(order, *number))?;
    }
    Ok(())
}

impl Layout {
    /// The offset of a place; `AllocError` where 32 bits can't hold it.
    fn offset(&self, place: Place) -> Result<u32, AllocError>
        ensures { IfOk result (λ at. at ≡ offset_of self.now place) }
    {
        match place {
            Place::File(at) => Ok(at),
            Place::Data(at) => self.data_offset.checked_add(at).ok_or(AllocError),
            Place::Directory(index) => Ok(self.directories.get(index).copied().unwrap_or(0)),
        }
    }

    fn append_places(
        &self,
        order: Order,
        places: &[Place],
        out: &mut Vec<u8>,
    ) -> Result<(), AllocError>
        ensures { OnOk result (out.new.items ≡ out.old.items
            ++ flat_map (λ place. number_bytes order 4 (offset_of self.now place)) places.now) }
    {
        for place in places {
            let at = self.offset(*place)?;
            out.extend_from_slice(&long_bytes(order, at))?;
        }
        Ok(())
    }

    #[tactic(auto, unfolding(crate::specs::Fields::value_bytes))]
    fn append_value(&self, order: Order, value: &Value, out: &mut Vec<u8>) -> Result<(), AllocError>
        ensures { OnOk result (out.new.items ≡ out.old.items ++ value_bytes order self.now value.now) }
    {
        match value {
            Value::Bytes(bytes) => out.extend_from_slice(bytes.as_slice()),
            Value::Shorts(numbers) => append_shorts(order, numbers.as_slice(), out),
            Value::Longs(numbers) => append_longs(order, numbers.as_slice(), out),
            Value::Places(places) => self.append_places(order, places.as_slice(), out),
        }
    }
}

/// How many bytes a value has; `AllocError` where 32 bits can't hold that number.
#[tactic(auto, unfolding(crate::specs::Fields::value_size))]
fn value_size(value: &Value) -> Result<u32, AllocError>
    ensures { IfOk result (λ size. size ≡ value_size value.now) }
{
    match value {
        Value::Bytes(bytes) => bytes_of(1, bytes.len()),
        Value::Shorts(numbers) => bytes_of(2, numbers.len()),
        Value::Longs(numbers) => bytes_of(4, numbers.len()),
        Value::Places(places) => bytes_of(4, places.len()),
    }
}

/// How many bytes so many numbers of a size have; `AllocError` where 32 bits can't hold that number.
fn bytes_of(size: u32, count: usize) -> Result<u32, AllocError>
    ensures { IfOk result (λ bytes. bytes ≡ size * count) }
{
    let count = u32::try_from(count).map_err(|_| AllocError)?;
    size.checked_mul(count).ok_or(AllocError)
}

/// The offset that is so many bytes behind another; `AllocError` where 32 bits can't hold it.
fn offset_after(at: u32, size: u32) -> Result<u32, AllocError>
    ensures { IfOk result (λ next. next ≡ at + size) }
{
    at.checked_add(size).ok_or(AllocError)
}

/// How many bytes of an entry's value stand behind the directory.
#[tactic(auto, unfolding(crate::specs::Files::far_size))]
fn far_size(field: &Field) -> Result<u32, AllocError>
    ensures { IfOk result (λ size. size ≡ far_size field.now) }
{
    let size = value_size(&field.value)?;
    Ok(if size <= 4 { 0 } else { size })
}

/// How many bytes a directory and the values behind it have.
#[tactic(auto, unfolding(crate::specs::Files::directory_size))]
fn directory_size(fields: &[Field]) -> Result<u32, AllocError>
    ensures { IfOk result (λ size. size ≡ directory_size fields.now) }
{
    let mut size = offset_after(6, bytes_of(12, fields.len())?)?;
    for field in fields {
        size = offset_after(size, far_size(field)?)?;
    }
    Ok(size)
}

/// Where directories begin that stand one after the other, and where the data does.
#[tactic(auto, unfolding(crate::specs::Files::directory_offsets))]
fn layout_of(alloc: Global, directories: &[Items<Field>]) -> Result<Layout, AllocError>
    ensures { IfOk result (λ layout. layout ≡ layout_of directories.now) }
{
    let mut offsets = Vec::new(alloc);
    let mut at = 8;
    for fields in directories {
        offsets.push(at)?;
        at = offset_after(at, directory_size(fields.as_slice())?)?;
    }
    Ok(Layout {
        directories: Items::from_vec(offsets),
        data_offset: at,
    })
}

/// Appends so many zeros, at most four.
fn append_zeros(count: u32, out: &mut Vec<u8>) -> Result<(), AllocError>
    requires { count ≤ 4 }
    ensures { OnOk result (out.new.items ≡ out.old.items ++ replicate count 0) }
{
    out.extend_from_slice(&[0; 4][..count as usize])
}

impl Layout {
    /// Appends an entry, whose value stands at an offset where it has more than four bytes.
    #[tactic(auto, unfolding(crate::specs::Files::entry_bytes))]
    fn append_entry(
        &self,
        order: Order,
        field: &Field,
        at: u32,
        out: &mut Vec<u8>,
    ) -> Result<(), AllocError>
        ensures { OnOk result (out.new.items ≡ out.old.items ++ entry_bytes order self.now at field.now) }
    {
        out.extend_from_slice(&short_bytes(order, field.tag))?;
        out.extend_from_slice(&short_bytes(order, field.kind))?;
        out.extend_from_slice(&long_bytes(order, field.count))?;
        self.append_slot(order, &field.value, at, out)
    }

    /// Appends the last four bytes of an entry: the offset of a value of more than four bytes, else the value.
    #[tactic(auto, unfolding(crate::specs::Files::slot_bytes))]
    fn append_slot(
        &self,
        order: Order,
        value: &Value,
        at: u32,
        out: &mut Vec<u8>,
    ) -> Result<(), AllocError>
        ensures { OnOk result (out.new.items ≡ out.old.items ++ slot_bytes order self.now at value.now) }
    {
        let size = value_size(value)?;
        if size > 4 {
            return out.extend_from_slice(&long_bytes(order, at));
        }
        self.append_value(order, value, out)?;
        append_zeros(4 - size, out)
    }

    /// Appends entries, whose long values stand one after the other from an offset on.
    #[tactic(auto, unfolding(crate::specs::Files::entries_bytes))]
    fn append_entries(
        &self,
        order: Order,
        fields: &[Field],
        at: u32,
        out: &mut Vec<u8>,
    ) -> Result<(), AllocError>
        ensures { OnOk result (out.new.items ≡ out.old.items ++ entries_bytes order self.now at fields.now) }
    {
        let mut at = at;
        for field in fields {
            self.append_entry(order, field, at, out)?;
            at = offset_after(at, far_size(field)?)?;
        }
        Ok(())
    }

    /// Appends the value of an entry, if it has more than four bytes.
    #[tactic(auto, unfolding(crate::specs::Files::far_bytes))]
    fn append_far_value(
        &self,
        order: Order,
        field: &Field,
        out: &mut Vec<u8>,
    ) -> Result<(), AllocError>
        ensures { OnOk result (out.new.items ≡ out.old.items ++ far_bytes order self.now field.now) }
    {
        if value_size(&field.value)? > 4 {
            self.append_value(order, &field.value, out)?;
        }
        Ok(())
    }

    /// Appends the values that stand behind a directory.
    fn append_far_values(
        &self,
        order: Order,
        fields: &[Field],
        out: &mut Vec<u8>,
    ) -> Result<(), AllocError>
        ensures { OnOk result (out.new.items ≡ out.old.items ++ flat_map (far_bytes order self.now) fields.now) }
    {
        for field in fields {
            self.append_far_value(order, field, out)?;
        }
        Ok(())
    }

    /// Appends a directory that stands at an offset, and the values behind it.
    #[tactic(auto, unfolding(crate::specs::Files::directory_bytes))]
    fn append_directory(
        &self,
        order: Order,
        fields: &[Field],
        at: u32,
        out: &mut Vec<u8>,
    ) -> Result<(), AllocError>
        ensures { OnOk result (out.new.items ≡ out.old.items ++ directory_bytes order self.now at fields.now) }
    {
        let count = u16::try_from(fields.len()).map_err(|_| AllocError)?;
        let values = offset_after(at, 6 + 12 * u32::from(count))?;
        out.extend_from_slice(&short_bytes(order, count))?;
        self.append_entries(order, fields, values, out)?;
        out.extend_from_slice(&long_bytes(order, 0))?;
        self.append_far_values(order, fields, out)
    }

    /// Appends directories that stand one after the other from an offset on.
    #[tactic(auto, unfolding(crate::specs::Files::directories_bytes))]
    fn append_directories(
        &self,
        order: Order,
        directories: &[Items<Field>],
        at: u32,
        out: &mut Vec<u8>,
    ) -> Result<(), AllocError>
        ensures { OnOk result (out.new.items ≡ out.old.items ++ directories_bytes order self.now at directories.now) }
    {
        let mut at = at;
        for fields in directories {
            self.append_directory(order, fields.as_slice(), at, out)?;
            at = offset_after(at, directory_size(fields.as_slice())?)?;
        }
        Ok(())
    }
}

/// The bytes of a file: a header, directory 0 at 8, each directory's long values behind it, the further directories one
/// after the other in the same way, and the data behind them all.
///
/// # Errors
///
/// `AllocError` where there is no memory, or where the format's numbers can't hold what the file needs: a directory of
/// more than 65,535 entries, or an offset of 2^32 or more.
#[tactic(auto, unfolding(crate::specs::Files::file_bytes))]
pub fn file_bytes(
    alloc: Global,
    order: Order,
    directories: &[Items<Field>],
    data: &[u8],
) -> Result<Vec<u8>, AllocError>
    ensures { IfOk result (λ file. file.items ≡ file_bytes order directories.now «data».now) }
{
    let layout = layout_of(alloc, directories)?;
    let mut out = Vec::new(alloc);
    out.extend_from_slice(&header(order))?;
    layout.append_directories(order, directories, 8, &mut out)?;
    out.extend_from_slice(data)?;
    Ok(out)
}
