ghost use Rattle.std.specs.Prelude.{◌≡◌, ◌++◌, ◌≤◌, OnOk, IfOk, Some, length};
ghost use Rattle.axp_image.specs.Contents.{segment_of};
ghost use Rattle.axp_image.specs.Grammar.{image_of};
ghost use Rattle.axp_image.specs.Spelling.{format_bytes, header_bytes, number_bytes, record_of, spelling};
ghost use Rattle.axp_image.specs.declared.limits.TheConstants.{MAX_MEMORY};

use crate::images::Image;
use crate::layout::{MAGIC, VERSION};
use axp_base::{Bytes, NoMemory};
use byteorder::{ByteOrder, LittleEndian};
use std::alloc::Global;

/// Appends a number of two bytes.
#[tactic(auto, unfolding(crate::specs::Spelling::number_bytes))]
fn push_u16(file: &mut Bytes, alloc: Global, n: u16) -> Result<(), NoMemory>
    ensures { OnOk result (file.new ≡ file.old ++ number_bytes 2 n) }
{
    let mut bytes = [0; 2];
    LittleEndian::write_u16(&mut bytes, n);
    file.append(alloc, &bytes)
}

/// Appends a number of four bytes.
#[tactic(auto, unfolding(crate::specs::Spelling::number_bytes))]
fn push_u32(file: &mut Bytes, alloc: Global, n: u32) -> Result<(), NoMemory>
    ensures { OnOk result (file.new ≡ file.old ++ number_bytes 4 n) }
{
    let mut bytes = [0; 4];
    LittleEndian::write_u32(&mut bytes, n);
    file.append(alloc, &bytes)
}

/// Appends a number of eight bytes.
#[tactic(auto, unfolding(crate::specs::Spelling::number_bytes))]
fn push_u64(file: &mut Bytes, alloc: Global, n: u64) -> Result<(), NoMemory>
    ensures { OnOk result (file.new ≡ file.old ++ number_bytes 8 n) }
{
    let mut bytes = [0; 8];
    LittleEndian::write_u64(&mut bytes, n);
    file.append(alloc, &bytes)
}

/// Appends the fields that say what the file is, with this number of segments.
#[tactic(auto, unfolding(crate::specs::Spelling::format_bytes))]
fn push_format(file: &mut Bytes, alloc: Global, count: u16) -> Result<(), NoMemory>
    ensures { OnOk result (file.new ≡ file.old ++ format_bytes count) }
{
    push_u32(file, alloc, MAGIC)?;
    push_u16(file, alloc, VERSION)?;
    push_u16(file, alloc, count)
}

/// Appends the fields before the records.
#[tactic(auto, unfolding(crate::specs::Spelling::header_bytes))]
fn push_header(file: &mut Bytes, alloc: Global, image: &Image) -> Result<(), NoMemory>
    ensures { OnOk result (file.new ≡ file.old ++ header_bytes image.now) }
{
    push_format(file, alloc, image.segments() as u16)?;
    push_u64(file, alloc, image.size())?;
    push_u64(file, alloc, image.entry())?;
    push_u64(file, alloc, image.stack())?;
    push_u64(file, alloc, image.table())
}

/// Appends the record of a segment of `bytes` at `address`.
#[tactic(auto, unfolding(crate::specs::Spelling::record_of))]
fn push_record(file: &mut Bytes, alloc: Global, address: u64, bytes: &[u8]) -> Result<(), NoMemory>
    requires { length bytes.now ≤ MAX_MEMORY }
    ensures { OnOk result (file.new ≡ file.old ++ record_of (segment_of address bytes.now)) }
{
    push_u64(file, alloc, address)?;
    push_u32(file, alloc, bytes.len() as u32)?;
    push_u32(file, alloc, 0)
}

/// Writes the file of an image, whose form `docs/FORMATS.md` has under "The image file". It is read
/// back as this image, and it is the only file that is.
pub fn write_image(alloc: Global, image: &Image) -> Result<Bytes, NoMemory>
    ensures file { IfOk result (λ file. file ≡ spelling image.now) }
    ensures read_back { IfOk result (λ file. image_of file ≡ Some image.now) }
{
    let mut file = Bytes::empty(alloc);
    push_header(&mut file, alloc, image)?;
    for n in 0..image.segments() {
        let (address, bytes) = image.segment(n);
        push_record(&mut file, alloc, address, bytes)?;
    }
    for n in 0..image.segments() {
        let (_, bytes) = image.segment(n);
        file.append(alloc, bytes)?;
    }
    Ok(file)
}
