//! The first byte of a read or fetch that its source does not have.
ghost use Rattle.std.specs.Prelude.{◌≡◌, ◌≤◌, length, IfSome};
ghost use Rattle.axp_image.specs.Contents.{byte_in};
ghost use Rattle.axp_access.specs.Lists.{access_at, accesses_in, times_of};
ghost use Rattle.axp_model.specs.Sources.{byte_of_source};
ghost use Rattle.axp_check.specs.Sources.{AreSources};
ghost use Rattle.axp_check.specs.SourceParts.{access_named};
ghost use Rattle.axp_check.specs.Storage.{storage_fault, wrong_source};
ghost use Rattle.axp_check.specs.StorageParts.{HasByteAt};

use crate::sources::takes_bytes;
use axp_access::AccessList;
use axp_base::{QUADWORD_BYTES, byte_of};
use axp_image::Image;

/// The image's byte at this address, 0 behind the end of memory.
fn image_byte(image: &Image, at: u64) -> u8
    ensures { result ≡ byte_in image.now.segments at }
{
    if at < image.size() { image.byte(at) } else { 0 }
}

/// The byte at this address of the access of this number, which has it; the image's for 0.
fn source_byte(image: &Image, list: &AccessList, source: u32, at: u64) -> u8
    requires most { source ≤ length list.now.items }
    requires inside { HasByteAt at (access_named list.now source) }
    ensures { result ≡ byte_of_source (byte_in image.now.segments) at (access_named list.now source) }
{
    if source == 0 {
        return image_byte(image, at);
    }
    let write = list.get(source);
    byte_of(write.value, (at - write.address) as u8)
}

/// The number of the source of the lowest wrong byte of access `n`, 0 for the image; none where that
/// is no read or fetch or has the bytes of its sources.
fn wrong_source(image: &Image, list: &AccessList, sources: &[u32], n: u32) -> Option<u32>
    requires least { 1 ≤ n }
    requires most { n ≤ length list.now.items }
    requires sources { AreSources list.now sources.now }
    ensures { IfSome (access_at list.now n) (λ v. result ≡ wrong_source (byte_in image.now.segments) (times_of list.now) (accesses_in list.now) v) }
{
    let access = list.get(n);
    if !takes_bytes(&access) {
        return None;
    }
    let first = (n as usize - 1) * QUADWORD_BYTES as usize;
    for k in 0..access.size {
        let source = sources[first + usize::from(k)];
        let right = source_byte(image, list, source, access.address + u64::from(k));
        if byte_of(access.value, k) != right {
            return Some(source);
        }
    }
    None
}

/// The oldest read or fetch with a byte that its source does not have, with the number of the source
/// of its lowest such byte in front: 0 for the image.
pub(crate) fn first_wrong(image: &Image, list: &AccessList, sources: &[u32]) -> Option<(u32, u32)>
    requires { AreSources list.now sources.now }
    ensures { result ≡ storage_fault (byte_in image.now.segments) (times_of list.now) (accesses_in list.now) }
{
    for n in 0..list.len() {
        if let Some(source) = wrong_source(image, list, sources, n + 1) {
            return Some((source, n + 1));
        }
    }
    None
}
