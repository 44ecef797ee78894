//! The image of a program: its bytes, where it starts, and the services that it offers.

ghost use Rattle.std.specs.Prelude.{◌≡◌, length, IfOk};
ghost use Rattle.rv_inst.specs.Image.{image_byte, image_word, service_entry};

use basics::{Items, NoMemory};
use std::alloc::Global;

/// Where the first byte of an image stands.
pub const IMAGE_START: u64 = 0x1_0000;

/// The most bytes that an image has.
pub const IMAGE_LIMIT: u64 = 0x10_0000;

/// A program as it stands in memory, from `IMAGE_START` on. It is read-only.
#[derive(PartialEq, Eq, Drop)]
pub struct Image {
    /// The bytes, the first at `IMAGE_START`.
    pub bytes: Items<u8>,
    /// The address where the main thread starts.
    pub main: u64,
    /// The services by number, ascending, each with the address where it starts.
    pub services: Items<(u8, u64)>,
}

impl Image {
    /// How many bytes it has.
    pub fn len(&self) -> u64
        ensures { result ≡ length self.now.bytes }
    {
        self.bytes.as_slice().len() as u64
    }

    /// The byte at an address, None where the image has none.
    pub fn byte(&self, address: u64) -> Option<u8>
        ensures { result ≡ image_byte self.now.bytes address }
    {
        byte_in(self.bytes.as_slice(), address)
    }

    /// The word of the four bytes from an address on, the lowest first, None where the image lacks one of them.
    pub fn word(&self, address: u64) -> Option<u32>
        ensures { result ≡ image_word self.now.bytes address }
    {
        word_in(self.bytes.as_slice(), address)
    }

    /// Where the service of a number starts, None where the image has no such service.
    pub fn service(&self, n: u64) -> Option<u64>
        ensures { result ≡ service_entry self.now.services n }
    {
        let services = self.services.as_slice();
        let found = services.iter().find(|service| service.0 as u64 == n)?;
        Some(found.1)
    }

    /// Another image that is the same.
    pub fn try_clone(&self, alloc: Global) -> Result<Image, NoMemory>
        ensures { IfOk result (λ copy. copy ≡ self.now) }
    {
        Ok(Image {
            bytes: self.bytes.try_clone(alloc)?,
            main: self.main,
            services: self.services.try_clone(alloc)?,
        })
    }
}

/// The byte of these bytes of an image at an address.
fn byte_in(bytes: &[u8], address: u64) -> Option<u8>
    ensures { result ≡ image_byte bytes.now address }
{
    if address < IMAGE_START || address - IMAGE_START >= bytes.len() as u64 {
        return None;
    }
    Some(bytes[(address - IMAGE_START) as usize])
}

/// The word of these bytes of an image at an address.
fn word_in(bytes: &[u8], address: u64) -> Option<u32>
    ensures { result ≡ image_word bytes.now address }
{
    if address < IMAGE_START {
        return None;
    }
    let at = address - IMAGE_START;
    let len = bytes.len() as u64;
    if len < 4 || at > len - 4 {
        return None;
    }
    let at = at as usize;
    let mut word = [0; 4];
    word.copy_from_slice(&bytes[at..at + 4]);
    Some(u32::from_le_bytes(word))
}
