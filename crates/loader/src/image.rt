//! Images.

ghost use Rattle.std.specs.Prelude.{◌≡◌, ◌≤◌, ◌+◌, ◌*◌, length, nat_eq, not, false, IfOk, IsOk, Err};
ghost use Rattle.loader.specs.Contents.{IsImage, version_number};
ghost use Rattle.loader.specs.Format as format;
ghost use Rattle.loader.specs.Format.{image_in, image_from, contents_in, file_of};
ghost use Rattle.loader.specs.Answers.{Loads};
ghost use Rattle.loader.specs.declared.load_error.LoadError.TheVariants.{Memory};
ghost use Rattle.loader.specs.declared.version.Version.TheVariants.{First, Second};

use crate::format::{
    HEAD, constants_in, has_bad_slots, has_long_constants, has_other_length, has_other_magic,
    is_bad_count, is_too_long, is_too_short, number_bytes, slots_in, version_in,
};
use crate::load_error::LoadError;
use crate::version::Version;
use std::alloc::{AllocError, Global};
use std::marker::Model;

/// A program for the machine: 1 to 65,536 slots of code with 8 bytes each, and at most 1,048,576 bytes of constants.
/// The code is not checked for valid instructions. Images of version 2 run like those of version 1.
#[derive(Debug, Drop)]
pub struct Image {
    version: Version,
    code: Vec<u8>,
    constants: Vec<u8>,
}

impl Model for Image {
    ghost use Rattle.loader.specs.Contents.{Image, IsImage};

    ghost Value = { Image };

    ghost view = { λ i. record { version = i.version; code = i.code.items; constants = i.constants.items } };

    ghost invariant = { λ i. IsImage (record { version = i.version; code = i.code.items; constants = i.constants.items }) };
}

impl Image {
    /// The image of a file's bytes. The error is the first of the faults in the order of [`LoadError`], or `Memory`.
    #[tactic(auto, unfolding(crate::specs::Format::image_in))]
    pub fn read(alloc: Global, file: &[u8]) -> Result<Image, LoadError>
        ensures loads { Loads (image_in file.now) result }
        ensures whole { IfOk result (λ image. file.now ≡ file_of image) }
        // Nothing is allocated for a file that is refused.
        ensures memory { result ≡ Err Memory → IsOk (image_in file.now) }
    {
        if is_too_short(file) {
            return Err(LoadError::TooShort);
        }
        if has_other_magic(file) {
            return Err(LoadError::UnknownMagic);
        }
        if has_bad_slots(file) {
            return Err(LoadError::BadSlotCount);
        }
        if has_long_constants(file) {
            return Err(LoadError::ConstantsTooLong);
        }
        if has_other_length(file) {
            return Err(LoadError::BadLength);
        }
        Ok(Image::parts(alloc, file)?)
    }

    /// The version, the code and the constants of a file without faults.
    fn parts(alloc: Global, file: &[u8]) -> Result<Image, AllocError>
        requires head { 16 ≤ length file.now }
        requires slots { format.is_bad_count (format.slots_in file.now) ≡ false }
        requires constants { format.is_too_long (format.constants_in file.now) ≡ false }
        requires whole { not (nat_eq (length file.now) (16 + 8 * format.slots_in file.now + format.constants_in file.now)) ≡ false }
        ensures { IfOk result (λ image. image ≡ contents_in file.now) }
    {
        let middle = HEAD + 8 * slots_in(file) as usize;
        let end = middle + constants_in(file) as usize;
        Ok(Image {
            version: version_in(file),
            code: Vec::from_slice(alloc, &file[HEAD..middle])?,
            constants: Vec::from_slice(alloc, &file[middle..end])?,
        })
    }

    /// The image of version 1 with this code, 8 bytes per slot, and these constants. Allocates nothing, and drops its
    /// arguments if it refuses them: `BadLength` for code that ends within a slot, else `BadSlotCount` for no slots
    /// or too many, else `ConstantsTooLong` for constants that are too long.
    pub fn new(code: Vec<u8>, constants: Vec<u8>) -> Result<Image, LoadError>
        ensures { result ≡ image_from First code.items constants.items }
    {
        Image::of_version(Version::First, code, constants)
    }

    /// The image of version 2 with this code and these constants, with the errors of [`Image::new`].
    pub fn new_2(code: Vec<u8>, constants: Vec<u8>) -> Result<Image, LoadError>
        ensures { result ≡ image_from Second code.items constants.items }
    {
        Image::of_version(Version::Second, code, constants)
    }

    #[tactic(auto, unfolding(crate::specs::Format::image_from))]
    fn of_version(version: Version, code: Vec<u8>, constants: Vec<u8>) -> Result<Image, LoadError>
        ensures { result ≡ image_from version code.items constants.items }
    {
        if code.len() % 8 != 0 {
            return Err(LoadError::BadLength);
        }
        if is_bad_count((code.len() / 8) as u64) {
            return Err(LoadError::BadSlotCount);
        }
        if is_too_long(constants.len() as u64) {
            return Err(LoadError::ConstantsTooLong);
        }
        Ok(Image {
            version,
            code,
            constants,
        })
    }

    /// The bytes of the image's file.
    #[tactic(auto, unfolding(crate::specs::Format::file_of))]
    pub fn write(&self) -> Result<Vec<u8>, AllocError>
        ensures { IfOk result (λ file. file.items ≡ file_of self.now) }
    {
        let length = HEAD + self.code.len() + self.constants.len();
        let mut file = Vec::with_capacity(*self.code.allocator(), length)?;
        file.extend_from_slice(self.version.magic())?;
        file.extend_from_slice(&number_bytes((self.code.len() / 8) as u32))?;
        file.extend_from_slice(&number_bytes(self.constants.len() as u32))?;
        file.extend_from_slice(self.code.as_slice())?;
        file.extend_from_slice(self.constants.as_slice())?;
        Ok(file)
    }

    /// 1 or 2.
    pub fn version(&self) -> u8
        ensures { result ≡ version_number self.now.version }
    {
        self.version.number()
    }

    /// The code, with 8 bytes per slot.
    pub fn code(&self) -> &[u8]
        ensures value { result.now ≡ self.now.code }
        ensures valid { IsImage self.now }
    {
        &self.code
    }

    /// The constants.
    pub fn constants(&self) -> &[u8]
        ensures value { result.now ≡ self.now.constants }
        ensures valid { IsImage self.now }
    {
        &self.constants
    }

    /// An equal image with memory of its own.
    pub fn copy(&self) -> Result<Image, AllocError>
        ensures { IfOk result (λ image. image ≡ self.now) }
    {
        let alloc = *self.code.allocator();
        Ok(Image {
            version: self.version,
            code: Vec::from_slice(alloc, self.code.as_slice())?,
            constants: Vec::from_slice(alloc, self.constants.as_slice())?,
        })
    }
}
