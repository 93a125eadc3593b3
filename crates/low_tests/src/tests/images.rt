//! Image files, and code and constants, made by hand.

use LoadError::{BadLength, BadSlotCount, ConstantsTooLong, TooShort, UnknownMagic};
use loader::{Image, LoadError};
use std::alloc::{AllocError, Global};
use std::test::Fail;

/// A program of three slots, `r0 = 5`, `r0 += 2` and `exit`, without constants.
const PROGRAM: &[u8] =
    b"CELBPF01\x03\0\0\0\0\0\0\0\xb7\0\0\0\x05\0\0\0\x07\0\0\0\x02\0\0\0\x95\0\0\0\0\0\0\0";

/// The same program as an image of version 2.
const SECOND: &[u8] =
    b"CELBPF02\x03\0\0\0\0\0\0\0\xb7\0\0\0\x05\0\0\0\x07\0\0\0\x02\0\0\0\x95\0\0\0\0\0\0\0";

/// Files that are refused, with their errors.
const REFUSED: [(&[u8], LoadError); 14] = [
    (b"", TooShort),
    (b"CELBPF01\x01\0\0\0\0\0\0", TooShort),
    (
        b"CELBPF03\x01\0\0\0\0\0\0\0\x95\0\0\0\0\0\0\0",
        UnknownMagic,
    ),
    (
        b"CELBPF00\x01\0\0\0\0\0\0\0\x95\0\0\0\0\0\0\0",
        UnknownMagic,
    ),
    (
        b"\0ELBPF01\x02\0\0\0\0\0\0\0\xb7\0\0\0\x05\0\0\0\x95\0\0\0\0\0\0\0",
        UnknownMagic,
    ),
    (b"CELBPF02\0\0\0\0\0\0\0\0", BadSlotCount),
    (b"CELBPF01\0\0\0\0\0\0\0\0", BadSlotCount),
    (b"CELBPF01\x01\0\x01\0\0\0\0\0", BadSlotCount),
    (b"CELBPF01\0\0\0\0\xff\xff\xff\xff", BadSlotCount),
    (b"CELBPF01\x01\0\0\0\x01\0\x10\0", ConstantsTooLong),
    (
        b"CELBPF01\x02\0\0\0\x01\0\x10\0\xb7\0\0\0\x05\0\0\0\x95\0\0\0\0\0\0\0",
        ConstantsTooLong,
    ),
    (b"CELBPF01\x01\0\0\0\0\0\0\0\x95\0\0\0\0\0\0", BadLength),
    (b"CELBPF01\x01\0\0\0\0\0\0\0\x95\0\0\0\0\0\0\0\0", BadLength),
    (b"CELBPF01\x01\0\0\0\x01\0\0\0\x95\0\0\0\0\0\0\0", BadLength),
];

/// The error of the file, if it is refused.
fn refusal(alloc: Global, file: &[u8]) -> Option<LoadError> {
    Image::read(alloc, file).err()
}

#[test]
fn refuses_files(rt: HostRuntime) {
    for (file, cause) in &REFUSED {
        assert!(rt; refusal(rt.alloc(), file) == Some(*cause), "{file:?}");
    }
}

/// The image of `r0 = 5` and `exit`, followed by one more byte.
const LONGER: &[u8] = b"CELBPF01\x02\0\0\0\0\0\0\0\xb7\0\0\0\x05\0\0\0\x95\0\0\0\0\0\0\0\0";

/// The errors for prefixes of that file, for lengths from the first number to before the second.
const BEGINNINGS: [(usize, usize, Option<LoadError>); 4] = [
    (0, 16, Some(TooShort)),
    (16, 32, Some(BadLength)),
    (32, 33, None),
    (33, 34, Some(BadLength)),
];

/// Whether the prefixes of these lengths have this error.
fn are_refused(alloc: Global, from: usize, to: usize, cause: Option<LoadError>) -> bool {
    for length in from..to {
        match LONGER.get(..length) {
            Some(file) if refusal(alloc, file) == cause => {}
            _ => return false,
        }
    }
    true
}

#[test]
fn refuses_beginnings(rt: HostRuntime) {
    for (from, to, cause) in &BEGINNINGS {
        assert!(rt; are_refused(rt.alloc(), *from, *to, *cause), "from {from}");
    }
}

/// Whether the image has this version, these parts and this file.
fn has_parts(image: &Image, version: u8, code: &[u8], constants: &[u8], file: &[u8]) -> bool {
    let parts = image.code() == code && image.constants() == constants;
    let is_written = match image.write() {
        Ok(written) => written.as_slice() == file,
        Err(_) => false,
    };
    image.version() == version && parts && is_written
}

/// The image of this version with this code and these constants.
fn made(alloc: Global, version: u8, code: &[u8], constants: &[u8]) -> Result<Image, LoadError> {
    let code = Vec::from_slice(alloc, code)?;
    let constants = Vec::from_slice(alloc, constants)?;
    if version == 2 {
        Image::new_2(code, constants)
    } else {
        Image::new(code, constants)
    }
}

/// The program's file as an image of each version.
const PROGRAMS: [(u8, &[u8]); 2] = [(1, PROGRAM), (2, SECOND)];

/// Whether the file is read as the program's image of this version, and written again.
fn is_program(alloc: Global, version: u8, file: &[u8]) -> bool {
    match Image::read(alloc, file) {
        Ok(image) => has_parts(&image, version, &PROGRAM[16..], b"", file),
        Err(_) => false,
    }
}

#[test]
fn reads_and_writes_a_program(rt: HostRuntime) {
    for &(version, file) in &PROGRAMS {
        assert!(rt; is_program(rt.alloc(), version, file), "version {version}");
    }
}

/// Versions, and the file of an image of `exit` and three constants.
const FILES: [(u8, &[u8]); 2] = [
    (1, b"CELBPF01\x01\0\0\0\x03\0\0\0\x95\0\0\0\0\0\0\0abc"),
    (2, b"CELBPF02\x01\0\0\0\x03\0\0\0\x95\0\0\0\0\0\0\0abc"),
];

/// Whether the image has the parts `exit` and three constants, and this file.
fn has_exit(image: &Image, version: u8, file: &[u8]) -> bool {
    has_parts(image, version, &PROGRAM[32..], b"abc", file)
}

/// Whether a copy of the image has them.
fn copy_has_exit(image: &Image, version: u8, file: &[u8]) -> bool {
    match image.copy() {
        Ok(copy) => has_exit(&copy, version, file),
        Err(_) => false,
    }
}

/// The image of `exit` and three constants.
fn exit_image(alloc: Global, version: u8) -> Result<Image, LoadError> {
    made(alloc, version, &PROGRAM[32..], b"abc")
}

/// Whether that image is made with its parts.
fn is_made(alloc: Global, version: u8, file: &[u8]) -> bool {
    match exit_image(alloc, version) {
        Ok(image) => has_exit(&image, version, file),
        Err(_) => false,
    }
}

/// Whether that image is copied with its parts.
fn is_copied(alloc: Global, version: u8, file: &[u8]) -> bool {
    match exit_image(alloc, version) {
        Ok(image) => copy_has_exit(&image, version, file),
        Err(_) => false,
    }
}

#[test]
fn makes_images_of_parts(rt: HostRuntime) {
    for &(version, file) in &FILES {
        assert!(rt; is_made(rt.alloc(), version, file), "{version}");
    }
}

#[test]
fn copies_have_the_parts_of_images(rt: HostRuntime) {
    for &(version, file) in &FILES {
        assert!(rt; is_copied(rt.alloc(), version, file), "{version}");
    }
}

/// This many zeros.
fn zeros(alloc: Global, length: usize) -> Result<Vec<u8>, AllocError> {
    Ok(vec![in alloc; 0; length]?)
}

/// The error for code and constants of these lengths at the beginning of some zeros.
fn parts_refusal(
    alloc: Global,
    version: u8,
    zeros: &[u8],
    (code_length, constants_length): (usize, usize),
) -> Option<LoadError> {
    let code = zeros.get(..code_length)?;
    let constants = zeros.get(..constants_length)?;
    made(alloc, version, code, constants).err()
}

/// Whether either version has this error for these lengths.
fn refuses_zeros(alloc: Global, zeros: &[u8], lengths: (usize, usize), cause: LoadError) -> bool {
    parts_refusal(alloc, 1, zeros, lengths) == Some(cause)
        && parts_refusal(alloc, 2, zeros, lengths) == Some(cause)
}

/// Lengths of code and constants that are refused, with their errors.
const LENGTHS: [((usize, usize), LoadError); 5] = [
    ((12, 0), BadLength),
    ((524_292, 1_048_577), BadLength),
    ((0, 0), BadSlotCount),
    ((524_296, 1_048_577), BadSlotCount),
    ((524_288, 1_048_577), ConstantsTooLong),
];

#[test]
fn refuses_parts(rt: HostRuntime) -> Result<(), Fail> {
    let zeros = zeros(rt.alloc(), 1_048_577)?;
    for &(lengths, cause) in &LENGTHS {
        let (code_length, _) = lengths;
        assert!(rt;
            refuses_zeros(rt.alloc(), zeros.as_slice(), lengths, cause),
            "{code_length}"
        );
    }
    Ok(())
}

/// The file of the longest code and constants.
fn longest_file(alloc: Global) -> Result<Vec<u8>, LoadError> {
    let image = Image::new(zeros(alloc, 524_288)?, zeros(alloc, 1_048_576)?)?;
    Ok(image.write()?)
}

/// The lengths of the code and of the constants in a file.
fn lengths(alloc: Global, file: &[u8]) -> Result<(usize, usize), LoadError> {
    let image = Image::read(alloc, file)?;
    Ok((image.code().len(), image.constants().len()))
}

/// The lengths that are read from that file.
fn longest_lengths(alloc: Global) -> Result<(usize, usize), LoadError> {
    lengths(alloc, longest_file(alloc)?.as_slice())
}

#[test]
fn takes_the_longest_parts(rt: HostRuntime) -> Result<(), Fail> {
    assert!(rt; longest_lengths(rt.alloc())? == (524_288, 1_048_576));
    Ok(())
}
