//! The notations of files: reads a file in a notation, and prints bytes in one.

ghost use Rattle.std.specs.Prelude.{◌≡◌, OnOk};
ghost use Rattle.key_files.specs.FileReading.{answer_of};
ghost use Rattle.keywrap_cli.specs.Files.{IsOneLine, line_notation, printed};
ghost use Rattle.keywrap_cli.specs.JobReading.{ReadsFile, named_fault_of};

use crate::outcome::JobFault;
use key_files::{
    Alphabet, FileFault, MAX_FILE, print_base64, print_hex, read_base64, read_hex, read_raw,
};
use key_lines::TextNotation;
use std::alloc::{AllocError, Global};
use std::io::Read;

/// The notation of the bytes of a file.
#[derive(Clone, Copy)]
pub enum Notation {
    /// Raw bytes.
    Raw,
    /// Two hex digits for each byte.
    Hex,
    /// Base64 (RFC 4648). Either alphabet is read, with or without padding. The alphabet of section
    /// 4 is written, with padding.
    Base64,
    /// Read as `Base64` is. The alphabet of section 5 is written, without padding.
    Base64Url,
}

/// Returns the file notation that matches this line notation.
pub fn line_notation(notation: TextNotation) -> Notation
    ensures { result ≡ line_notation notation }
{
    match notation {
        TextNotation::Hex => Notation::Hex,
        TextNotation::Base64 => Notation::Base64,
        TextNotation::Base64Url => Notation::Base64Url,
    }
}

/// Reads and decodes a file of at most `MAX_FILE` bytes.
pub fn read_file<R: Read>(
    alloc: Global,
    notation: Notation,
    reader: &mut R,
) -> Result<Vec<u8>, FileFault>
    ensures { ReadsFile notation (R.remaining reader.old) (R.remaining reader.new)
        (answer_of result) }
{
    match notation {
        Notation::Raw => read_raw(alloc, reader, MAX_FILE),
        Notation::Hex => read_hex(alloc, reader, MAX_FILE),
        Notation::Base64 | Notation::Base64Url => read_base64(alloc, reader, MAX_FILE),
    }
}

/// Returns the fault of an operation for a fault of its input file.
pub fn input_fault(fault: FileFault) -> JobFault
    ensures { result ≡ named_fault_of (λ f. JobFault.InputFile f) fault }
{
    match fault {
        FileFault::Memory => JobFault::Memory,
        fault => JobFault::InputFile(fault),
    }
}

/// Replaces `output` with the bytes in a notation. The contents of `bytes` afterwards are not
/// specified.
pub fn print_in(
    notation: Notation,
    bytes: &mut Vec<u8>,
    output: &mut Vec<u8>,
) -> Result<(), AllocError>
    ensures bytes { OnOk result (output.new.items ≡ printed notation bytes.old.items) }
    ensures one_line { OnOk result (IsOneLine notation output.new.items) }
{
    match notation {
        Notation::Raw => {
            std::mem::swap(bytes, output);
            Ok(())
        }
        Notation::Hex => print_hex(bytes, output),
        Notation::Base64 => print_base64(Alphabet::Standard, bytes, output),
        Notation::Base64Url => print_base64(Alphabet::UrlSafe, bytes, output),
    }
}
