//! The longer texts of the help: options, what hex and base64 files contain, the exit statuses,
//! and an example per subcommand. `keywrap_cli`, which this crate does not see, has the same exit
//! statuses: `generate/facts.py` compares the numbers.

/// The long help of `--output`.
pub const OUTPUT: &str = "\
Writes FILE instead of standard output (-). FILE is replaced only by
the whole output and is unchanged after a refusal. It may be the input
file, but not with --keep-going. A KEK file, directory, device, pipe
or symlink is refused. A new FILE, and any FILE of unwrap, has mode
0600; otherwise FILE keeps its owner, group and mode";

/// The long help of `--base64`.
pub const BASE64: &str = "\
Base64 instead of hex. Either alphabet is read, with or without
padding; a key is written with + and / and padding. Not with --raw";

/// The long help of `--base64url`.
pub const BASE64URL: &str = "\
The same, but a key is written with - and _ and no padding, as in
JWE and JWK. Not with --raw or --base64";

/// The long help of `--lines`.
pub const LINES: &str = "\
Many keys in one run: each line of the input is one key or wrapped key
in hex or base64, with spaces and tabs only at its ends. Its answer is
the same line of the output. The run stops at the first refused line
and names its number, from 1: standard output has the answers before
it, FILE of --output is unchanged. An input without lines is refused.
Not with --raw";

/// The long help of `--keep-going`.
pub const KEEP_GOING: &str = "\
With --lines: a refused line gets an empty line as its answer and a
line on standard error, and the run continues. The exit status is the
status of the first refusal. FILE of --output may not be the input
file";

/// The long help of `--keep-form`.
pub const KEEP_FORM: &str = "\
Takes either form, and the new wrapped key keeps it. Not with
--padded, --new-padded, --iv or --new-iv";

/// The long help of `--any-form`.
pub const ANY_FORM: &str = "\
Takes either form, as check does; --iv is the initial value of the
plain form. Not with --padded";

/// The long help of `--pass-new`.
pub const PASS_NEW: &str = "\
A wrapped key that is already under the new KEK, in the form that
would be written, is copied unchanged, so an interrupted rotation can
be restarted. Anything else is still refused. If the KEKs are swapped
by mistake, every key stays under the old one: run check under the new
KEK before you delete the old one";

/// What hex and base64 files contain, and what each exit status means.
pub const NOTES: &str = "\
Hex: two digits per byte, in either case. No 0x, no colons.
Base64 (--base64, --base64url, --base64-kek): with + and / or with - and _, not
both in one file, with or without the = at the end.
Spaces, tabs and line ends are allowed anywhere in hex and base64; with --lines
blanks are allowed only at the ends of a line.
With --raw and --raw-kek every byte counts, also a newline at the end.

Exit status:
  0  done
  2  the command line was refused
  3  a KEK must be 16, 24 or 32 bytes
     Use --raw-kek for a KEK file of raw bytes, --base64-kek for base64.
  4  the key or the wrapped key has no legal length in this form
     Use --padded for a key of any length. With --lines: there are no lines.
  5  the integrity check failed; check found no wrapping; a vector failed
     keywrap check prints the form that fits the KEK.
  6  a file or the output could not be opened, read or written
     Bytes are counted from 0. Use --raw for raw bytes, --base64 for base64.
  7  out of memory

A refusal is one line on standard error. On a terminal, or with --verbose, a
second line names the file and the reason.
Nothing is written before the whole answer is made; with --lines, before the
whole answer to a line.";

/// An example of `wrap`.
pub const WRAP_EXAMPLE: &str = "\
Example, in an empty directory, with the first vector of RFC 3394:
  $ echo 000102030405060708090a0b0c0d0e0f > kek.hex
  $ echo 00112233445566778899aabbccddeeff | keywrap wrap --kek kek.hex
  1fa68b0a8112b447aef34bd8fb5a7b829d3e862371d2cfe5
The same in base64:
  $ echo ABEiM0RVZneImaq7zN3u/w== | keywrap wrap --base64 --kek kek.hex
  H6aLCoEStEeu80vY+1p7gp0+hiNx0s/l
From file to file:
  $ keywrap wrap --kek kek.hex --input key.hex --output wrapped.hex

Hex, base64 and the exit statuses: keywrap --help.
A key has 16 to 1048576 bytes, a multiple of 8; with --padded 1 to 1048576.
A file, with --lines a line, has at most 4194304 bytes.";

/// An example of `unwrap`.
pub const UNWRAP_EXAMPLE: &str = "\
Example, in an empty directory, with the first vector of RFC 3394:
  $ echo 000102030405060708090a0b0c0d0e0f > kek.hex
  $ echo 1fa68b0a8112b447aef34bd8fb5a7b829d3e862371d2cfe5 > wrapped.hex
  $ keywrap unwrap --kek kek.hex < wrapped.hex
  00112233445566778899aabbccddeeff

Hex, base64 and the exit statuses: keywrap --help.
A wrapped key that does not fit this KEK and this form is refused with status
5, and no byte is written. With --any-form both forms are tried.";

/// An example of `rewrap`.
pub const REWRAP_EXAMPLE: &str = "\
Example, in an empty directory, with the first and the third vector of RFC 3394:
  $ echo 000102030405060708090a0b0c0d0e0f > old
  $ echo 000102030405060708090a0b0c0d0e0f101112131415161718191a1b1c1d1e1f > new
  $ echo 1fa68b0a8112b447aef34bd8fb5a7b829d3e862371d2cfe5 > wrapped.hex
  $ keywrap rewrap --keep-form --kek old --new-kek new < wrapped.hex
  64e8c3f9ce0f5ba263e9777905818a2a93c8191e7d6e8ae7

Hex, base64 and the exit statuses: keywrap --help.
The new wrapped key is as long as the old one. The key itself is not written.
Without --keep-form or --new-padded the new wrapped key has the plain form.
From --padded to the plain form the key must have 16 bytes or more, a multiple
of 8; any other key is refused with status 4.";

/// An example of `check`.
pub const CHECK_EXAMPLE: &str = "\
Example, in an empty directory, with the first vector of RFC 3394:
  $ echo 000102030405060708090a0b0c0d0e0f > kek.hex
  $ echo 1fa68b0a8112b447aef34bd8fb5a7b829d3e862371d2cfe5 > wrapped.hex
  $ keywrap check --kek kek.hex < wrapped.hex
  plain 16

The line is `plain N` or `padded N`, with the length of the key in bytes, or
`none` (status 5): it was wrapped with another KEK or initial value, or is
damaged.
Hex, base64 and the exit statuses: keywrap --help.";

/// An example of `drill`.
pub const DRILL_EXAMPLE: &str = "\
Example:
  $ keywrap drill 00112233445566778899aabbccddeeff
  a6a6a6a6a6a6a6a6001122334455667f8899aabbccddeefb

Instead of AES a toy cipher turns A | X into X | A, so you can check each answer
by hand. It hides nothing.";

/// An example of `vectors`.
pub const VECTORS_EXAMPLE: &str = "\
Example:
  $ keywrap vectors
  rfc3394 4.1 ok
  (and eleven more lines)

Each vector is computed in both directions. A line ends with `ok` if both give
the bytes of the vector.";
