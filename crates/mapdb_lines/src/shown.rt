//! How names, spaces, pages and rights are written.

ghost use Rattle.std.specs.Prelude.{◌≡◌, ◌≤◌, ◌<◌, ◌++◌, false, IfOk, OnOk, decimal, length};
ghost use Rattle.std.specs.Prelude.{string_bytes};
ghost use Rattle.std.specs.Fmt.{digit_glyph};
ghost use Rattle.mapdb_fpage.specs.RightSets.{text_of};
ghost use Rattle.mapdb_lines.specs.Shown.{frame_text, last_digits, name_text, space_text};

use itoa::Buffer;
use mapdb_facts::{RecordId, Space};
use mapdb_fpage::{Right, Rights};
use std::alloc::{AllocError, Global};

/// Writes a number behind a text, in decimal digits. The only error is that memory ran out; nothing
/// is said of the text then.
pub fn push_number(text: &mut String, number: u64) -> Result<(), AllocError>
    ensures { OnOk result (string_bytes text.new ≡ string_bytes text.old ++ decimal number) }
{
    let mut digits = Buffer::new();
    text.push_str(digits.format(number))
}

/// Writes the name of a record behind a text: its number, a point, and its processor. The only
/// error is that memory ran out; nothing is said of the text then.
pub fn push_name(text: &mut String, id: RecordId) -> Result<(), AllocError>
    ensures { OnOk result (string_bytes text.new ≡ string_bytes text.old ++ name_text id) }
{
    push_number(text, id.number())?;
    text.push('.')?;
    push_number(text, id.processor() as u64)
}

/// The name of a record. The only error is that memory ran out.
pub fn name_text(alloc: Global, id: RecordId) -> Result<String, AllocError>
    ensures { IfOk result (λ text. string_bytes text ≡ name_text id) }
{
    let mut text = String::new(alloc);
    push_name(&mut text, id)?;
    Ok(text)
}

/// Writes a space behind a text: its number, and behind a point its version, where that is not the
/// first. The only error is that memory ran out; nothing is said of the text then.
pub fn push_space(text: &mut String, space: Space) -> Result<(), AllocError>
    ensures { OnOk result (string_bytes text.new ≡ string_bytes text.old ++ space_text space) }
{
    let version = space.version;
    push_number(text, space.number as u64)?;
    if version == 0 {
        return Ok(());
    }
    text.push('.')?;
    push_number(text, version as u64)
}

/// A space. The only error is that memory ran out.
pub fn space_text(alloc: Global, space: Space) -> Result<String, AllocError>
    ensures { IfOk result (λ text. string_bytes text ≡ space_text space) }
{
    let mut text = String::new(alloc);
    push_space(&mut text, space)?;
    Ok(text)
}

/// The hexadecimal digit of a value below sixteen, in lower case.
fn hexadecimal_digit(value: u32) -> char
    requires { value < 16 }
    ensures digit { result ≡ digit_glyph false value }
    ensures ascii { result < 128 }
{
    char::from_digit(value, 16).unwrap()
}

/// Writes the last `count` hexadecimal digits of a number behind a text. The only error is that
/// memory ran out; nothing is said of the text then.
fn push_digits(text: &mut String, number: u64, count: u32) -> Result<(), AllocError>
    requires { count ≤ 16 }
    ensures { OnOk result (string_bytes text.new
        ≡ string_bytes text.old ++ last_digits count number) }
{
    for place in (0..count).rev() {
        let digit = (number >> (4 * place)) % 16;
        text.push(hexadecimal_digit(digit as u32))?;
    }
    Ok(())
}

/// In how many hexadecimal digits the number of a page or a frame is written.
#[tactic(auto, using(crate::proofs::ShownLemmas::counted_frame))]
fn frame_len(frame: u64) -> u32
    ensures len { result ≡ length (frame_text frame) }
    ensures most { result ≤ 16 }
{
    (16 - frame.leading_zeros() / 4).max(5)
}

/// Writes the number of a page or a frame behind a text, in at least five hexadecimal digits. The
/// only error is that memory ran out; nothing is said of the text then.
#[tactic(auto, using(crate::proofs::ShownLemmas::frame_digits))]
pub fn push_frame(text: &mut String, frame: u64) -> Result<(), AllocError>
    ensures { OnOk result (string_bytes text.new ≡ string_bytes text.old ++ frame_text frame) }
{
    push_digits(text, frame, frame_len(frame))
}

/// The number of a page or a frame. The only error is that memory ran out.
pub fn frame_text(alloc: Global, frame: u64) -> Result<String, AllocError>
    ensures { IfOk result (λ text. string_bytes text ≡ frame_text frame) }
{
    let mut text = String::new(alloc);
    push_frame(&mut text, frame)?;
    Ok(text)
}

/// The letters of rights: `rwx`, with a dash in the place of a missing right.
fn letters_of(rights: Rights) -> &'static str
    ensures { result.now ≡ text_of rights }
{
    let read = rights.has(Right::Read);
    let write = rights.has(Right::Write);
    let execute = rights.has(Right::Execute);
    match (read, write, execute) {
        (true, true, true) => "rwx",
        (true, true, false) => "rw-",
        (true, false, true) => "r-x",
        (true, false, false) => "r--",
        (false, true, true) => "-wx",
        (false, true, false) => "-w-",
        (false, false, true) => "--x",
        (false, false, false) => "---",
    }
}

/// Writes rights behind a text: `rwx`, with a dash in the place of a missing right. The only error
/// is that memory ran out; nothing is said of the text then.
pub fn push_letters(text: &mut String, rights: Rights) -> Result<(), AllocError>
    ensures { OnOk result (string_bytes text.new ≡ string_bytes text.old ++ text_of rights) }
{
    text.push_str(letters_of(rights))
}

/// Rights: `rwx`, with a dash in the place of a missing right. The only error is that memory ran
/// out.
pub fn letters(alloc: Global, rights: Rights) -> Result<String, AllocError>
    ensures { IfOk result (λ text. string_bytes text ≡ text_of rights) }
{
    let mut text = String::new(alloc);
    push_letters(&mut text, rights)?;
    Ok(text)
}
