//! The forms of a dump's lines.

ghost use Rattle.std.specs.Prelude.{◌≡◌, ◌<◌, ◌≤◌, ◌+◌, ◌++◌, ◌↔◌, ℕ, List, IsTrue, IfSome, IfNone, codes, length};
ghost use Rattle.av_net.specs.declared.netlist.Port.{Port as AnyPort};
ghost use Rattle.av_net.specs.Lexemes.{IsName};
ghost use Rattle.av_wave.specs.Dumps.{scope_line, port_line, time_line};
ghost use Rattle.av_wave.specs.inner.Stages.{Says, SaysBit, SaysVector};

use crate::code::{Code, port_of};
use crate::numbers::{value_in, width_in};
use crate::pieces::{before, behind};
use av_base::{Width, Word};
use av_net::{Port, is_name};
use itoa::Buffer;

/// A port that a line declares.
#[derive(Clone, Copy)]
pub(crate) struct PortDeclaration<'a> {
    pub(crate) width: Width,
    pub(crate) name: &'a [u8],
}

/// A port by its place, and the value that a line tells of.
#[derive(Clone, Copy)]
pub(crate) struct Told {
    pub(crate) port: u32,
    pub(crate) value: u64,
}

// A name before the end of a line.
fn name_in(text: &[u8]) -> Option<&[u8]>
    ensures some { IfSome result (λ name. IsName name.now
        × (text.now ≡ name.now ++ codes " $end\n")) }
    ensures none { IfNone result ((name : List ℕ)
        → IsName name → text.now ≡ name ++ codes " $end\n" → ⊥) }
{
    let name = before(text, b" $end\n".as_slice())?;
    if is_name(name) { Some(name) } else { None }
}

/// The name on the line that opens the scope.
pub(crate) fn scope_name(line: &[u8]) -> Option<&[u8]>
    ensures some { IfSome result (λ name. IsName name.now × (line.now ≡ scope_line name.now)) }
    ensures none { IfNone result ((name : List ℕ) → IsName name → line.now ≡ scope_line name → ⊥) }
{
    name_in(behind(line, b"$scope module ".as_slice())?)
}

/// The port on the line that declares the one with this number.
pub(crate) fn declared(line: &[u8], number: u32) -> Option<PortDeclaration<'_>>
    ensures some { IfSome result (λ found. IsName found.name.now
        × (line.now ≡ port_line number (record { name = found.name.now; width = found.width }))) }
    ensures none { IfNone result ((port : AnyPort)
        → IsName port.name → line.now ≡ port_line number port → ⊥) }
{
    let (width, text) = width_in(behind(line, b"$var wire ".as_slice())?)?;
    let text = behind(text, Code::new(number).as_bytes())?;
    let name = name_in(behind(text, b" ".as_slice())?)?;
    Some(PortDeclaration { width, name })
}

// Whether a text is these digits and the end of a line.
fn is_line_of(text: &[u8], digits: &[u8]) -> bool
    ensures { IsTrue result ↔ (text.now ≡ digits.now ++ codes "\n") }
{
    match behind(text, digits) {
        None => false,
        Some(rest) => rest == b"\n".as_slice(),
    }
}

/// Whether the line begins this cycle.
pub(crate) fn begins_cycle(line: &[u8], cycle: u32) -> bool
    ensures { IsTrue result ↔ (line.now ≡ time_line cycle) }
{
    match behind(line, b"#".as_slice()) {
        None => false,
        Some(text) => is_line_of(text, Buffer::new().format(cycle).as_bytes()),
    }
}

// The bit that a byte is written for.
fn bit(byte: u8) -> Option<u64>
    ensures some { IfSome result (λ value. (value < 2) × (byte ≡ 48 + value)) }
    ensures none { IfNone result ((value : ℕ) → value < 2 → byte ≡ 48 + value → ⊥) }
{
    match byte {
        b'0' => Some(0),
        b'1' => Some(1),
        _ => None,
    }
}

// What is told of a port of one bit: the bit and the code of the port.
fn bit_in(text: &[u8], ports: &[Port]) -> Option<Told>
    requires { length ports.now ≤ 1073741824 }
    ensures some { IfSome result (λ told. SaysBit ports.now text.now told.port told.value) }
    ensures none { IfNone result ((number value : ℕ)
        → SaysBit ports.now text.now number value → ⊥) }
{
    let (first, code) = text.split_first()?;
    let value = bit(*first)?;
    let port = port_of(code, ports.len() as u32)?;
    let width = ports[port as usize].width;
    if width.bits == 1 {
        Some(Told { port, value })
    } else {
        None
    }
}

// What is told of a port of more bits: the value in binary, a blank and the code of the port.
fn vector_in(text: &[u8], ports: &[Port]) -> Option<Told>
    requires { length ports.now ≤ 1073741824 }
    ensures some { IfSome result (λ told. SaysVector ports.now text.now told.port told.value) }
    ensures none { IfNone result ((number value : ℕ)
        → SaysVector ports.now text.now number value → ⊥) }
{
    let (value, code) = value_in(text)?;
    let port = port_of(code, ports.len() as u32)?;
    let width = ports[port as usize].width;
    if width.bits != 1 && Word::of(value, width).bits == value {
        Some(Told { port, value })
    } else {
        None
    }
}

/// What the line of a change tells.
pub(crate) fn told_by(line: &[u8], ports: &[Port]) -> Option<Told>
    requires { length ports.now ≤ 1073741824 }
    ensures some { IfSome result (λ told. Says ports.now line.now told.port told.value) }
    ensures none { IfNone result ((number value : ℕ) → Says ports.now line.now number value → ⊥) }
{
    let text = before(line, b"\n".as_slice())?;
    match behind(text, b"b".as_slice()) {
        Some(vector) => vector_in(vector, ports),
        None => bit_in(text, ports),
    }
}
