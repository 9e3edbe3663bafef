//! The elements of a text, as lists of loads and of sizes.

ghost use Rattle.std.specs.Prelude.{◌≡◌, ◌++◌, ◌+◌, ◌^◌, ◌<◌, ◌≤◌, ◌⊎◌, ℕ, drop, length, IfOk, IfErr, OnOk};
ghost use Rattle.std.specs.Int.{byte_len, from_be_bytes, w32};
ghost use mir.Val.{bits};
ghost use Rattle.chare_index.specs.declared.limits.TheConstants.Limits.{LOAD, PES, STATE_BYTES};
ghost use Rattle.dump_format.specs.Layout.{judge, Broken};
ghost use Rattle.dump_format.specs.Text.{element_text};
ghost use Rattle.lb_dump.specs.Elements.{AreOf, AreWithin, BreaksElement, IsFirst, body_of, elements_of};
ghost use Rattle.lb_dump.specs.Heads.{IsHead, element_len, load_width};

use crate::head::{Format, Head};
use crate::numbers::{LONG_LEN, WORD_LEN, long, pe, word};
use chare_index::{Limits, Pe};
use dump_format::DumpError;
use lb_snapshot::Units;
use std::alloc::Allocator;

/// Appends the whole elements with which these bytes begin to the lists, at most as many as are missing, and returns the bytes
/// after them. First it reserves capacity in the lists for all elements of the text.
///
/// # Errors
///
/// Memory was refused, or else the first fault.
pub(crate) fn take_elements<'a, A: Allocator>(
    head: &Head,
    loads: &mut Vec<Units, A>,
    sizes: &mut Vec<(u32, Pe), A>,
    bytes: &'a [u8],
) -> Result<&'a [u8], DumpError>
    requires head { IsHead head.now }
    requires kept { AreOf head.now loads.old.items sizes.old.items }
    requires few { length loads.old.items ≤ head.now.count }
    ensures joined { IfOk result (λ rest. elements_of head.now loads.new.items sizes.new.items ++ rest.now ≡ elements_of head.now loads.old.items sizes.old.items ++ bytes.now) }
    ensures kept { OnOk result (AreOf head.now loads.new.items sizes.new.items) }
    ensures few { OnOk result (length loads.new.items ≤ head.now.count) }
    ensures short { IfOk result (λ rest. length loads.new.items < head.now.count → length rest.now < element_len head.now.format) }
    ensures broken { IfErr result (λ e. (e ≡ DumpError.OutOfMemory)
        ⊎ (judge (body_of head.now) (elements_of head.now loads.old.items sizes.old.items ++ bytes.now) ≡ Broken e)) }
{
    let Head {
        format,
        procs,
        count,
        ..
    } = *head;
    let missing = count as usize - loads.len();
    loads.reserve_exact(missing)?;
    sizes.reserve_exact(missing)?;
    // The number is within this limit already. The line lets the compiler know, so that each place is tested once.
    let procs = procs.min(Limits::PES);
    let len = format.element_len();
    let end = loads.len() + missing.min(bytes.len() / len);
    let mut rest = bytes;
    while loads.len() < end {
        let (element, after) = rest.split_at(len);
        let (load, size, place) = numbers_of(format, procs, element, loads.len())?;
        loads.push_reserved(load);
        sizes.push_reserved((size, place));
        rest = after;
    }
    Ok(rest)
}

/// Judges the fields of element `i` that are whole, except its place, where only these first bytes of it have come.
///
/// # Errors
///
/// The first fault.
pub(crate) fn judge_element(format: Format, bytes: &[u8], i: usize) -> Result<(), DumpError>
    requires inside { i < Limits.ELEMENTS }
    ensures load { OnOk result (byte_len (load_width format) ≤ length bytes.now → from_be_bytes (load_width format) bytes.now ≤ LOAD) }
    ensures size { OnOk result (byte_len (load_width format) + 4 ≤ length bytes.now → from_be_bytes w32 (drop (byte_len (load_width format)) bytes.now) ≤ STATE_BYTES) }
    ensures broken { IfErr result (λ e. (procs : ℕ) → BreaksElement format procs i bytes.now e) }
{
    let len = format.load_len();
    if bytes.len() < len {
        return Ok(());
    }
    if load_of(format, bytes) > Limits::LOAD {
        return Err(DumpError::Load(i as u32));
    }
    if bytes.len() < len + WORD_LEN {
        return Ok(());
    }
    if word(&bytes[len..]) > Limits::STATE_BYTES {
        return Err(DumpError::Size(i as u32));
    }
    Ok(())
}

// The load with which an element begins.
fn load_of(format: Format, element: &[u8]) -> Units
    requires { byte_len (load_width format) ≤ length element.now }
    ensures value { result ≡ from_be_bytes (load_width format) element.now }
{
    match format {
        Format::Lbd1 => Units::from(word(element)),
        Format::Lbd2 => long(element),
    }
}

// The numbers of element `i`: its load, its size and its place.
fn numbers_of(
    format: Format,
    procs: u32,
    element: &[u8],
    i: usize,
) -> Result<(Units, u32, Pe), DumpError>
    requires whole { length element.now ≡ element_len format }
    requires few_pes { procs ≤ PES }
    requires inside { i < Limits.ELEMENTS }
    ensures spelled { IfOk result (λ numbers. element.now ≡ element_text (load_width format) numbers.0 (numbers.1, numbers.2)) }
    ensures fits { IfOk result (λ numbers. numbers.0 < 2 ^ bits (load_width format)) }
    ensures within { IfOk result (λ numbers. AreWithin procs numbers.0 numbers.1 numbers.2) }
    ensures broken { IfErr result (λ e. BreaksElement format procs i element.now e) }
{
    match format {
        Format::Lbd1 => {
            let load = Units::from(word(element));
            let size = word(&element[WORD_LEN..]);
            let place = word(&element[2 * WORD_LEN..]);
            judged(procs, i, load, size, place)
        }
        Format::Lbd2 => {
            let load = long(element);
            let size = word(&element[LONG_LEN..]);
            let place = word(&element[LONG_LEN + WORD_LEN..]);
            judged(procs, i, load, size, place)
        }
    }
}

// These numbers of element `i`, if each is within its limit.
fn judged(
    procs: u32,
    i: usize,
    load: Units,
    size: u32,
    place: u32,
) -> Result<(Units, u32, Pe), DumpError>
    requires few_pes { procs ≤ PES }
    requires inside { i < Limits.ELEMENTS }
    ensures numbers { IfOk result (λ numbers. numbers ≡ (load, size, place)) }
    ensures within { IfOk result (λ numbers. AreWithin procs numbers.0 numbers.1 numbers.2) }
    ensures fault { IfErr result (λ e. IsFirst procs i load size place e) }
{
    if load > Limits::LOAD {
        return Err(DumpError::Load(i as u32));
    }
    if size > Limits::STATE_BYTES {
        return Err(DumpError::Size(i as u32));
    }
    if place >= procs {
        return Err(DumpError::Place(i as u32));
    }
    Ok((load, size, pe(place)))
}
