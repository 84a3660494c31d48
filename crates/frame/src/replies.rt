// A reply: its refusals in their order, by what is asked before its bits, of its line, and of its level and temperature; and the reading.
ghost use Rattle.std.specs.Prelude.{◌≡◌, ◌≢◌, ℕ, ◌*◌, ◌≤◌, ◌<◌, ◌%◌, ◌^◌, MatchResult};
ghost use Rattle.frame.specs.Faults.{fault};
ghost use Rattle.frame.specs.Reply.{mode_in, heat_in, parity_right, reply_of};
ghost use Rattle.frame.specs.Inside.Packed.{bytes_in, IsSized, IsLent, heat_for, heat_reply, level_code, level_refused, form_fault, unread_fault, unfit_fault};

use crate::line::Lent;
use crate::{Fault, Reading, Temperature, heat, kinds, level, line, modes};

// The bytes of a reply by its length, or its refusal by form or length. The two lengths that a reply can have are asked for first; they have no pad
// bits, so that the form is right where there are the bytes for them.
fn sized(count: usize, reply: &[u8]) -> Result<Lent<'_>, Fault>
    ensures { MatchResult result (λ lent. IsSized count reply.now lent) (λ f. (f ≡ fault (form_fault count reply.now)) × (form_fault count reply.now ≢ 0)) }
{
    if count == 40 {
        let Some(bytes) = reply.as_array() else {
            return Err(Fault::BadForm);
        };
        return Ok(Lent::Five(bytes));
    }
    if count == 56 {
        let Some(bytes) = reply.as_array() else {
            return Err(Fault::BadForm);
        };
        return Ok(Lent::Seven(bytes));
    }
    if !line::formed(count, reply) {
        return Err(Fault::BadForm);
    }
    Err(if count == 0 {
        Fault::Silent
    } else {
        Fault::WrongLength
    })
}

// The bytes of a reply, or the first refusal before its bits are looked at.
fn lent(settings: u8, address: u16, count: usize, reply: &[u8]) -> Result<Lent<'_>, Fault>
    ensures { MatchResult result (λ lent. IsLent settings address count reply.now lent) (λ f. (f ≡ fault (unread_fault settings address count reply.now)) × (unread_fault settings address count reply.now ≢ 0)) }
{
    if 15 < settings {
        return Err(Fault::BadSettings);
    }
    if 999 < address {
        return Err(Fault::BadAddress);
    }
    sized(count, reply)
}

// Parity covers the whole reply, parity bit included: its marks are even in number, or odd, by setting.
fn parity_right(settings: u8, lent: Lent<'_>) -> bool
    ensures { result ≡ parity_right settings (bytes_in lent.entry) }
{
    lent.marks() % 2 == u32::from(settings / 8 % 2)
}

// The first refusal of a reply before its level, 3, 4 or 5; `n` is its line. The address is compared in its digits, since those
// of an address that was polled are decimal.
fn unfit(settings: u8, address: u16, n: u64, lent: Lent<'_>) -> Result<(), Fault>
    requires { address ≤ 999 }
    ensures { MatchResult result (λ _. unfit_fault settings address n (bytes_in lent.entry) ≡ 0) (λ f. (f ≡ fault (unfit_fault settings address n (bytes_in lent.entry))) × (unfit_fault settings address n (bytes_in lent.entry) ≢ 0)) }
{
    if n < line::BIT_1 {
        return Err(Fault::NoStart);
    }
    if (n >> 49) % 4096 != line::three_of(u64::from(address)) {
        return Err(Fault::WrongAddress);
    }
    if !parity_right(settings, lent) {
        return Err(Fault::WrongParity);
    }
    Ok(())
}

// The temperature of a reply, none where its bits are not allowed: absent in 40 bits, else by type.
fn read_heat(settings: u8, count: usize, n: u64) -> Option<Temperature>
    ensures { heat_for result ≡ heat_in settings count n }
{
    if count == 40 {
        return Some(Temperature::Absent);
    }
    heat::read(kinds::of_1800(settings), n)
}

// The reading of a reply whose level and temperature are read, or fault 9.
fn with_level(n: u64, level: u64, heat: Option<Temperature>) -> Result<Reading, Fault>
    requires { level < 2 ^ 16 }
    ensures { (settings count : ℕ) → heat_for heat ≡ heat_in settings count n → result ≡ heat_reply settings count n level }
{
    let Some(temperature) = heat else {
        return Err(Fault::BadTemperature);
    };
    Ok(Reading {
        level: level as u16,
        temperature,
        alarm1: (n >> 26) % 2 == 1,
        alarm0: (n >> 25) % 2 == 1,
    })
}

// The refusal that the number of a level stands for: 6 and 8 by their number alone, 7 with the place of the digit.
fn by_level(code: u64) -> Fault
    requires code_bound { code < 9 * 2 ^ 16 }
    requires code_bound_2 { code % 2 ^ 16 < 2 ^ 8 }
    requires code_bound_3 { 6 * 2 ^ 16 ≤ code }
    ensures { result ≡ level_refused code }
{
    match code / level::FAULT {
        7 => Fault::InNoChart((code % level::FAULT) as u8),
        8 => Fault::OutOfRange,
        _ => Fault::FillSet,
    }
}

// Any reply, its level read by `level`.
fn read_with<F: FnOnce(u64) -> u64>(
    settings: u8,
    address: u16,
    count: usize,
    reply: &[u8],
    level: F,
) -> Result<Reading, Fault>
    requires callable { (n : ℕ) → F.pre level n }
    requires reads { (n r : ℕ) → F.post level n r → r ≡ level_code (mode_in settings) n }
    ensures { result ≡ reply_of settings address count reply.now }
{
    let lent = lent(settings, address, count, reply)?;
    let n = lent.word();
    unfit(settings, address, n, lent)?;
    let v = level(n);
    if level::FAULT <= v {
        return Err(by_level(v));
    }
    with_level(n, v, read_heat(settings, count, n))
}

// Any reply, its level digit by digit.
pub(crate) fn read(settings: u8, address: u16, count: usize, reply: &[u8]) -> Result<Reading, Fault>
    ensures { result ≡ reply_of settings address count reply.now }
{
    let mode = (settings % 4) as u64;
    read_with(
        settings,
        address,
        count,
        reply,
        |n| modes::read_level(mode, n),
    )
}

// Any reply, its level two digits at a time. The mode's constants are picked before the first test: behind the tests a jump by the mode would be made
// of it, which a processor guesses wrong where modes come mixed.
pub(crate) fn read_by_pairs(
    settings: u8,
    address: u16,
    count: usize,
    reply: &[u8],
) -> Result<Reading, Fault>
    ensures { result ≡ reply_of settings address count reply.now }
{
    let mode = (settings % 4) as u64;
    let k = modes::constants_of(mode);
    read_with(
        settings,
        address,
        count,
        reply,
        |n| modes::read_level_by_pairs(mode, k, n),
    )
}
