// One record of the design list: a cell's head, numbers and fields, up to the first fault.
#![tactic(auto)]

ghost use Rattle.std.specs.Prelude.{◌≡◌};
ghost use Rattle.cell_reader.specs.Record.{third_at, second_at, leading_at, tail_at, body_at, contents_at, record_at};

use cell::{Fields, Numbers, Operation};
use logic::Fault;

// The first two numbers of a body (0 where it has none) and the place after the last.
#[derive(Clone, Copy)]
pub struct Leading {
    pub n: u32,
    pub m: u32,
    pub next: usize,
}

// A record's operation, output width and end.
#[derive(Clone, Copy)]
pub struct Record {
    pub op: Operation,
    pub width: usize,
    pub next: usize,
}

// From the third number of a body on.
#[tactic(auto, unfolding(crate::specs::Record::third_at))]
pub fn third_at(
    list: &[u32],
    numbers: Numbers,
    end: usize,
    n: u32,
    m: u32,
    at: usize,
) -> Result<Leading, Fault>
    ensures { result ≡ third_at list.now numbers end n m at }
{
    let (offset, next) = fields::number_at(list, logic::LAST_PAYLOAD, end, at)?;
    if numbers.within && (n as u64) < offset as u64 + m as u64 {
        return Err(Fault {
            number: 9,
            place: at,
        });
    }
    Ok(Leading { n, m, next })
}

// From the second number of a body on.
#[tactic(auto, unfolding(crate::specs::Record::second_at))]
pub fn second_at(
    list: &[u32],
    numbers: Numbers,
    end: usize,
    n: u32,
    at: usize,
) -> Result<Leading, Fault>
    ensures { result ≡ second_at list.now numbers end n at }
{
    let (m, next) = fields::number_at(list, numbers.second, end, at)?;
    if numbers.count == 2 {
        return Ok(Leading { n, m, next });
    }
    third_at(list, numbers, end, n, m, next)
}

// The numbers that lead a body.
#[tactic(auto, unfolding(crate::specs::Record::leading_at, crate::specs::Record::first_at))]
pub fn leading_at(list: &[u32], numbers: Numbers, end: usize, at: usize) -> Result<Leading, Fault>
    ensures { result ≡ leading_at list.now numbers end at }
{
    if numbers.count == 0 {
        return Ok(Leading {
            n: 0,
            m: 0,
            next: at,
        });
    }
    let (n, next) = fields::number_at(list, 63, end, at)?;
    if n < numbers.least {
        return Err(Fault {
            number: 7,
            place: at,
        });
    }
    if numbers.count == 1 {
        return Ok(Leading { n, m: 0, next });
    }
    second_at(list, numbers, end, n, next)
}

// The constants and patterns that end a body.
#[tactic(auto, unfolding(crate::specs::Record::tail_at))]
pub fn tail_at(
    list: &[u32],
    layout: Fields,
    n: usize,
    end: usize,
    at: usize,
) -> Result<usize, Fault>
    ensures { result ≡ tail_at list.now layout n end at }
{
    let patterns = fields::constants_at(list, end, layout.constants, at)?;
    let next = fields::patterns_at(list, n, end, layout.patterns, patterns)?;
    fields::ends_at(end, next)
}

// What follows the numbers of a body, to the record's end.
#[tactic(auto, unfolding(crate::specs::Record::body_at))]
pub fn body_at(
    list: &[u32],
    total: usize,
    layout: Fields,
    n: usize,
    end: usize,
    at: usize,
) -> Result<usize, Fault>
    ensures { result ≡ body_at list.now total layout n end at }
{
    let nets = fields::nets_at(list, total, true, end, layout.controls, at)?;
    let constants = fields::nets_at(list, total, false, end, layout.nets, nets)?;
    tail_at(list, layout, n, end, constants)
}

// The fields of a record, from its first on.
#[tactic(auto, unfolding(crate::specs::Record::contents_at))]
pub fn contents_at(
    list: &[u32],
    total: usize,
    op: Operation,
    end: usize,
    first: usize,
) -> Result<Record, Fault>
    ensures { result ≡ contents_at list.now total op end first }
{
    let lead = leading_at(list, cell::numbers_of(op), end, first)?;
    let layout = cell::fields_of(op, lead.n, lead.m);
    let next = body_at(list, total, layout, lead.n as usize, end, lead.next)?;
    Ok(Record {
        op,
        width: layout.width,
        next,
    })
}

// The record at a place.
#[tactic(auto, unfolding(crate::specs::Record::record_at))]
pub fn record_at(list: &[u32], total: usize, at: usize) -> Result<Record, Fault>
    ensures { result ≡ record_at list.now total at }
{
    let head = fields::head_at(list, at)?;
    contents_at(list, total, head.op, head.end, head.first)
}
