// A reader over the caller's words with its place. A thin function takes it apart and calls the one on a list and a
// place; the functions at the end have plain parameters and go through a reader.
#![tactic(auto)]

ghost use Rattle.std.specs.Prelude.{◌≡◌, false};
ghost use Rattle.fields.specs.Field.{number_at, net_at, constant_at};
ghost use Rattle.fields.specs.Head.{head_at};
ghost use Rattle.cell_reader.specs.Record.{record_at};

use cell_reader::Record;
use fields::Head;
use logic::Fault;

// The words of a list, and a place among them.
#[derive(Clone, Copy)]
pub struct Reader<'a> {
    list: &'a [u32],
    at: usize,
}

// A reader at the first word of a list.
pub fn open<'a>(list: &'a [u32]) -> Reader<'a>
    ensures { (result.list ≡ list.entry) × (result.at ≡ 0) }
{
    Reader { list, at: 0 }
}

// The place of a reader.
pub fn place<'a>(r: Reader<'a>) -> usize
    ensures { result ≡ r.entry.at }
{
    r.at
}

// The reader of the same list at another place.
pub fn moved<'a>(r: Reader<'a>, at: usize) -> Reader<'a>
    ensures { (result.list ≡ r.entry.list) × (result.at ≡ at) }
{
    Reader { list: r.list, at }
}

// The number at a reader's place.
pub fn number<'a>(r: Reader<'a>, bound: u32, end: usize) -> Result<(u32, usize), Fault>
    ensures { result ≡ number_at r.entry.list.now bound end r.entry.at }
{
    fields::number_at(r.list, bound, end, r.at)
}

// The net at a reader's place, which is no control.
pub fn net<'a>(r: Reader<'a>, total: usize, end: usize) -> Result<usize, Fault>
    ensures { result ≡ net_at r.entry.list.now total false end r.entry.at }
{
    fields::plain_net_at(r.list, total, end, r.at)
}

// The constant at a reader's place.
pub fn constant<'a>(r: Reader<'a>, end: usize) -> Result<usize, Fault>
    ensures { result ≡ constant_at r.entry.list.now end r.entry.at }
{
    fields::constant_at(r.list, end, r.at)
}

// The head of the record at a reader's place.
pub fn head<'a>(r: Reader<'a>) -> Result<Head, Fault>
    ensures { result ≡ head_at r.entry.list.now r.entry.at }
{
    fields::head_at(r.list, r.at)
}

// The record at a reader's place.
pub fn record<'a>(r: Reader<'a>, total: usize) -> Result<Record, Fault>
    ensures { result ≡ record_at r.entry.list.now total r.entry.at }
{
    cell_reader::record_at(r.list, total, r.at)
}

// The number at a place of a list, through a reader.
pub fn number_in(list: &[u32], bound: u32, end: usize, at: usize) -> Result<(u32, usize), Fault>
    ensures { result ≡ number_at list.now bound end at }
{
    number(moved(open(list), at), bound, end)
}

// The net at a place of a list, through a reader.
pub fn net_in(list: &[u32], total: usize, end: usize, at: usize) -> Result<usize, Fault>
    ensures { result ≡ net_at list.now total false end at }
{
    net(moved(open(list), at), total, end)
}

// The record at a place of a list, through a reader.
pub fn record_in(list: &[u32], total: usize, at: usize) -> Result<Record, Fault>
    ensures { result ≡ record_at list.now total at }
{
    record(moved(open(list), at), total)
}
