// What a record of a call list adds to the numbers written and to the false assertions counted.
#![tactic(auto)]

ghost use Rattle.std.specs.Prelude.{◌≡◌, set};
ghost use Rattle.bitvec.specs.Bits.{bit};
ghost use Rattle.call_list.specs.Operations.{op_from};
ghost use Rattle.term_table.specs.Near.{sort_in};
ghost use Rattle.record_values.specs.Records.{false_of, values_next};

use call_list::Operation;
use term_table::Tables;

// A number stored at a place; past the end nothing changes.
fn put_number(numbers: &mut [u64], at: usize, number: u64)
    ensures { numbers.new ≡ set numbers.old at number }
{
    if at < numbers.len() {
        numbers[at] = number;
    }
}

// How many false assertions an operation is: 1 for an assertion of a term whose number is 0.
pub fn false_of(operation: Operation, value: u64) -> usize
    ensures { result ≡ false_of (op_from operation) value }
{
    match operation {
        Operation::Assert => usize::from(value == 0),
        _ => 0,
    }
}

// The number of the term that a record makes goes into the slice.
pub fn write_value(tables: &Tables, values: &mut [u64], terms: usize, given: u64, at: usize)
    ensures { values.new ≡ values_next
        (sort_in tables.now terms)
        values.old tables.now.calls.now terms given at }
{
    if call_list::makes_term(call_list::operation_at(tables.calls, at)) {
        let value = term_values::record_value(tables, values, terms, given, at);
        put_number(values, terms, value);
    }
}
