// The faults of one record of a call list (fault 19), after the records before it.
#![tactic(auto)]

ghost use Rattle.std.specs.Prelude.{◌≡◌, ◌+◌, ◌<◌, length};
ghost use Rattle.engine.specs.Encode.{operation_at, count_at};
ghost use Rattle.engine.specs.WellFormed.{first_failing};
ghost use Rattle.call_list.specs.Operations.{op_from};
ghost use Rattle.term_table.specs.Near.{sort_in};
ghost use Rattle.record_faults.specs.Faults.{word_sort, stands_by, again_by, head_by, on_wrong, fault_by};

use call_list::Operation;
use term_table::Tables;

// The sort of the term that a word refers to, if it refers to one of the terms so far.
fn word_sort(tables: &Tables, terms: usize, word: u32) -> u32
    ensures { result ≡ word_sort
        (sort_in tables.now terms)
        terms word }
{
    let k = logic::payload(word);
    if logic::kind(word) == 4 && (k as usize) < terms {
        term_table::term_sort(tables, terms, k)
    } else {
        65
    }
}

// The place of the first of n arguments of a record that may not stand where it does.
fn wrong_from(
    tables: &Tables,
    terms: usize,
    at: usize,
    operation: Operation,
    n: usize,
) -> Option<usize>
    requires { (at + n < length tables.now.calls.now) × (op_from operation ≡ operation_at tables.now.calls.now at) }
    ensures { result
        ≡ on_wrong (first_failing (stands_by
        (sort_in tables.now terms)
        tables.now.calls.now terms at) 0 n)
        (λ i. at + 1 + i) }
{
    let first = call_list::argument_word(tables.calls, at, 0);
    let mut before = logic::word_at(tables.calls, at);
    let mut sort_before = word_sort(tables, terms, before);
    for i in 0..n {
        let word = call_list::argument_word(tables.calls, at, i);
        let sort = word_sort(tables, terms, word);
        if !arguments::admitted(
            arguments::argument(operation, i),
            first,
            before,
            word,
            sort_before,
            sort,
        ) {
            return Some(call_list::argument_place(at, i));
        }
        before = word;
        sort_before = sort;
    }
    None
}

// Whether the record at a place declares a name again.
fn declares_again(
    calls: &[u32],
    names: &[u8],
    tops: &[u32],
    at: usize,
    operation: Operation,
) -> bool
    requires { op_from operation ≡ operation_at calls.now at }
    ensures { result ≡ again_by names.now tops.now calls.now at }
{
    if !call_list::is_declare(operation) {
        return false;
    }
    let letter = call_list::argument_word(calls, at, 0);
    let index = call_list::argument_word(calls, at, 1);
    let suffix = call_list::argument_word(calls, at, 2);
    name_table::name_known(calls, names, tops, at, letter, index, suffix)
}

// Whether the head of the record at a place stands: a head, whole, of an operation with its count, no name declared
// again.
fn head_stands(
    calls: &[u32],
    names: &[u8],
    tops: &[u32],
    at: usize,
    operation: Operation,
    n: u32,
) -> bool
    requires { (op_from operation ≡ operation_at calls.now at) × (n ≡ count_at calls.now at) }
    ensures { result ≡ head_by names.now tops.now calls.now at }
{
    logic::kind(logic::word_at(calls, at)) == 2
        && (n as usize) < calls.len() - at
        && arguments::count_fits(operation, n, call_list::argument_word(calls, at, 0))
        && !declares_again(calls, names, tops, at, operation)
}

// The place of the first fault of the record at a place, after the records before it.
pub fn record_fault(
    tables: &Tables,
    names: &[u8],
    tops: &[u32],
    terms: usize,
    at: usize,
) -> Option<usize>
    ensures { result
        ≡ fault_by
        (sort_in tables.now terms)
        names.now tops.now tables.now.calls.now terms at }
{
    let operation = call_list::operation_at(tables.calls, at);
    let n = call_list::count_at(tables.calls, at);
    if head_stands(tables.calls, names, tops, at, operation, n) {
        wrong_from(tables, terms, at, operation, n as usize)
    } else {
        Some(at)
    }
}
