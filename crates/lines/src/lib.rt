// The line of a record in the script: each function writes a part from a place on and gives the next place; past the
// slice's end it only counts.
#![tactic(auto)]

ghost use Rattle.std.specs.Prelude.{◌≡◌, List};
ghost use Rattle.bitvec.specs.Bits.{nat2bv};
ghost use Rattle.engine.specs.Call.{Call};
ghost use Rattle.engine.specs.Encode.{call_at};
ghost use Rattle.engine.specs.Emit.{Wrote};
ghost use Rattle.call_list.specs.Literal.{LiteralFits, literal_number, payloads};
ghost use Rattle.syntax.specs.Text.{literal_text};
ghost use Rattle.lines.specs.Line.{line};
ghost use Rattle.lines.specs.Record.{body_at, sort_by, define_at, declare_at, assert_at, Ready, Writable};

use call_list::Cursor;
use logic::Term;
use pieces::{Body, Line, Made};
use term_table::Tables;

// Writes the literal of a record.
fn put_literal(text: &mut [u8], at: usize, calls: &[u32], head: usize) -> usize
    ensures { LiteralFits calls.now head → Wrote text.old at
        (literal_text (nat2bv (payloads calls.now head 0) (literal_number calls.now head)))
        text.new result }
{
    let number = call_list::literal_number(calls, head);
    syntax::put_literal(text, at, number, call_list::argument_at(calls, head, 0))
}

// Writes the term that a record makes, after so many terms.
fn put_body(text: &mut [u8], at: usize, made: &Made, head: usize) -> usize
    ensures { let m = made.now in Ready m.calls.now head → Wrote text.old at
        (body_at m.places.now m.gap m.calls.now m.terms head) text.new result }
{
    let operation = call_list::operation_at(made.calls, head);
    let n = call_list::count_at(made.calls, head);
    match pieces::body_of(operation) {
        Body::Bool => syntax::put_bool(text, at, call_list::argument_at(made.calls, head, 0)),
        Body::And => pieces::put_conjunction(text, at, made, head, n),
        Body::Literal => put_literal(text, at, made.calls, head),
        Body::Extract => pieces::put_extraction(text, at, made, head),
        Body::Application => pieces::put_application(text, at, made, head, operation, n),
    }
}

// Writes the line that defines a term, the next after so many, of a sort.
fn put_define(text: &mut [u8], at: usize, made: &Made, head: usize, sort: u32) -> usize
    ensures { let m = made.now in Ready m.calls.now head → Wrote text.old at
        (define_at m.places.now m.gap m.calls.now m.terms head sort) text.new result }
{
    let name = text::put_bytes(text, at, b"(define-fun ");
    let parameters = pieces::put_numbered(text, name, made.terms);
    let width = text::put_bytes(text, parameters, b" () ");
    let space = syntax::put_sort(text, width, sort);
    let body = text::put_byte(text, space, b' ');
    let closing = put_body(text, body, made, head);
    text::put_bytes(text, closing, b")\n")
}

// Writes the line of a declaration.
fn put_declare(text: &mut [u8], at: usize, calls: &[u32], head: usize) -> usize
    ensures { Wrote text.old at (declare_at calls.now head) text.new result }
{
    let name = text::put_bytes(text, at, b"(declare-const ");
    let space = pieces::put_declared(text, name, calls, head);
    let sort = text::put_byte(text, space, b' ');
    let closing = syntax::put_sort(text, sort, call_list::argument_at(calls, head, 3));
    text::put_bytes(text, closing, b")\n")
}

// Writes the line of an assertion, after so many terms.
fn put_assert(text: &mut [u8], at: usize, made: &Made, head: usize) -> usize
    ensures { let m = made.now in
        Wrote text.old at (assert_at m.places.now m.gap m.calls.now m.terms head) text.new result }
{
    let place = text::put_bytes(text, at, b"(assert ");
    let term = Term(call_list::argument_at(made.calls, head, 0));
    let closing = pieces::put_reference(text, place, made, term);
    text::put_bytes(text, closing, b")\n")
}

// The sort of the term that the record at a place makes, after so many terms: from the table of the first terms, past
// it by the record.
fn sort_here(tables: &Tables, terms: usize, head: usize) -> u32
    ensures { let t = tables.now in result
        ≡ sort_by t.sorts.now t.recent.now t.places.now
        t.gap t.calls.now terms head }
{
    if terms < tables.sorts.len() {
        tables.sorts[terms] as u32
    } else {
        term_table::sort_at(tables, terms, head)
    }
}

// Writes the line of the record at a cursor's place, for any calls before it that the tables fit.
pub fn put_record(text: &mut [u8], at: usize, tables: &Tables, seen: Cursor) -> usize
    ensures { let t = tables.now in (before : List Call) → Ready t.calls.now seen.at
        → Writable t.gap t.calls.now t.places.now t.sorts.now t.recent.now before seen
        → Wrote text.old at (line before (call_at t.calls.now seen.at)) text.new result }
{
    let head = seen.at;
    let terms = seen.terms;
    let calls = tables.calls;
    let made = Made {
        calls,
        places: tables.places,
        gap: tables.gap,
        terms,
    };
    match pieces::line_of(call_list::operation_at(calls, head)) {
        Line::Define => {
            let sort = sort_here(tables, terms, head);
            put_define(text, at, &made, head, sort)
        }
        Line::Declare => put_declare(text, at, calls, head),
        Line::Assert => put_assert(text, at, &made, head),
        Line::Check => text::put_bytes(text, at, b"(check-sat)\n"),
    }
}
