// The fields of a record of the design list: what stands at a place, or the first fault met there.
#![tactic(auto)]

ghost use Rattle.std.specs.Prelude.{◌≡◌, false, ℕ, Result};
ghost use Rattle.logic.specs.declared.Fault.{Fault};
ghost use Rattle.fields.specs.Field.{number_at, is_constant, is_known, most_kind, net_at, bit_at, constant_at};
ghost use Rattle.fields.specs.Field.{scan_many, nets_at, constants_at, ends_at};
ghost use Rattle.fields.specs.Pattern.{patterns_at};
ghost use Rattle.fields.specs.Head.{record_of, head_at};

use cell::Operation;
use logic::{Driver, Fault, Net};

// The head of a record: its operation, its first field and where it ends.
#[derive(Clone, Copy)]
pub struct Head {
    pub op: Operation,
    pub first: usize,
    pub end: usize,
}

// The number at a place of a record, with the next place.
#[tactic(auto, unfolding(crate::specs::Field::number_at))]
pub fn number_at(list: &[u32], bound: u32, end: usize, at: usize) -> Result<(u32, usize), Fault>
    ensures { result ≡ number_at list.now bound end at }
{
    if end <= at {
        return Err(Fault {
            number: 5,
            place: at,
        });
    }
    let word = logic::word_at(list, at);
    if logic::kind(word) != 3 {
        return Err(Fault {
            number: 2,
            place: at,
        });
    }
    let payload = logic::payload(word);
    if bound < payload {
        return Err(Fault {
            number: 4,
            place: at,
        });
    }
    Ok((payload, at + 1))
}

// Whether a net is a constant.
pub fn is_constant(net: Net) -> bool
    ensures { result ≡ is_constant net.0 }
{
    matches!(logic::driver_of(net), Driver::Constant(_))
}

// Whether a net is a constant or that of a slot below the total.
pub fn is_known(total: usize, net: Net) -> bool
    ensures { result ≡ is_known total net.0 }
{
    match logic::driver_of(net) {
        Driver::Constant(_) => true,
        Driver::Output(slot) => (slot.0 as usize) < total,
        Driver::NoNet => false,
    }
}

// The greatest kind of a word that stands for a net: 0, and of a control 1.
fn most_kind(control: bool) -> u32
    ensures { result ≡ most_kind control }
{
    if control { 1 } else { 0 }
}

// A net at a place of a record; a control may be inverted. It answers the next place.
#[tactic(auto, unfolding(crate::specs::Field::net_at))]
pub fn net_at(
    list: &[u32],
    total: usize,
    control: bool,
    end: usize,
    at: usize,
) -> Result<usize, Fault>
    ensures { result ≡ net_at list.now total control end at }
{
    if end <= at {
        return Err(Fault {
            number: 5,
            place: at,
        });
    }
    let word = logic::word_at(list, at);
    if most_kind(control) < logic::kind(word) {
        return Err(Fault {
            number: 2,
            place: at,
        });
    }
    if !is_known(total, Net(logic::payload(word))) {
        return Err(Fault {
            number: 6,
            place: at,
        });
    }
    Ok(at + 1)
}

// A net that is no control.
pub fn plain_net_at(list: &[u32], total: usize, end: usize, at: usize) -> Result<usize, Fault>
    ensures { result ≡ net_at list.now total false end at }
{
    net_at(list, total, false, end, at)
}

// A word of a record where only a constant may stand: the place after a constant, or none where another net stands.
#[tactic(auto, unfolding(crate::specs::Field::bit_at))]
pub fn bit_at(list: &[u32], end: usize, at: usize) -> Result<Option<usize>, Fault>
    ensures { result ≡ bit_at list.now end at }
{
    if end <= at {
        return Err(Fault {
            number: 5,
            place: at,
        });
    }
    let word = logic::word_at(list, at);
    if logic::kind(word) != 0 {
        return Err(Fault {
            number: 2,
            place: at,
        });
    }
    if is_constant(Net(logic::payload(word))) {
        Ok(Some(at + 1))
    } else {
        Ok(None)
    }
}

// A constant at a place of a record.
#[tactic(auto, unfolding(crate::specs::Field::constant_at))]
pub fn constant_at(list: &[u32], end: usize, at: usize) -> Result<usize, Fault>
    ensures { result ≡ constant_at list.now end at }
{
    match bit_at(list, end, at)? {
        Some(next) => Ok(next),
        None => Err(Fault {
            number: 8,
            place: at,
        }),
    }
}

// A step from place to place of a list, which answers the next place or the first fault met.
pub trait Step {
    // What the step answers at a place.
    ghost answer: { Self → ℕ → Result ℕ Fault };

    // Takes the step at a place.
    fn taken(&self, at: usize) -> Result<usize, Fault>
        ensures { result ≡ answer self.now at };
}

// A step taken n times, from place to place, up to the first fault.
#[tactic(auto, using(crate::proofs::Laws::scans))]
pub fn many_steps<S: Step>(step: &S, n: usize, start: usize) -> Result<usize, Fault>
    ensures { result ≡ scan_many (S.answer step.now) n start }
{
    let mut at = start;
    for _ in 0..n {
        at = step.taken(at)?;
    }
    Ok(at)
}

// A closure called n times, from place to place, up to the first fault; its caller knows that it may always be called.
#[tactic(auto, using(crate::proofs::Laws::scans))]
pub fn many<F: Fn(usize) -> Result<usize, Fault>>(
    step: F,
    n: usize,
    start: usize,
) -> Result<usize, Fault>
    requires { F.IsAlwaysCallable step }
    ensures { (f : ℕ → Result ℕ Fault) → ((at : ℕ) (r : Result ℕ Fault) → F.post step at r → r ≡ f at)
        → result ≡ scan_many f n start }
{
    let mut at = start;
    for _turn in 0..n {
        at = step(at)?;
    }
    Ok(at)
}

// The step over a net, or over a control.
#[derive(Clone, Copy)]
struct NetStep<'a> {
    list: &'a [u32],
    total: usize,
    control: bool,
    end: usize,
}

impl Step for NetStep<'_> {
    ghost answer = { λ s. net_at s.list.now s.total s.control s.end };

    fn taken(&self, at: usize) -> Result<usize, Fault> {
        net_at(self.list, self.total, self.control, self.end, at)
    }
}

// The step over a constant.
#[derive(Clone, Copy)]
struct ConstantStep<'a> {
    list: &'a [u32],
    end: usize,
}

impl Step for ConstantStep<'_> {
    ghost answer = { λ s. constant_at s.list.now s.end };

    fn taken(&self, at: usize) -> Result<usize, Fault> {
        constant_at(self.list, self.end, at)
    }
}

// A run of n nets, or of n controls.
pub fn nets_at(
    list: &[u32],
    total: usize,
    control: bool,
    end: usize,
    n: usize,
    start: usize,
) -> Result<usize, Fault>
    ensures { result ≡ nets_at list.now total control end n start }
{
    let step = NetStep {
        list,
        total,
        control,
        end,
    };
    many_steps(&step, n, start)
}

// A run of n constants.
pub fn constants_at(list: &[u32], end: usize, n: usize, start: usize) -> Result<usize, Fault>
    ensures { result ≡ constants_at list.now end n start }
{
    many_steps(&ConstantStep { list, end }, n, start)
}

// The k patterns of a Match of n nets. The first word of the first alternate that is no constant leaves all three
// loops.
#[tactic(auto, using(crate::proofs::Laws::pattern_steps))]
pub fn patterns_at(
    list: &[u32],
    n: usize,
    end: usize,
    k: usize,
    start: usize,
) -> Result<usize, Fault>
    ensures { result ≡ patterns_at list.now n end k start }
{
    let mut at = start;
    let mut pattern = k;
    let place = 'patterns: loop {
        if pattern == 0 {
            return Ok(at);
        }
        let (alternates, first) = number_at(list, 64, end, at)?;
        at = first;
        let mut alternate = alternates;
        while 0 < alternate {
            let mut word = n;
            while 0 < word {
                let Some(next) = bit_at(list, end, at)? else {
                    break 'patterns at;
                };
                at = next;
                word -= 1;
            }
            alternate -= 1;
        }
        pattern -= 1;
    };
    Err(Fault { number: 8, place })
}

// Whether the fields end where the head's count says.
#[tactic(auto, unfolding(crate::specs::Field::ends_at))]
pub fn ends_at(end: usize, next: usize) -> Result<usize, Fault>
    ensures { result ≡ ends_at end next }
{
    if next == end {
        Ok(end)
    } else {
        Err(Fault {
            number: 5,
            place: next,
        })
    }
}

// A record's operation and end, where its count keeps it in the list.
#[tactic(auto, unfolding(crate::specs::Head::record_of))]
pub fn record_of(op: Operation, count: u32, len: usize, at: usize) -> Result<Head, Fault>
    ensures { result ≡ record_of op count len at }
{
    let words = count as usize;
    if at < len && words <= len - (at + 1) {
        Ok(Head {
            op,
            first: at + 1,
            end: at + 1 + words,
        })
    } else {
        Err(Fault {
            number: 1,
            place: len,
        })
    }
}

// The head of the record at a place.
#[tactic(auto, unfolding(crate::specs::Head::head_at))]
pub fn head_at(list: &[u32], at: usize) -> Result<Head, Fault>
    ensures { result ≡ head_at list.now at }
{
    if list.len() <= at {
        return Err(Fault {
            number: 1,
            place: list.len(),
        });
    }
    let word = list[at];
    if logic::kind(word) != 2 {
        return Err(Fault {
            number: 2,
            place: at,
        });
    }
    let payload = logic::payload(word);
    match cell::operation_of(payload % 32) {
        Some(op) => record_of(op, payload / 32, list.len(), at),
        None => Err(Fault {
            number: 3,
            place: at,
        }),
    }
}

#[cfg(test)]
mod tests {
    use super::*;

    // The constants 0, 1 and X one after the other, and the net of slot 0, which is none.
    #[test]
    fn many_calls_a_closure(rt: HostRuntime) {
        let list = [0, 1, 536870911, 2];
        let constant = |at: usize| constant_at(&list, 4, at);
        assert!(rt; matches!(many(constant, 3, 0), Ok(3)));
        assert!(rt;
            matches!(
                many(constant, 4, 0),
                Err(Fault {
                    number: 8,
                    place: 3
                })
            )
        );
        assert!(rt; matches!(many(constant, 0, 3), Ok(3)));
    }
}
