// Is a type stream fit to bind? Document 02, R-9: one walk by `next` over the stream, each record and each element read once, nothing stored.
// specs/Fit.antt has the verdict, specs/Sentences.antt what a yes and a no say.
#![tactic(auto, using(crate::proofs::Used::laws), unfolding(crate::specs::Fit::fit_of, crate::specs::Worst::worst))]

ghost use Rattle.std.specs.Prelude.{ℕ, suc, ◌≡◌, length};
ghost use Rattle.answer.specs.Answer.{pick};
ghost use Rattle.word_primitive.specs.Primitive.{primitive_of};
ghost use Rattle.record_layout.specs.Layouts.{is_answered};
ghost use Rattle.record_reference.specs.Values.{joined};
ghost use Rattle.record_reference.specs.Said.{said_reference, said_references, said_of_element};
ghost use Rattle.stream_fit.specs.Fit.{rule_number, verdict_of, judged, payload_of, fit_of, said_fit};
ghost use Rattle.stream_fit.specs.Worst.{rule_or_6, fault_of, lesser, worst, worst_from, worst_of};

use answer::Refusal;
use field::index::{Stream, TypeIndex};
use record_list::ListCursor;
use record_reference::{ElementReferences, Reference, References};
use stream_header::Header;
use stream_item::iter::ItemIter;
use stream_item::{Item, iter};

// The rules, in the order in which they are asked.
#[derive(Clone, Copy, Debug, PartialEq, Eq)]
pub enum Rule {
    Count,
    Decode,
    Order,
    Primitive,
    Gap,
}

impl Rule {
    // Its number.
    pub fn number(self) -> u32
        ensures { result ≡ rule_number self }
    {
        match self {
            Rule::Count => 1,
            Rule::Decode => 2,
            Rule::Order => 3,
            Rule::Primitive => 4,
            Rule::Gap => 5,
        }
    }
}

// Whether a stream is fit; if not, the index of the lowest record at fault and the first rule that it breaks. A wrong count is of record 0.
#[derive(Clone, Copy)]
pub enum Fitness {
    Fit,
    Unfit(u32, Rule),
}

// The rule that a primitive breaks.
fn primitive_fault(n: u32) -> Option<Rule>
    ensures { rule_or_6 result ≡ pick (is_answered (primitive_of n)) 6 4 }
{
    match word_primitive::primitive(TypeIndex(n)) {
        Ok(_) => None,
        Err(_) => Some(Rule::Primitive),
    }
}

// The rule that a reference to n breaks in the record of this index.
fn fault(minimum: u32, index: u32, n: u32) -> Option<Rule>
    ensures { rule_or_6 result ≡ fault_of minimum index n }
{
    if minimum <= n {
        if index <= n {
            Some(Rule::Order)
        } else if n < 0x1000 {
            primitive_fault(n)
        } else {
            None
        }
    } else if n < 0x1000 {
        primitive_fault(n)
    } else {
        Some(Rule::Gap)
    }
}

// The first of two rules.
fn first(a: Option<Rule>, b: Option<Rule>) -> Option<Rule>
    ensures { rule_or_6 result ≡ lesser (rule_or_6 a) (rule_or_6 b) }
{
    let Some(y) = b else { return a };
    let Some(x) = a else { return b };
    if y.number() < x.number() { b } else { a }
}

// The first of that rule and those so far.
fn also(minimum: u32, index: u32, least: Option<Rule>, n: u32) -> Option<Rule>
    ensures { rule_or_6 result ≡ lesser (rule_or_6 least) (fault_of minimum index n) }
{
    first(least, fault(minimum, index, n))
}

fn by_reference(minimum: u32, index: u32, least: Option<Rule>, reference: Reference) -> Option<Rule>
    ensures { rule_or_6 result ≡ worst minimum index (rule_or_6 least) (said_reference reference) }
{
    match reference {
        Reference::None => least,
        Reference::Type(_, n) => also(minimum, index, least, n),
        Reference::Optional(_, n) => also(minimum, index, least, n),
    }
}

fn by_references(minimum: u32, index: u32, references: References) -> Option<Rule>
    ensures { rule_or_6 result ≡ worst minimum index 6 (joined (said_references references)) }
{
    let a = by_reference(minimum, index, None, references.first);
    let b = by_reference(minimum, index, a, references.second);
    let c = by_reference(minimum, index, b, references.third);
    by_reference(minimum, index, c, references.fourth)
}

fn by_element(
    minimum: u32,
    index: u32,
    least: Option<Rule>,
    references: ElementReferences,
) -> Option<Rule>
    ensures { (p : ℕ) → rule_or_6 result ≡ worst minimum index (rule_or_6 least) (said_of_element references p) }
{
    match references {
        ElementReferences::None => least,
        ElementReferences::One(_, n) => also(minimum, index, least, n),
        ElementReferences::Two(_, n, m) => {
            let one = also(minimum, index, least, n);
            also(minimum, index, one, m)
        }
    }
}

// The first rule of the elements from the cursor on; the whole list is read before a reference counts.
fn by_elements(s: &[u8], c: ListCursor, minimum: u32, index: u32, own: Option<Rule>) -> Option<Rule>
    ensures { rule_or_6 result ≡ worst_from minimum index (rule_or_6 own) (length s.now) s.now c }
{
    let mut here = c;
    let mut least = own;
    for _ in 0..s.len() {
        match record_list::step(s, here) {
            Err(e) => {
                return if e.number() == 15 {
                    least
                } else {
                    Some(Rule::Decode)
                };
            }
            Ok((element, next)) => {
                let references = record_reference::element_references(element);
                least = by_element(minimum, index, least, references);
                here = next;
            }
        }
    }
    least
}

// The rule that a payload breaks as the record of this index.
fn by_record(s: &[u8], minimum: u32, index: u32) -> Option<Rule>
    ensures { rule_or_6 result ≡ worst_of minimum index s.now }
{
    let Ok(data) = record_data::type_data(s) else {
        return Some(Rule::Decode);
    };
    let own = by_references(minimum, index, record_reference::record_references(data));
    match record_list::start(Stream::Types, s) {
        Ok(c) => by_elements(s, c, minimum, index, own),
        Err(_) => own,
    }
}

fn by_item(s: &[u8], minimum: u32, index: u32, item: Item) -> Option<Rule>
    ensures { rule_or_6 result ≡ worst_of minimum index (payload_of s.now item) }
{
    let payload = field::run::bytes_at(s, item.place, item.length);
    by_record(payload, minimum, index)
}

// The walk from the cursor on. Each record takes bytes, so that the steps are enough.
fn judge(s: &[u8], minimum: u32, maximum: u32, c: ItemIter) -> Fitness
    ensures { verdict_of result ≡ judged (suc (length s.now)) s.now minimum maximum c }
{
    let mut here = c;
    for _ in 0..s.len() + 1 {
        match iter::next(s, here) {
            Err(_) => return Fitness::Unfit(here.index, Rule::Decode),
            Ok(None) => {
                return if here.index == maximum {
                    Fitness::Fit
                } else {
                    Fitness::Unfit(0, Rule::Count)
                };
            }
            Ok(Some((item, next))) => {
                if let Some(rule) = by_item(s, minimum, here.index, item) {
                    return Fitness::Unfit(here.index, rule);
                }
                here = next;
            }
        }
    }
    Fitness::Unfit(0, Rule::Count)
}

// Is this type stream fit to bind? Refused are 16 and what the header refuses, nothing else.
pub fn fit(s: &[u8]) -> Result<Fitness, Refusal>
    ensures { said_fit result ≡ fit_of s.now }
{
    let h = Header::parse(s)?;
    let c = iter::iter(Stream::Types, s)?;
    Ok(judge(s, h.minimum_index, h.maximum_index, c))
}
