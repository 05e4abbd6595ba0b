//! What a query asks.

ghost use Rattle.std.specs.Prelude.{◌≡◌, IfOk, count_by, find, option_copied};
ghost use Rattle.std.specs.List.{list_all};
ghost use Rattle.web_request.specs.Asking.{Answers};
ghost use Rattle.web_request.specs.Query.{decoded, pairs_of, has_key, is_known, given, value_of, Says, node_of, moment_by, changes_of, question_of, question_by, question_in};

use crate::page::{Fault, Part, Question, Refusal};
use crate::pair::Pair;
use form_urlencoded::{decode, raw_pairs};
use history_csv::{RowFault, read_moment, read_node};
use records::Moment;
use std::alloc::{AllocError, Global};
use ua_binary::{NodeId, Text};

/// The text that a name or a value of a query stands for (URL Standard, 5.1).
fn decoded(alloc: Global, text: &[u8]) -> Result<Text, AllocError>
    ensures { IfOk result (λ t. t ≡ decoded text.now) }
{
    let text = decode(alloc, text)?.into_owned(alloc)?;
    Ok(Text::new(text))
}

/// The pairs of a query, decoded.
fn pairs_of(alloc: Global, query: &[u8]) -> Result<Vec<Pair>, AllocError>
    ensures { IfOk result (λ pairs. pairs.items ≡ pairs_of query.now) }
{
    let mut pairs = Vec::new(alloc);
    for (key, value) in raw_pairs(query) {
        let key = decoded(alloc, key)?;
        let value = decoded(alloc, value)?;
        pairs.push(Pair { key, value })?;
    }
    Ok(pairs)
}

/// Whether a pair has this key.
fn is_key(key: &str, pair: &Pair) -> bool
    ensures { result ≡ has_key key.now pair.now }
{
    pair.key.as_str() == key
}

/// Whether a pair has a key that a history is asked by.
fn is_known(pair: &Pair) -> bool
    ensures { result ≡ is_known pair.now }
{
    is_key("node", pair) || is_key("from", pair) || is_key("to", pair) || is_key("changes", pair)
}

/// The value of a pair, where it isn't empty.
fn given(found: Option<&Pair>) -> Option<&str>
    ensures { option_copied result ≡ given (option_copied found.entry) }
{
    let pair = found?;
    let text = pair.value.as_str();
    if text.is_empty() {
        return None;
    }
    Some(text)
}

/// How many pairs have this key.
fn count_keyed(key: &str, pairs: &[Pair]) -> usize
    ensures { result ≡ count_by (λ pair. has_key key.now pair) pairs.now }
{
    pairs.iter().filter(|pair| is_key(key, pair)).count()
}

/// The first pair of this key.
fn find_keyed<'a>(key: &str, pairs: &'a [Pair]) -> Option<&'a Pair>
    ensures { option_copied result ≡ find (λ pair. has_key key.now pair) pairs.now }
{
    pairs.iter().find(|pair| is_key(key, pair))
}

/// The value of a key, where one is given.
fn value_of<'a>(key: &str, pairs: &'a [Pair]) -> Result<Option<&'a str>, Refusal>
    ensures { Says (value_of key.now pairs.now) result }
{
    if count_keyed(key, pairs) > 1 {
        return Err(Refusal::Part(Part::Twice));
    }
    Ok(given(find_keyed(key, pairs)))
}

/// The node that pairs ask for.
fn node_of(alloc: Global, pairs: &[Pair]) -> Result<NodeId, Fault>
    ensures { Answers (node_of pairs.now) result }
{
    let Some(text) = value_of("node", pairs)? else {
        return Err(Fault::Refused(Refusal::Part(Part::Node)));
    };
    match read_node(alloc, text) {
        Ok(node) => Ok(node),
        Err(RowFault::OutOfMemory) => Err(Fault::OutOfMemory),
        Err(_) => Err(Fault::Refused(Refusal::Part(Part::Node))),
    }
}

/// The moment that pairs ask for by this key.
fn moment_by(key: &str, part: Part, pairs: &[Pair]) -> Result<Option<Moment>, Refusal>
    ensures { result ≡ moment_by key.now part pairs.now }
{
    let Some(text) = value_of(key, pairs)? else {
        return Ok(None);
    };
    match read_moment(text) {
        Some(time) => Ok(Some(time)),
        None => Err(Refusal::Part(part)),
    }
}

/// Whether pairs ask for modifications.
fn changes_of(pairs: &[Pair]) -> Result<bool, Refusal>
    ensures { result ≡ changes_of pairs.now }
{
    match value_of("changes", pairs)? {
        None => Ok(false),
        Some("true") => Ok(true),
        Some("false") => Ok(false),
        Some(_) => Err(Refusal::Part(Part::Changes)),
    }
}

/// The history that pairs of known keys ask for.
#[tactic(auto, unfolding(crate::specs::Query::question_of))]
fn question_of(alloc: Global, pairs: &[Pair]) -> Result<Question, Fault>
    ensures { Answers (question_of pairs.now) result }
{
    let node = node_of(alloc, pairs)?;
    let from = moment_by("from", Part::From, pairs)?;
    let to = moment_by("to", Part::To, pairs)?;
    let changes = changes_of(pairs)?;
    Ok(Question {
        node,
        from,
        to,
        changes,
    })
}

/// Whether each pair has a key that a history is asked by.
fn are_known(pairs: &[Pair]) -> bool
    ensures { result ≡ list_all is_known pairs.now }
{
    pairs.iter().all(is_known)
}

/// The history that pairs ask for.
fn question_by(alloc: Global, pairs: &[Pair]) -> Result<Question, Fault>
    ensures { Answers (question_by pairs.now) result }
{
    if !are_known(pairs) {
        return Err(Fault::Refused(Refusal::Part(Part::Unknown)));
    }
    question_of(alloc, pairs)
}

/// The history that a query asks for.
#[tactic(auto, unfolding(crate::specs::Query::question_in))]
pub(crate) fn question_in(alloc: Global, query: &[u8]) -> Result<Question, Fault>
    ensures { Answers (question_in query.now) result }
{
    let pairs = pairs_of(alloc, query)?;
    question_by(alloc, &pairs)
}
