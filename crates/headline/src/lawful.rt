//! Events whose conditions hold.

ghost use Rattle.std.specs.Prelude.{IsTrue};
ghost use Rattle.std.specs.List.{AllByRecursion};
ghost use Rattle.ua_variant.specs.DataValue.{IsDataValue, IsShortData};
ghost use Rattle.hist_update.specs.Outcome.{IsRequest};
ghost use Rattle.hist_update.specs.Laws.{IsSpelledRequest, IsOperation};
ghost use Rattle.exchange.specs.Running.{IsAsked, IsEvent, event_of, operation_of};
ghost use Rattle.headline.specs.Executions.{IsLawfulEvent};

use exchange::{Event, Operation};
use hist_update::Request;
use records::{HistoryUpdateType, Moment};
use ua_binary::NodeIdRef;
use ua_variant::DataValue;

/// Whether the node's id and the user's name are within their limits.
fn is_request(request: &Request) -> bool
    ensures asked { IsTrue result → IsRequest request.now }
    ensures spelled { IsTrue result → IsSpelledRequest request.now }
{
    let short = match request.node.as_ref() {
        NodeIdRef::Named(_, name) => name.len() <= 256,
        NodeIdRef::Opaque(_, id) => id.len() <= 256,
        _ => true,
    };
    short && request.user.as_str().len() <= 256
}

/// Whether a value may be written.
fn is_short(value: &DataValue) -> bool
    ensures short { IsTrue result → IsShortData value.now }
    ensures spelled { IsTrue result → IsDataValue value.now }
{
    let close = match value.source_pico {
        Some(pico) => pico <= 9999,
        None => true,
    };
    close && value.server_pico.is_none() && value.size() < 0x8000_0000
}

/// Whether an operation may be asked for.
fn is_operation(operation: &Operation) -> bool
    ensures asked { IsTrue result → IsAsked operation.now }
    ensures lawful { IsTrue result → IsOperation (operation_of operation.now) }
{
    match operation {
        Operation::Write { asked, value, .. } => match asked {
            HistoryUpdateType::Delete => false,
            _ => is_short(value),
        },
        Operation::Delete { time } => {
            let _ticks = Moment::at(time.0).ticks();
            true
        }
    }
}

/// Whether an event's conditions hold.
fn is_lawful(event: &Event) -> bool
    ensures asked { IsTrue result → IsEvent event.now }
    ensures lawful { IsTrue result → IsLawfulEvent (event_of event.now) }
{
    match event {
        Event::Operation {
            request,
            operation,
            ..
        } => is_request(request) && is_operation(operation),
        _ => true,
    }
}

/// Whether all events' conditions hold.
pub(crate) fn are_lawful(events: &[Event]) -> bool
    ensures asked { IsTrue result → AllByRecursion IsEvent events.now }
    ensures lawful { IsTrue result
        → AllByRecursion (λ event. IsLawfulEvent (event_of event)) events.now }
{
    events.iter().all(|event| is_lawful(event))
}
