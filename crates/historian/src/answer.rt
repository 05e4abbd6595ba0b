//! What services answer that don't write their responses themselves, and those responses (Part 4, 7.34).

ghost use Rattle.std.specs.Prelude.{◌≡◌, ◌++◌, Ok, OnOk, IfOk, IfErr};
ghost use Rattle.historian.specs.Answers.{type_of, response_body_of, HasEncoding, response};
ghost use Rattle.historian.specs.Telling.{service_answer, IsEncodable};

use crate::responses::{RequestContext, put_head};
use ua_binary::{BinaryFault, Status};
use ua_services::{
    CreateSessionResponse, EndpointDescription, HistoryUpdateResult, put_activate_session_response,
    put_create_session_response, put_get_endpoints_response, put_history_update_response,
};

/// What a service answers.
#[derive(Debug, Drop)]
pub(crate) enum Answer {
    Endpoints(Vec<EndpointDescription>),
    Created(CreateSessionResponse),
    Activated,
    Closed,
    Updated(Vec<HistoryUpdateResult>),
}

impl Answer {
    /// The type id of the structure that carries it.
    fn type_id(&self) -> u32
        ensures { result ≡ type_of (service_answer self.now) }
    {
        match self {
            Answer::Endpoints(_) => 431,
            Answer::Created(..) => 464,
            Answer::Activated => 470,
            Answer::Closed => 476,
            Answer::Updated(_) => 703,
        }
    }

    /// Appends what the response has behind its header, which has a spelling. The one error is `OutOfMemory`.
    #[tactic(auto, unfolding(ua_services::specs::Endpoints::get_endpoints_response, ua_services::specs::Sessions::create_session_response, ua_services::specs::Sessions::activate_session_response, ua_services::specs::Updates::history_update_response))]
    fn put_body(&self, out: &mut Vec<u8>) -> Result<(), BinaryFault>
        requires { IsEncodable self.now }
        ensures ok { OnOk result
            (out.new.items ≡ out.old.items ++ response_body_of (service_answer self.now)) }
        ensures spelled { IfOk result (λ _. HasEncoding (service_answer self.now)) }
        ensures err { IfErr result (λ fault. fault ≡ BinaryFault.OutOfMemory) }
    {
        match self {
            Answer::Endpoints(endpoints) => put_get_endpoints_response(out, endpoints),
            Answer::Created(session) => put_create_session_response(out, session),
            Answer::Activated => put_activate_session_response(out),
            Answer::Closed => Ok(()),
            Answer::Updated(results) => put_history_update_response(out, results),
        }
    }

    /// Appends the response to a request, whose body has a spelling. The one error is `OutOfMemory`, which may leave a part.
    pub(crate) fn put(&self, out: &mut Vec<u8>, context: RequestContext) -> Result<(), BinaryFault>
        requires { IsEncodable self.now }
        ensures ok { OnOk result
            (out.new.items
            ≡ out.old.items ++ response context.now context.handle (Ok (service_answer self.now))) }
        ensures spelled { IfOk result (λ _. HasEncoding (service_answer self.now)) }
        ensures err { IfErr result (λ fault. fault ≡ BinaryFault.OutOfMemory) }
    {
        put_head(out, self.type_id(), context, Status::GOOD)?;
        self.put_body(out)
    }
}
