//! What holds of each format.

ghost use Rattle.ua_binary.specs.Format.{IsLawful, IsPrefixFree};
ghost use Rattle.ua_services.specs.Endpoints.{application_description, user_token_policy, endpoint_description, get_endpoints_request, get_endpoints_response};
ghost use Rattle.ua_services.specs.Sessions.{user_identity, create_session_request, create_session_response, activate_session_request, activate_session_response, close_session_request};
ghost use Rattle.ua_services.specs.Updates.{update_data_details, delete_raw_modified_details, delete_at_time_details, history_update_details, history_update_request, history_update_result, history_update_response};
ghost use Rattle.ua_services.specs.Browsing.{browse_description, browse_request, reference_description, browse_result, browse_response};
ghost use Rattle.ua_services.specs.Attributes.{read_value_id, read_request, read_response};
ghost use Rattle.ua_services.specs.History.{read_raw_modified_details, history_read_details, history_read_value_id, history_read_request, modification_info, history_data, history_read_result, history_read_response};

/// What is read is spelled there; what is spelled is read, whatever follows; and what is written is a
/// spelling.
#[tactic(auto, using(crate::proofs::Lawful::lawful, crate::proofs::UpdatesLawful::updates, crate::proofs::ReadsLawful::reads, crate::proofs::HistoryLawful::history))]
pub fn formats_are_lawful()
    ensures application_description { IsLawful application_description }
    ensures user_token_policy { IsLawful user_token_policy }
    ensures endpoint_description { IsLawful endpoint_description }
    ensures user_identity { IsLawful user_identity }
    ensures get_endpoints_request { IsLawful get_endpoints_request }
    ensures get_endpoints_response { IsLawful get_endpoints_response }
    ensures create_session_request { IsLawful create_session_request }
    ensures create_session_response { IsLawful create_session_response }
    ensures activate_session_request { IsLawful activate_session_request }
    ensures activate_session_response { IsLawful activate_session_response }
    ensures close_session_request { IsLawful close_session_request }
    ensures update_data_details { IsLawful update_data_details }
    ensures delete_raw_modified_details { IsLawful delete_raw_modified_details }
    ensures delete_at_time_details { IsLawful delete_at_time_details }
    ensures history_update_details { IsLawful history_update_details }
    ensures history_update_request { IsLawful history_update_request }
    ensures history_update_result { IsLawful history_update_result }
    ensures history_update_response { IsLawful history_update_response }
    ensures browse_description { IsLawful browse_description }
    ensures browse_request { IsLawful browse_request }
    ensures reference_description { IsLawful reference_description }
    ensures browse_result { IsLawful browse_result }
    ensures browse_response { IsLawful browse_response }
    ensures read_value_id { IsLawful read_value_id }
    ensures read_request { IsLawful read_request }
    ensures read_response { IsLawful read_response }
    ensures read_raw_modified_details { IsLawful read_raw_modified_details }
    ensures history_read_details { IsLawful history_read_details }
    ensures history_read_value_id { IsLawful history_read_value_id }
    ensures history_read_request { IsLawful history_read_request }
    ensures modification_info { IsLawful modification_info }
    ensures history_data { IsLawful history_data }
    ensures history_read_result { IsLawful history_read_result }
    ensures history_read_response { IsLawful history_read_response }
{}

/// No spelling is the front of another, and no two values have one spelling: so what was written is
/// read again, whatever follows.
#[tactic(auto, using(ua_binary::proofs::Spelled::prefix_free, crate::proofs::Lawful::lawful, crate::proofs::UpdatesLawful::updates, crate::proofs::ReadsLawful::reads, crate::proofs::HistoryLawful::history))]
pub fn formats_are_prefix_free()
    ensures application_description { IsPrefixFree application_description }
    ensures user_token_policy { IsPrefixFree user_token_policy }
    ensures endpoint_description { IsPrefixFree endpoint_description }
    ensures user_identity { IsPrefixFree user_identity }
    ensures get_endpoints_request { IsPrefixFree get_endpoints_request }
    ensures get_endpoints_response { IsPrefixFree get_endpoints_response }
    ensures create_session_request { IsPrefixFree create_session_request }
    ensures create_session_response { IsPrefixFree create_session_response }
    ensures activate_session_request { IsPrefixFree activate_session_request }
    ensures activate_session_response { IsPrefixFree activate_session_response }
    ensures close_session_request { IsPrefixFree close_session_request }
    ensures update_data_details { IsPrefixFree update_data_details }
    ensures delete_raw_modified_details { IsPrefixFree delete_raw_modified_details }
    ensures delete_at_time_details { IsPrefixFree delete_at_time_details }
    ensures history_update_details { IsPrefixFree history_update_details }
    ensures history_update_request { IsPrefixFree history_update_request }
    ensures history_update_result { IsPrefixFree history_update_result }
    ensures history_update_response { IsPrefixFree history_update_response }
    ensures browse_description { IsPrefixFree browse_description }
    ensures browse_request { IsPrefixFree browse_request }
    ensures reference_description { IsPrefixFree reference_description }
    ensures browse_result { IsPrefixFree browse_result }
    ensures browse_response { IsPrefixFree browse_response }
    ensures read_value_id { IsPrefixFree read_value_id }
    ensures read_request { IsPrefixFree read_request }
    ensures read_response { IsPrefixFree read_response }
    ensures read_raw_modified_details { IsPrefixFree read_raw_modified_details }
    ensures history_read_details { IsPrefixFree history_read_details }
    ensures history_read_value_id { IsPrefixFree history_read_value_id }
    ensures history_read_request { IsPrefixFree history_read_request }
    ensures modification_info { IsPrefixFree modification_info }
    ensures history_data { IsPrefixFree history_data }
    ensures history_read_result { IsPrefixFree history_read_result }
    ensures history_read_response { IsPrefixFree history_read_response }
{}
