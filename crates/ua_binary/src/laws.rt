//! What holds of each format.

ghost use Rattle.std.specs.Prelude.{◌≡◌};
ghost use Rattle.std.specs.Int.{w16, w32, w64};
ghost use Rattle.ua_binary.specs.declared.codes.TheConstants.Status.{GOOD, GOOD_ENTRY_INSERTED, GOOD_ENTRY_REPLACED, GOOD_NO_DATA, BAD_OUT_OF_MEMORY, BAD_RESOURCE_UNAVAILABLE, BAD_DECODING_ERROR, BAD_ENCODING_LIMITS_EXCEEDED, BAD_SERVICE_UNSUPPORTED, BAD_NOTHING_TO_DO, BAD_TOO_MANY_OPERATIONS, BAD_USER_ACCESS_DENIED, BAD_IDENTITY_TOKEN_INVALID, BAD_IDENTITY_TOKEN_REJECTED, BAD_SECURE_CHANNEL_ID_INVALID, BAD_INVALID_TIMESTAMP, BAD_SESSION_ID_INVALID, BAD_SESSION_NOT_ACTIVATED, BAD_TIMESTAMPS_TO_RETURN_INVALID, BAD_WAITING_FOR_INITIAL_DATA, BAD_NODE_ID_UNKNOWN, BAD_ATTRIBUTE_ID_INVALID, BAD_INDEX_RANGE_INVALID, BAD_DATA_ENCODING_UNSUPPORTED, BAD_CONTINUATION_POINT_INVALID, BAD_REFERENCE_TYPE_ID_INVALID, BAD_BROWSE_DIRECTION_INVALID, BAD_REQUEST_TYPE_INVALID, BAD_SECURITY_MODE_REJECTED, BAD_SECURITY_POLICY_REJECTED, BAD_TOO_MANY_SESSIONS, BAD_HISTORY_OPERATION_INVALID, BAD_HISTORY_OPERATION_UNSUPPORTED, BAD_TYPE_MISMATCH, BAD_TCP_MESSAGE_TYPE_INVALID, BAD_TCP_MESSAGE_TOO_LARGE, BAD_SECURE_CHANNEL_TOKEN_UNKNOWN, BAD_SEQUENCE_NUMBER_INVALID, BAD_NO_DATA, BAD_ENTRY_EXISTS, BAD_NO_ENTRY_EXISTS, BAD_INVALID_ARGUMENT, BAD_CONNECTION_REJECTED, BAD_RESPONSE_TOO_LARGE, BAD_INVALID_TIMESTAMP_ARGUMENT, BAD_BOUND_NOT_FOUND};
ghost use Rattle.ua_binary.specs.Format.{IsLawful, IsPrefixFree, byte, block};
ghost use Rattle.ua_binary.specs.Binary.{unsigned, signed, sbyte, ticks, status, boolean, byte_string, text, guid, node_id, localized, array, qualified, extension};

/// Of each format of the encoding: what is read is spelled there; what is spelled is read, whatever
/// follows; and what is written is a spelling.
#[tactic(auto, using(crate::proofs::Lawful::lawful))]
pub fn formats_are_lawful()
    ensures boolean { IsLawful boolean }
    ensures i8 { IsLawful sbyte }
    ensures one_byte { IsLawful byte }
    ensures i16 { IsLawful (signed w16) }
    ensures u16 { IsLawful (unsigned w16) }
    ensures i32 { IsLawful (signed w32) }
    ensures u32 { IsLawful (unsigned w32) }
    ensures i64 { IsLawful (signed w64) }
    ensures u64 { IsLawful (unsigned w64) }
    ensures four { IsLawful (block 4) }
    ensures eight { IsLawful (block 8) }
    ensures ticks { IsLawful ticks }
    ensures status { IsLawful status }
    ensures text { IsLawful text }
    ensures byte_string { IsLawful byte_string }
    ensures guid { IsLawful guid }
    ensures node_id { IsLawful node_id }
    ensures qualified { IsLawful qualified }
    ensures localized { IsLawful localized }
    ensures extension { IsLawful extension }
{}

/// No spelling is the front of another of its format, and no two values have one spelling: so what
/// was written is read again, whatever follows.
#[tactic(auto, using(crate::proofs::Spelled::prefix_free, crate::proofs::Lawful::lawful))]
pub fn formats_are_prefix_free()
    ensures boolean { IsPrefixFree boolean }
    ensures i8 { IsPrefixFree sbyte }
    ensures one_byte { IsPrefixFree byte }
    ensures i16 { IsPrefixFree (signed w16) }
    ensures u16 { IsPrefixFree (unsigned w16) }
    ensures i32 { IsPrefixFree (signed w32) }
    ensures u32 { IsPrefixFree (unsigned w32) }
    ensures i64 { IsPrefixFree (signed w64) }
    ensures u64 { IsPrefixFree (unsigned w64) }
    ensures four { IsPrefixFree (block 4) }
    ensures eight { IsPrefixFree (block 8) }
    ensures ticks { IsPrefixFree ticks }
    ensures status { IsPrefixFree status }
    ensures text { IsPrefixFree text }
    ensures byte_string { IsPrefixFree byte_string }
    ensures guid { IsPrefixFree guid }
    ensures node_id { IsPrefixFree node_id }
    ensures qualified { IsPrefixFree qualified }
    ensures localized { IsPrefixFree localized }
    ensures extension { IsPrefixFree extension }
{}

/// The same laws of the arrays of each format.
#[tactic(auto, using(crate::proofs::Lawful::array_of_items, crate::proofs::Lawful::item_lawful))]
pub fn arrays_are_lawful()
    ensures boolean { IsLawful (array (λ e. e) boolean) }
    ensures i8 { IsLawful (array (λ e. e) sbyte) }
    ensures one_byte { IsLawful (array (λ e. e) byte) }
    ensures i16 { IsLawful (array (λ e. e) (signed w16)) }
    ensures u16 { IsLawful (array (λ e. e) (unsigned w16)) }
    ensures i32 { IsLawful (array (λ e. e) (signed w32)) }
    ensures u32 { IsLawful (array (λ e. e) (unsigned w32)) }
    ensures i64 { IsLawful (array (λ e. e) (signed w64)) }
    ensures u64 { IsLawful (array (λ e. e) (unsigned w64)) }
    ensures four { IsLawful (array (λ e. e) (block 4)) }
    ensures eight { IsLawful (array (λ e. e) (block 8)) }
    ensures ticks { IsLawful (array (λ e. e) ticks) }
    ensures status { IsLawful (array (λ e. e) status) }
    ensures text { IsLawful (array (λ e. e) text) }
    ensures byte_string { IsLawful (array (λ e. e) byte_string) }
    ensures guid { IsLawful (array (λ e. e) guid) }
    ensures node_id { IsLawful (array (λ e. e) node_id) }
    ensures qualified { IsLawful (array (λ e. e) qualified) }
    ensures localized { IsLawful (array (λ e. e) localized) }
    ensures extension { IsLawful (array (λ e. e) extension) }
{}

/// No spelling of an array is the front of another, and no two arrays have one spelling.
#[tactic(auto, using(crate::proofs::Spelled::prefix_free, crate::proofs::Lawful::array_of_items, crate::proofs::Lawful::item_lawful))]
pub fn arrays_are_prefix_free()
    ensures boolean { IsPrefixFree (array (λ e. e) boolean) }
    ensures i8 { IsPrefixFree (array (λ e. e) sbyte) }
    ensures one_byte { IsPrefixFree (array (λ e. e) byte) }
    ensures i16 { IsPrefixFree (array (λ e. e) (signed w16)) }
    ensures u16 { IsPrefixFree (array (λ e. e) (unsigned w16)) }
    ensures i32 { IsPrefixFree (array (λ e. e) (signed w32)) }
    ensures u32 { IsPrefixFree (array (λ e. e) (unsigned w32)) }
    ensures i64 { IsPrefixFree (array (λ e. e) (signed w64)) }
    ensures u64 { IsPrefixFree (array (λ e. e) (unsigned w64)) }
    ensures four { IsPrefixFree (array (λ e. e) (block 4)) }
    ensures eight { IsPrefixFree (array (λ e. e) (block 8)) }
    ensures ticks { IsPrefixFree (array (λ e. e) ticks) }
    ensures status { IsPrefixFree (array (λ e. e) status) }
    ensures text { IsPrefixFree (array (λ e. e) text) }
    ensures byte_string { IsPrefixFree (array (λ e. e) byte_string) }
    ensures guid { IsPrefixFree (array (λ e. e) guid) }
    ensures node_id { IsPrefixFree (array (λ e. e) node_id) }
    ensures qualified { IsPrefixFree (array (λ e. e) qualified) }
    ensures localized { IsPrefixFree (array (λ e. e) localized) }
    ensures extension { IsPrefixFree (array (λ e. e) extension) }
{}

/// The numbers of the status codes (Part 6, A.2).
pub fn codes_are_the_standards()
    ensures good { GOOD.0 ≡ 0 }
    ensures good_entry_inserted { GOOD_ENTRY_INSERTED.0 ≡ 10616832 }
    ensures good_entry_replaced { GOOD_ENTRY_REPLACED.0 ≡ 10682368 }
    ensures good_no_data { GOOD_NO_DATA.0 ≡ 10813440 }
    ensures bad_out_of_memory { BAD_OUT_OF_MEMORY.0 ≡ 2147680256 }
    ensures bad_resource_unavailable { BAD_RESOURCE_UNAVAILABLE.0 ≡ 2147745792 }
    ensures bad_decoding_error { BAD_DECODING_ERROR.0 ≡ 2147942400 }
    ensures bad_encoding_limits_exceeded { BAD_ENCODING_LIMITS_EXCEEDED.0 ≡ 2148007936 }
    ensures bad_service_unsupported { BAD_SERVICE_UNSUPPORTED.0 ≡ 2148204544 }
    ensures bad_nothing_to_do { BAD_NOTHING_TO_DO.0 ≡ 2148466688 }
    ensures bad_too_many_operations { BAD_TOO_MANY_OPERATIONS.0 ≡ 2148532224 }
    ensures bad_user_access_denied { BAD_USER_ACCESS_DENIED.0 ≡ 2149515264 }
    ensures bad_identity_token_invalid { BAD_IDENTITY_TOKEN_INVALID.0 ≡ 2149580800 }
    ensures bad_identity_token_rejected { BAD_IDENTITY_TOKEN_REJECTED.0 ≡ 2149646336 }
    ensures bad_secure_channel_id_invalid { BAD_SECURE_CHANNEL_ID_INVALID.0 ≡ 2149711872 }
    ensures bad_invalid_timestamp { BAD_INVALID_TIMESTAMP.0 ≡ 2149777408 }
    ensures bad_session_id_invalid { BAD_SESSION_ID_INVALID.0 ≡ 2149908480 }
    ensures bad_session_not_activated { BAD_SESSION_NOT_ACTIVATED.0 ≡ 2150039552 }
    ensures bad_timestamps_to_return_invalid { BAD_TIMESTAMPS_TO_RETURN_INVALID.0 ≡ 2150301696 }
    ensures bad_waiting_for_initial_data { BAD_WAITING_FOR_INITIAL_DATA.0 ≡ 2150760448 }
    ensures bad_node_id_unknown { BAD_NODE_ID_UNKNOWN.0 ≡ 2150891520 }
    ensures bad_attribute_id_invalid { BAD_ATTRIBUTE_ID_INVALID.0 ≡ 2150957056 }
    ensures bad_index_range_invalid { BAD_INDEX_RANGE_INVALID.0 ≡ 2151022592 }
    ensures bad_data_encoding_unsupported { BAD_DATA_ENCODING_UNSUPPORTED.0 ≡ 2151219200 }
    ensures bad_continuation_point_invalid { BAD_CONTINUATION_POINT_INVALID.0 ≡ 2152333312 }
    ensures bad_reference_type_id_invalid { BAD_REFERENCE_TYPE_ID_INVALID.0 ≡ 2152464384 }
    ensures bad_browse_direction_invalid { BAD_BROWSE_DIRECTION_INVALID.0 ≡ 2152529920 }
    ensures bad_request_type_invalid { BAD_REQUEST_TYPE_INVALID.0 ≡ 2152923136 }
    ensures bad_security_mode_rejected { BAD_SECURITY_MODE_REJECTED.0 ≡ 2152988672 }
    ensures bad_security_policy_rejected { BAD_SECURITY_POLICY_REJECTED.0 ≡ 2153054208 }
    ensures bad_too_many_sessions { BAD_TOO_MANY_SESSIONS.0 ≡ 2153119744 }
    ensures bad_history_operation_invalid { BAD_HISTORY_OPERATION_INVALID.0 ≡ 2154889216 }
    ensures bad_history_operation_unsupported { BAD_HISTORY_OPERATION_UNSUPPORTED.0 ≡ 2154954752 }
    ensures bad_type_mismatch { BAD_TYPE_MISMATCH.0 ≡ 2155085824 }
    ensures bad_tcp_message_type_invalid { BAD_TCP_MESSAGE_TYPE_INVALID.0 ≡ 2155741184 }
    ensures bad_tcp_message_too_large { BAD_TCP_MESSAGE_TOO_LARGE.0 ≡ 2155872256 }
    ensures bad_secure_channel_token_unknown { BAD_SECURE_CHANNEL_TOKEN_UNKNOWN.0 ≡ 2156331008 }
    ensures bad_sequence_number_invalid { BAD_SEQUENCE_NUMBER_INVALID.0 ≡ 2156396544 }
    ensures bad_no_data { BAD_NO_DATA.0 ≡ 2157641728 }
    ensures bad_entry_exists { BAD_ENTRY_EXISTS.0 ≡ 2157903872 }
    ensures bad_no_entry_exists { BAD_NO_ENTRY_EXISTS.0 ≡ 2157969408 }
    ensures bad_invalid_argument { BAD_INVALID_ARGUMENT.0 ≡ 2158690304 }
    ensures bad_connection_rejected { BAD_CONNECTION_REJECTED.0 ≡ 2158755840 }
    ensures bad_response_too_large { BAD_RESPONSE_TOO_LARGE.0 ≡ 2159607808 }
    ensures bad_invalid_timestamp_argument { BAD_INVALID_TIMESTAMP_ARGUMENT.0 ≡ 2159869952 }
    ensures bad_bound_not_found { BAD_BOUND_NOT_FOUND.0 ≡ 2161573888 }
{}
